ghost use Rattle.std.specs.Prelude.{◌≡◌, List};
ghost use Rattle.pq_model.specs.declared.event.Event.{Event};
ghost use Rattle.pq_model.specs.Install.{Install};
ghost use Rattle.pq_model.specs.TablesMachine.{nothing_sent, run_sending};
ghost use Rattle.pq_net.specs.Network.{after_all, installed_sender, opened, sender_of};

/// A law: in a network that was opened from an install each switch sends by the tables that its messages leave in empty
/// ones, and after a schedule the network's state is the one that these ways of sending lead to.
pub fn opened_networks_send_by_their_messages()
    ensures sender { (i : Install) → sender_of (opened i) ≡ installed_sender i }
    ensures state { (i : Install) (events : List Event) → (after_all (opened i) events).state
        ≡ run_sending i.topology i.report (installed_sender i) nothing_sent events }
{}
