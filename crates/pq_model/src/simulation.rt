ghost use Rattle.std.specs.Prelude.{List};
ghost use Rattle.pq_model.specs.declared.event.Event.{Event};
ghost use Rattle.pq_model.specs.Tagged.{TaggedPacket};
ghost use Rattle.pq_model.specs.Events.{IsSchedule};
ghost use Rattle.pq_model.specs.Meaning.{Meaning, Item, at_rest, run};
ghost use Rattle.pq_model.specs.TablesMachine.{Report, Sender, nothing_sent, run_sending};
ghost use Rattle.pq_model.specs.Headline.{Agree};
ghost use Rattle.pq_model.specs.Simulation.{Simulates};

/// A relation between what is in flight by the meaning and what is in flight by the tables.
pub trait Correspondence {
    ghost matches: { Item → TaggedPacket → Type 0 };
}

/// A law: where one hop of the two machines agrees, whatever way the switches send, both agree over every schedule.
pub fn agreeing_hops_make_schedules_agree<C: Correspondence>()
    ensures { (m : Meaning) (report : Report) (send : Sender) → Simulates m report send C.matches → (events : List Event)
        → IsSchedule events → Agree (run m at_rest events) (run_sending m.topology report send nothing_sent events) }
{}
