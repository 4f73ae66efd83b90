ghost use Rattle.std.specs.Prelude.{◌≡◌, ◌++◌, All, IfOk, OnOk};
ghost use Rattle.pq_model.specs.Lawful.{IsLawfulAction};
ghost use Rattle.pq_model.specs.SwitchMachine.{changed, emits_in_bucket, outputs, pushed, renamed, runs};

use pq_fields::{Field, has};
use pq_model::{Action, CONTROLLER, IN_PORT, Sent, Tagged};
use std::alloc::{AllocError, Global};
use std::marker::Model;

/// The actions of an entry or a bucket, each of which a message may hold.
#[derive(Drop)]
pub(crate) struct Actions {
    items: Vec<Action>,
}

impl Model for Actions {
    ghost use Rattle.std.specs.Prelude.{List, All};
    ghost use Rattle.pq_model.specs.declared.action.Action.{Action};
    ghost use Rattle.pq_model.specs.Lawful.{IsLawfulAction};

    ghost Value = { List Action };

    ghost view = { λ a. a.items.items };

    ghost invariant = { λ a. All IsLawfulAction a.items.items };
}

impl Actions {
    /// The same actions in memory of their own.
    pub(crate) fn copy(alloc: Global, actions: &[Action]) -> Result<Actions, AllocError>
        requires { All IsLawfulAction actions.now }
        ensures { IfOk result (λ copied. copied ≡ actions.now) }
    {
        let items = Vec::from_slice(alloc, actions)?;
        Ok(Actions { items })
    }

    pub(crate) fn as_slice(&self) -> &[Action]
        ensures value { result.now ≡ self.now }
        ensures lawful { All IsLawfulAction self.now }
    {
        self.items.as_slice()
    }
}

// The VLAN header after PushVlan.
fn pushed(vlan: Option<u16>) -> Option<u16>
    ensures { result ≡ pushed vlan }
{
    match vlan {
        Some(number) => Some(number),
        None => Some(0),
    }
}

/// The packet after an action (OpenFlow 1.3.5, section 5.12).
pub(crate) fn change(action: Action, x: Tagged) -> Tagged
    requires { IsLawfulAction action }
    ensures { result ≡ changed action x }
{
    match action {
        Action::PushVlan => Tagged {
            vlan: pushed(x.vlan),
            ..x
        },
        Action::PopVlan => Tagged { vlan: None, ..x },
        Action::SetVlan(word) => match x.vlan {
            Some(_) => Tagged {
                vlan: Some(word - 0x1000),
                ..x
            },
            None => x,
        },
        Action::SetField(field, number) => {
            if !has(field, &x.packet) {
                return x;
            }
            Tagged {
                packet: x.packet.with(field, number),
                ..x
            }
        }
        Action::Output(_) | Action::Group(_) => x,
    }
}

/// Sends what an Output sends.
pub(crate) fn output(port: u32, x: Tagged, sent: &mut Vec<Sent>) -> Result<(), AllocError>
    ensures { OnOk result (sent.new.items ≡ sent.old.items ++ outputs port x) }
{
    if port == IN_PORT {
        sent.push(Sent::Port(x))?;
        return Ok(());
    }
    if port == CONTROLLER {
        sent.push(Sent::Controller(x))?;
        return Ok(());
    }
    if u64::from(port) == x.packet.port {
        return Ok(());
    }
    sent.push(Sent::Port(Tagged {
        packet: x.packet.with(Field::Port, u64::from(port)),
        ..x
    }))?;
    Ok(())
}

fn emit_in_bucket(action: Action, x: Tagged, sent: &mut Vec<Sent>) -> Result<(), AllocError>
    ensures { OnOk result (sent.new.items ≡ sent.old.items ++ emits_in_bucket action x) }
{
    match action {
        Action::Output(port) => output(port, x, sent),
        _ => Ok(()),
    }
}

/// Runs the actions of a bucket on a copy of the packet.
pub(crate) fn run_bucket(
    bucket: &Actions,
    mut x: Tagged,
    sent: &mut Vec<Sent>,
) -> Result<(), AllocError>
    ensures { OnOk result (sent.new.items ≡ sent.old.items ++ runs emits_in_bucket bucket.now x) }
{
    for action in bucket.as_slice() {
        emit_in_bucket(*action, x, sent)?;
        x = change(*action, x);
    }
    Ok(())
}
