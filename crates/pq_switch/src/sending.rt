ghost use Rattle.std.specs.Prelude.{◌≡◌, ◌++◌, IfOk, OnOk};
ghost use Rattle.std.specs.List.{flat_map};
ghost use Rattle.pq_model.specs.Lawful.{IsLawfulAction};
ghost use Rattle.pq_model.specs.SwitchMachine.{changed_by, copies, emits, emits_in_bucket, runs, sends};

use crate::actions::{Actions, change, output, run_bucket};
use crate::flow_tables::FlowTables;
use crate::groups::Groups;
use crate::sorting::sort;
use crate::tables::Tables;
use pq_model::{Action, Sent, Tagged};
use std::alloc::{AllocError, Global};

/// The most tables that a packet passes: GOTO_TABLE leads up, to 254 at the most.
const MOST_TABLES: u8 = 255;

/// The copies that a switch with these tables sends for an arriving packet (OpenFlow 1.3.5, section 5.1): those to
/// ports first, each part in packet order and then by VLAN number, a copy without a header first.
pub fn hop(alloc: Global, tables: &Tables, arriving: &Tagged) -> Result<Vec<Sent>, AllocError>
    ensures { IfOk result (λ sent. sent.items ≡ sends tables.now arriving.now) }
{
    sent_from(alloc, tables, arriving)
}

/// The copies that a switch sends from these tables, in order.
pub(crate) fn sent_from<T: FlowTables>(
    alloc: Global,
    tables: &T,
    arriving: &Tagged,
) -> Result<Vec<Sent>, AllocError>
    ensures { IfOk result (λ sent. sent.items ≡ sends (T.FlowTables.tables tables.now) arriving.now) }
{
    let mut sent = copies(alloc, tables, *arriving)?;
    sort(&mut sent)?;
    Ok(sent)
}

// The copies of a packet in the order of the actions.
#[tactic(auto, unfolding(pq_model::specs::SwitchMachine::copies))]
fn copies<T: FlowTables>(alloc: Global, tables: &T, mut x: Tagged) -> Result<Vec<Sent>, AllocError>
    ensures { IfOk result (λ sent. sent.items ≡ copies (T.FlowTables.tables tables.now) x) }
{
    let mut sent = Vec::new(alloc);
    let mut table = 0;
    for _passed in 0..MOST_TABLES {
        let Some(entry) = tables.taken(table, &x) else {
            return Ok(sent);
        };
        x = run(tables.groups(), &entry.actions, x, &mut sent)?;
        let Some(next) = entry.goto else {
            return Ok(sent);
        };
        table = next;
    }
    Ok(sent)
}

/// Runs the actions of an entry and gives the packet after them.
pub(crate) fn run(
    groups: &Groups,
    actions: &Actions,
    mut x: Tagged,
    sent: &mut Vec<Sent>,
) -> Result<Tagged, AllocError>
    ensures after { IfOk result (λ y. y ≡ changed_by actions.now x) }
    ensures sent { OnOk result (sent.new.items ≡ sent.old.items ++ runs (emits groups.now) actions.now x) }
{
    for action in actions.as_slice() {
        emit(groups, *action, x, sent)?;
        x = change(*action, x);
    }
    Ok(x)
}

// Sends what an action of an entry sends.
fn emit(groups: &Groups, action: Action, x: Tagged, sent: &mut Vec<Sent>) -> Result<(), AllocError>
    ensures { OnOk result (sent.new.items ≡ sent.old.items ++ emits groups.now action x) }
{
    match action {
        Action::Output(port) => output(port, x, sent),
        Action::Group(number) => run_buckets(groups.buckets(number), x, sent),
        _ => Ok(()),
    }
}

// Runs each bucket on a copy of its own.
fn run_buckets(buckets: &[Actions], x: Tagged, sent: &mut Vec<Sent>) -> Result<(), AllocError>
    ensures { OnOk result (sent.new.items ≡ sent.old.items ++ flat_map (λ b. runs emits_in_bucket b x) buckets.now) }
{
    for bucket in buckets {
        run_bucket(bucket, x, sent)?;
    }
    Ok(())
}
