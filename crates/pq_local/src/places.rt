//! Places of diagrams that say the same of the packets at a switch.
ghost use Rattle.std.specs.Prelude.{◌↔◌, ◌≡◌, ◌<◌, IsTrue, length};
ghost use Rattle.pq_fields.specs.declared.field.Field.TheVariants.{Switch};
ghost use Rattle.pq_fields.specs.Packet.{rank};
ghost use Rattle.pq_store.specs.Test.{field_of};
ghost use Rattle.pq_local.specs.Local.{AgreeAt};

use pq_apply::decided;
use pq_fields::Field;
use pq_rewrite::WriteSet;
use pq_store::{NodeId, Store, Test, View};

/// Whether the test is of the switch.
fn is_of_switch(test: Test) -> bool
    ensures { IsTrue result ↔ (rank (field_of test) ≡ rank Switch) }
{
    let (tested, own) = (test.field() as u8, Field::Switch as u8);
    tested == own
}

/// The place after the tests of the switch that a diagram begins with, for the packets at a switch.
pub(crate) fn switch_place(store: &Store<WriteSet>, node: NodeId, datapath: u64) -> NodeId
    requires { node < length store.now }
    ensures { AgreeAt store.now datapath result node }
{
    let mut at = node;
    loop {
        match store.view(at) {
            View::Node(test, yes, no) if is_of_switch(test) => {
                at = if decided(test, datapath) { yes } else { no };
            }
            _ => return at,
        }
    }
}

/// Whether two diagrams have one place for the packets at the switch. Then they say the same of these.
pub(crate) fn agree(store: &Store<WriteSet>, before: NodeId, policy: NodeId, datapath: u64) -> bool
    requires before { before < length store.now }
    requires policy { policy < length store.now }
    ensures { IsTrue result → AgreeAt store.now datapath before policy }
{
    let old = switch_place(store, before, datapath);
    let new = switch_place(store, policy, datapath);
    old == new
}
