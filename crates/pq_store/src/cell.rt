ghost use Rattle.std.specs.Prelude.{◌≡◌, if◌then◌else◌};
ghost use Rattle.pq_store.specs.Arena.{behind};

use crate::node_id::NodeId;
use crate::test::Test;
use pq_fields::Field;

/// A test with its sides.
#[derive(Clone, Copy, Debug, PartialEq, Eq, Hash)]
pub(crate) struct Branch {
    pub test: Test,
    pub yes: NodeId,
    pub no: NodeId,
    /// What the no side says past the test, so that no chain of numbers is walked twice.
    pub past: NodeId,
}

impl Branch {
    /// What is after the numbers of the field with which the branch at this place begins.
    pub fn behind(&self, field: Field, at: NodeId) -> NodeId
        ensures { result ≡ behind field self.now at }
    {
        match self.test {
            Test::Equal(own, _) if own == field => self.past,
            _ => at,
        }
    }
}

/// What a store keeps for an id.
#[derive(Debug, PartialEq, Eq, Hash, Drop)]
pub(crate) enum Cell<L> {
    Leaf(L),
    Branch(Branch),
}
