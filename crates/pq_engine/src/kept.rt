ghost use Rattle.std.specs.Prelude.{◌≡◌};

use crate::parts::PartsChange;
use crate::queries::QueriesChange;
use pq_classes::QueryClasses;
use pq_install::Install;
use pq_model::Message;
use pq_rewrite::WriteSet;
use pq_store::Store;
use pq_sum::Sum;

/// What an engine keeps besides its document.
#[derive(Drop)]
pub(crate) struct Kept {
    /// The store of the diagrams of the parts, and the sum of these.
    pub(crate) forward: Store<WriteSet>,
    pub(crate) sum: Sum,
    /// What the queries tell apart.
    pub(crate) told: QueryClasses,
    pub(crate) install: Install,
}

impl Kept {
    /// Keeps what a change of the parts made; gives the messages.
    pub(crate) fn take_parts(&mut self, change: PartsChange) -> Vec<(u64, Vec<Message>)>
        ensures kept { self.new ≡ record { forward = change.forward; sum = change.sum; told = self.old.told; install = change.renewed.install } }
        ensures messages { result ≡ change.renewed.messages }
    {
        self.forward = change.forward;
        self.sum = change.sum;
        self.install = change.renewed.install;
        change.renewed.messages
    }

    /// Keeps what a change of the queries made; gives the messages.
    pub(crate) fn take_queries(&mut self, change: QueriesChange) -> Vec<(u64, Vec<Message>)>
        ensures kept { self.new ≡ record { forward = self.old.forward; sum = self.old.sum; told = change.told; install = change.renewed.install } }
        ensures messages { result ≡ change.renewed.messages }
    {
        self.told = change.told;
        self.install = change.renewed.install;
        change.renewed.messages
    }
}
