ghost use Rattle.std.specs.Prelude.{◌≡◌, ◌<◌, ◌++◌, ◌∷◌, [], length, OnErr, OnOk};
ghost use Rattle.std.specs.List.{remove};
ghost use Rattle.pq_model.specs.TablesMachine.{nothing_sent};
ghost use Rattle.pq_net.specs.Hops.{moved_on};

use crate::entry::Entry;
use crate::flight::take_out;
use pq_model::Tagged;
use std::alloc::{AllocError, Global};
use std::marker::Model;

/// What a hop adds: packets in flight, packets delivered, and bucket entries.
#[derive(Debug, Drop)]
pub(crate) struct Added {
    pub(crate) flight: Vec<Tagged>,
    pub(crate) delivered: Vec<Tagged>,
    pub(crate) buckets: Vec<Entry>,
}

impl Model for Added {
    ghost use Rattle.pq_model.specs.TablesMachine.{TablesState};

    ghost Value = { TablesState };

    ghost view = { λ s. record { flight = s.flight.items; delivered = s.delivered.items; buckets = s.buckets.items } };
}

/// Where packets are: in flight and delivered; and what the collector has.
#[derive(Debug, Drop)]
pub(crate) struct State {
    // Those before `first` have left.
    flight: Vec<Tagged>,
    first: usize,
    delivered: Vec<Tagged>,
    buckets: Vec<Entry>,
}

impl Model for State {
    ghost use Rattle.std.specs.Prelude.{◌≤◌, drop, length};
    ghost use Rattle.pq_model.specs.TablesMachine.{TablesState};

    ghost Value = { TablesState };

    ghost view = { λ s. record { flight = drop s.first s.flight.items; delivered = s.delivered.items; buckets = s.buckets.items } };

    ghost invariant = { λ s. s.first ≤ length s.flight.items };
}

impl State {
    /// No packet anywhere.
    pub(crate) fn empty(alloc: Global) -> State
        ensures { result ≡ nothing_sent }
    {
        State {
            flight: Vec::new(alloc),
            first: 0,
            delivered: Vec::new(alloc),
            buckets: Vec::new(alloc),
        }
    }

    /// The packets in flight.
    pub(crate) fn flight(&self) -> &[Tagged]
        ensures { result.now ≡ self.now.flight }
    {
        &self.flight[self.first..]
    }

    /// The packets delivered.
    pub(crate) fn delivered(&self) -> &[Tagged]
        ensures { result.now ≡ self.now.delivered }
    {
        &self.delivered
    }

    /// What the collector has.
    pub(crate) fn buckets(&self) -> &[Entry]
        ensures { result.now ≡ self.now.buckets }
    {
        &self.buckets
    }

    /// Puts a packet in flight, after all others.
    pub(crate) fn put(&mut self, x: Tagged) -> Result<(), AllocError>
        ensures ok { OnOk result (self.new ≡ record self.old { flight = self.old.flight ++ x ∷ [] }) }
        ensures err { OnErr result (self.new ≡ self.old) }
    {
        self.flight.push(x)?;
        Ok(())
    }

    /// Takes the packet at a place out of flight, where there is one.
    pub(crate) fn drop_at(&mut self, place: usize)
        ensures { self.new ≡ record self.old { flight = remove self.old.flight place } }
    {
        if place >= self.flight.len() - self.first {
            return;
        }
        self.first = take_out(&mut self.flight, self.first, place);
    }

    /// Takes the packet at a place out of flight, and puts what its hop adds after what there is. All growths come
    /// first, so a refusal leaves the state as it was.
    pub(crate) fn move_on(&mut self, place: usize, mut added: Added) -> Result<(), AllocError>
        requires { place < length self.old.flight }
        ensures ok { OnOk result (self.new ≡ moved_on self.old place added) }
        ensures err { OnErr result (self.new ≡ self.old) }
    {
        self.flight.reserve(added.flight.len())?;
        self.delivered.reserve(added.delivered.len())?;
        self.buckets.reserve(added.buckets.len())?;
        self.first = take_out(&mut self.flight, self.first, place);
        self.flight.append(&mut added.flight)?;
        self.delivered.append(&mut added.delivered)?;
        self.buckets.append(&mut added.buckets)
    }
}
