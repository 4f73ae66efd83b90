ghost use Rattle.std.specs.Prelude.{ℕ, List, [], ◌≡◌, ◌+◌, length, map, IfOk, OnOk};
ghost use Rattle.pq_auto.specs.Parts.{GivesNumber, IsParted};

use indexmap::IndexSet;
use std::alloc::{AllocError, Global};
use std::marker::Model;

/// Places, counted from 0, parted by their keys: those with one key are in one class, and classes are numbered by their
/// first places.
#[derive(Debug, Drop)]
pub(crate) struct Partition {
    seen: IndexSet<Vec<u64>>,
    classes: Vec<u64>,
    firsts: Vec<u64>,
}

impl Model for Partition {
    ghost use Rattle.pq_auto.specs.Parts.{Parts};
    ghost use Rattle.pq_auto.specs.Stored.{stored_parts};

    ghost Value = { Parts };

    ghost view = { stored_parts };
}

impl Partition {
    /// No places.
    pub fn new(alloc: Global) -> Partition
        ensures none { result.classes ≡ [] }
        ensures parted { (key : ℕ → List ℕ) → IsParted key result }
    {
        Partition {
            seen: IndexSet::new(alloc),
            classes: Vec::new(alloc),
            firsts: Vec::new(alloc),
        }
    }

    /// The number of classes.
    pub fn count(&self) -> u64
        ensures { result ≡ length self.now.firsts }
    {
        self.firsts.len() as u64
    }

    /// The class of each place.
    pub fn classes(&self) -> &[u64]
        ensures { result.now ≡ self.now.classes }
    {
        &self.classes
    }

    /// The first place of each class.
    pub fn firsts(&self) -> &[u64]
        ensures { result.now ≡ self.now.firsts }
    {
        &self.firsts
    }

    /// The next place, with its key.
    pub fn add(&mut self, key: Vec<u64>) -> Result<(), AllocError>
        ensures more { OnOk result (length self.new.classes ≡ length self.old.classes + 1) }
        ensures parted { OnOk result ((keys : ℕ → List ℕ) → keys (length self.old.classes) ≡ key.items → IsParted keys self.old → IsParted keys self.new) }
    {
        let class = number(&mut self.seen, key)?;
        if class == self.firsts.len() as u64 {
            self.firsts.push(self.classes.len() as u64)?;
        }
        self.classes.push(class)?;
        Ok(())
    }
}

/// The number of a key among those seen: that of an equal one, or the next.
pub(crate) fn number(seen: &mut IndexSet<Vec<u64>>, key: Vec<u64>) -> Result<u64, AllocError>
    ensures { IfOk result (λ class. GivesNumber (map (λ k. k.items) seen.old.keys) key.items class (map (λ k. k.items) seen.new.keys)) }
{
    match seen.insert_full(key) {
        Ok((class, _)) => Ok(class as u64),
        Err(_) => Err(AllocError),
    }
}
