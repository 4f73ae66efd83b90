ghost use Rattle.std.specs.Prelude.{◌≡◌, ◌<◌, [], Some, length};
ghost use Rattle.std.proofs.Math.ListN.{get_or};
ghost use Rattle.pq_fields.specs.Packet.{Fit, zero_packet};
ghost use Rattle.pq_letters.specs.Letters.{IsLettered, letter_at};

use crate::signature::Signature;
use indexmap::IndexSet;
use pq_fields::Packet;
use pq_store::{NodeId, Store};
use std::marker::Model;

/// Letters: packets of which the same of some predicates hold have the same letter.
///
/// They are numbered from 0 by ascending least packet, and each has a packet.
#[derive(Drop)]
pub struct Letters {
    pub(crate) store: Store<u64>,
    pub(crate) root: NodeId,
    pub(crate) signatures: IndexSet<Signature>,
    pub(crate) least: Vec<Packet>,
}

impl Model for Letters {
    ghost use Rattle.pq_letters.specs.Letters.{IsLettered, LettersValue, letters_code};

    ghost Value = { LettersValue };

    ghost coded = { letters_code };

    ghost view = { λ l. record { trees = l.store; root = l.root; signatures = l.signatures.keys; least = l.least.items } };

    ghost invariant = { λ l. IsLettered (record { trees = l.store; root = l.root; signatures = l.signatures.keys; least = l.least.items }) };
}

impl Letters {
    /// The number of letters, at least one.
    pub fn count(&self) -> u64
        ensures count { result ≡ length self.now.least }
        ensures lettered { IsLettered self.now }
    {
        self.least.len() as u64
    }

    /// Which of the predicates hold of the packets of the letter, in the order of the predicates.
    pub fn signature(&self, letter: u64) -> &[bool]
        requires { letter < length self.now.least }
        ensures { result.now ≡ get_or self.now.signatures letter [] }
    {
        match self.signatures.get_index(letter as usize) {
            Some(signature) => &signature.truths,
            None => unreachable!(),
        }
    }

    /// The least packet of the letter, in packet order.
    pub fn least(&self, letter: u64) -> &Packet
        requires { letter < length self.now.least }
        ensures { result.now ≡ get_or self.now.least letter zero_packet }
    {
        &self.least[letter as usize]
    }

    /// The letter of the packet.
    pub fn letter_of(&self, x: &Packet) -> u64
        ensures letter { letter_at self.now x.now ≡ Some result }
        ensures within { result < length self.now.least }
    {
        // Opens the packet: that its numbers fit their fields is needed here.
        let _ = &x.switch;
        *self.store.eval(self.root, x)
    }

    /// The store of the diagram whose leaves are the letters.
    pub fn store(&self) -> &Store<u64>
        ensures { result.now ≡ self.now.trees }
    {
        &self.store
    }

    /// The root of that diagram: `eval` of it is the letter of a packet.
    pub fn root(&self) -> NodeId
        ensures root { result ≡ self.now.root }
        ensures within { result < length self.now.trees }
    {
        self.root
    }
}
