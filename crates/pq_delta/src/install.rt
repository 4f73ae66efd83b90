//! The messages that turn the tables of one install into those of another.
ghost use Rattle.std.specs.Prelude.{◌≡◌, ◌++◌, ◌∷◌, [], All, length, map, IfOk, OnOk};
ghost use Rattle.pq_model.specs.Install.{IsLawfulInstall, IsLawfulList};
ghost use Rattle.pq_delta.specs.Delta.{AreShort, delta, deltas, with_switch};

use crate::switch::switch_delta;
use pq_install::Install;
use pq_model::Message;
use pq_topo::Switch;
use std::alloc::{AllocError, Global};

/// For each switch whose tables change, in the topology's order, its datapath number and the messages that turn the tables that
/// the old install leaves into those that the new one leaves. It fails only where there is no memory for them.
///
/// The messages have transaction ids from 1 on: the entries that aren't among the new ones are deleted, and so are the groups
/// with numbers above the new count; after a barrier groups with new numbers are added, and those with other buckets modified;
/// after another the entries that aren't among the old ones are added; then comes a barrier. Both installs keep the rules of
/// installs, and have one topology; the groups of a switch are numbered from 1 in order. Time is near-linear in the installs.
pub fn delta(
    alloc: Global,
    old: &Install,
    new: &Install,
) -> Result<Vec<(u64, Vec<Message>)>, AllocError>
    requires old { IsLawfulInstall old.now }
    requires new { IsLawfulInstall new.now }
    requires topology { old.now.topology ≡ new.now.topology }
    ensures changed { IfOk result (λ changed. map (λ p. (p.0, p.1.items)) changed.items ≡ delta old.now new.now) }
    ensures few { IfOk result (λ changed. AreShort (map (λ p. (p.0, p.1.items)) changed.items)) }
{
    deltas(alloc, new.topology.switches(), &old.messages, &new.messages)
}

/// For each of these switches that has messages, its datapath number and its messages.
fn deltas(
    alloc: Global,
    switches: &[Switch],
    olds: &[Vec<Message>],
    news: &[Vec<Message>],
) -> Result<Vec<(u64, Vec<Message>)>, AllocError>
    requires old_listed { length olds.now ≡ length switches.now }
    requires new_listed { length news.now ≡ length switches.now }
    requires olds { All IsLawfulList (map (λ ms. ms.items) olds.now) }
    requires news { All IsLawfulList (map (λ ms. ms.items) news.now) }
    ensures changed { IfOk result (λ changed. map (λ p. (p.0, p.1.items)) changed.items
        ≡ deltas switches.now (map (λ ms. ms.items) olds.now) (map (λ ms. ms.items) news.now)) }
    ensures few { IfOk result (λ changed. AreShort (map (λ p. (p.0, p.1.items)) changed.items)) }
{
    let mut changed = Vec::new(alloc);
    for index in 0..switches.len() {
        let messages = switch_delta(alloc, &olds[index], &news[index])?;
        let switch = &switches[index];
        push_switch(&mut changed, switch.datapath, messages)?;
    }
    Ok(changed)
}

/// Appends a switch and its messages, if there are any.
fn push_switch(
    changed: &mut Vec<(u64, Vec<Message>)>,
    datapath: u64,
    messages: Vec<Message>,
) -> Result<(), AllocError>
    ensures { OnOk result (map (λ p. (p.0, p.1.items)) changed.new.items
        ≡ map (λ p. (p.0, p.1.items)) changed.old.items ++ with_switch datapath messages.items []) }
{
    if messages.is_empty() {
        return Ok(());
    }
    changed.push((datapath, messages))?;
    Ok(())
}
