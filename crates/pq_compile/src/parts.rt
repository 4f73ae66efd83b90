//! The parts of a policy.
ghost use Rattle.std.specs.Prelude.{◌≡◌, ◌++◌, ◌∷◌, [], map, IfOk};
ghost use Rattle.pq_tree.specs.Trees.{tree, trees};
ghost use Rattle.pq_topo.specs.Naming.{IsAnswer};
ghost use Rattle.pq_policy.specs.Resolved.{policy_of};
ghost use Rattle.pq_compile.specs.Names.{named_from, named_of};
ghost use Rattle.pq_compile.specs.Documents.{part_tree, parts_of};

use crate::names::{keyword_at, name_at};
use indexmap::IndexSet;
use pq_grammar::{Class, is_class};
use pq_policy::{Policy, resolve_policy};
use pq_pred::faulty;
use pq_term::{Name, Token};
use pq_topo::{NameFault, NameKind, Topology};
use pq_tree::{Term, class_in_text};
use std::alloc::Global;

/// The most parts of a document.
const MOST_PARTS: usize = 1024;

/// The part of this name and body; its name joins those of earlier parts.
#[tactic(auto, using(pq_topo::proofs::Passed::passed, pq_topo::proofs::Passed::followed))]
fn part_from(
    alloc: Global,
    keyword: &Token,
    name: &Token,
    body: &Term<'_>,
    bytes: &[u8],
    topology: &Topology,
    names: &mut IndexSet<Name>,
) -> Result<(Name, Policy), NameFault>
    ensures part { IsAnswer part_tree result (named_from bytes.now 1024
        (policy_of topology.now bytes.now) names.old.keys keyword.now name.now (tree body.now)) }
    ensures kept { IfOk result (λ p. names.new.keys ≡ names.old.keys ++ p.0 ∷ []) }
{
    keyword_at(MOST_PARTS, names.len(), keyword)?;
    let name = name_at(bytes, names, name)?;
    let policy = resolve_policy(alloc, body, bytes, topology)?;
    Ok((name, policy))
}

/// The part of a statement; its name joins those of earlier parts.
#[tactic(auto, using(crate::proofs::Statements::named_two, crate::proofs::Statements::named_few))]
fn part_of(
    alloc: Global,
    keyword: &Token,
    children: &[Term<'_>],
    bytes: &[u8],
    topology: &Topology,
    names: &mut IndexSet<Name>,
) -> Result<(Name, Policy), NameFault>
    ensures part { IsAnswer part_tree result (named_of bytes.now 1024 (policy_of topology.now bytes.now) names.old.keys keyword.now (trees children.now)) }
    ensures kept { IfOk result (λ p. names.new.keys ≡ names.old.keys ++ p.0 ∷ []) }
{
    match children {
        [name, body, ..] => part_from(alloc, keyword, &name.head, body, bytes, topology, names),
        _ => Err(faulty(keyword, NameKind::BadValue)),
    }
}

/// The parts of the statements, in text order.
#[tactic(auto, using(crate::proofs::Statements::one_is_read, crate::proofs::Statements::one_is_refused, crate::proofs::Statements::one_name_more, crate::proofs::Statements::none_is_read))]
pub(crate) fn read_parts(
    alloc: Global,
    terms: &[Term<'_>],
    bytes: &[u8],
    topology: &Topology,
) -> Result<Vec<(Name, Policy)>, NameFault>
    ensures { IsAnswer (λ parts. map part_tree parts.items) result (parts_of topology.now bytes.now (trees terms.now)) }
{
    let mut names = IndexSet::new(alloc);
    let mut parts = Vec::new(alloc);
    for term in terms {
        if is_class(class_in_text(bytes, &term.head), Class::PartWord) {
            match part_of(
                alloc,
                &term.head,
                term.children,
                bytes,
                topology,
                &mut names,
            ) {
                Ok(part) => match parts.push(part) {
                    Ok(()) => {}
                    Err(_) => return Err(NameFault::Memory),
                },
                Err(fault) => return Err(fault),
            }
        }
    }
    Ok(parts)
}
