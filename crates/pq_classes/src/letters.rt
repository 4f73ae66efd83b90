//! The letters of predicates, and the least automaton over them.
ghost use Rattle.std.specs.Prelude.{◌≡◌, ◌<◌, ◌^◌, All, IfOk, length, map};
ghost use Rattle.std.specs.List.{AllZip};
ghost use Rattle.pq_fields.specs.Pred.{IsLawfulPred, pred_tree};
ghost use Rattle.pq_expr.specs.Expr.{expr_tree};
ghost use Rattle.pq_store.specs.Room.{HasRoom};
ghost use Rattle.pq_store.specs.Store.{Keeps};
ghost use Rattle.pq_apply.specs.Predicates.{HoldsAt, IsPredWithin};
ghost use Rattle.pq_classes.specs.Letters.{TestsPreds};
ghost use Rattle.pq_classes.specs.Told.{IsAutomatonOf, TellPreds};

use pq_apply::pred_node;
use pq_auto::explore;
use pq_expr::Expr;
use pq_fields::Pred;
use pq_io::Steps;
use pq_letters::{Letters, partition};
use pq_min::{Classes, minimise};
use pq_store::{NodeId, Store};
use std::alloc::{AllocError, Global};
use std::sync::ledger::Ledger;

/// The diagrams of predicates, in order.
fn nodes(alloc: Global, tests: &mut Store<bool>, preds: &[Pred]) -> Result<Vec<NodeId>, AllocError>
    requires lawful { All IsLawfulPred (map pred_tree preds.now) }
    requires fits { HasRoom (λ ns. All (IsPredWithin ns) (map pred_tree preds.now)) }
    ensures nodes { IfOk result (λ ids. AllZip (λ p id. HoldsAt p tests.new id) (map pred_tree preds.now) ids.items) }
    ensures keeps { Keeps tests.old tests.new }
{
    let mut ids = Vec::with_capacity(alloc, preds.len())?;
    for pred in preds {
        let id = pred_node(tests, pred)?;
        ids.push(id)?;
    }
    Ok(ids)
}

/// The letters of predicates.
pub(crate) fn letters_of(
    alloc: Global,
    tests: &mut Store<bool>,
    preds: &[Pred],
) -> Result<Letters, AllocError>
    requires lawful { All IsLawfulPred (map pred_tree preds.now) }
    requires fits { HasRoom (λ ns. All (IsPredWithin ns) (map pred_tree preds.now)) }
    ensures tells { IfOk result (λ letters. TellPreds (map pred_tree preds.now) letters) }
    ensures tests { IfOk result (λ letters. TestsPreds (map pred_tree preds.now) letters) }
    ensures keeps { Keeps tests.old tests.new }
{
    let ids = nodes(alloc, tests, preds)?;
    let letters = partition(tests, &ids)?;
    Ok(letters)
}

/// Of each letter, which predicates hold of its packets.
fn alphabet(alloc: Global, letters: &Letters) -> Result<Vec<Vec<bool>>, AllocError>
    ensures { IfOk result (λ all. map (λ v. v.items) all.items ≡ letters.now.signatures) }
{
    let mut all = Vec::with_capacity(alloc, letters.count() as usize)?;
    for letter in 0..letters.count() {
        let truths = Vec::from_slice(alloc, letters.signature(letter))?;
        all.push(truths)?;
    }
    Ok(all)
}

/// The least automaton of expressions over letters.
pub(crate) fn classes_of<L: Ledger>(
    alloc: Global,
    exprs: &[Expr],
    letters: &Letters,
    steps: &mut Steps<L>,
) -> Result<Classes, AllocError>
    requires { length exprs.now < 2 ^ 32 }
    ensures { IfOk result (λ classes. IsAutomatonOf (map expr_tree exprs.now) letters.now classes) }
{
    let alphabet = alphabet(alloc, letters)?;
    letters.count();
    let automaton = explore(alloc, exprs, &alphabet, steps)?;
    let classes = minimise(alloc, automaton)?;
    classes.is_lawful();
    Ok(classes)
}
