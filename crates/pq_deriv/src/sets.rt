//! Sets of rests, that ascend.
ghost use Rattle.std.specs.Prelude.{◌≡◌, Bool, ℕ, List, ◌||◌, map, IfOk, OnOk};
ghost use Rattle.std.specs.List.{list_any};
ghost use Rattle.pq_expr.specs.Word.{Word};
ghost use Rattle.pq_expr.specs.Expr.{expr_tree};
ghost use Rattle.pq_expr.specs.Language.{Language, joined};
ghost use Rattle.pq_deriv.specs.Parts.{set_of};
ghost use Rattle.pq_deriv.specs.Left.{left, set_left};
ghost use Rattle.pq_deriv.specs.Choices.{IsOneOf};
ghost use Rattle.pq_deriv.specs.Rests.{AreMembers};

use crate::dead::is_dead;
use crate::parts::push_part;
use pq_expr::Expr;
use std::alloc::{AllocError, Global};

/// Puts the rest into the set, unless it is dead. No rest is put twice.
pub(crate) fn put(expr: &Expr, set: &mut Vec<Vec<u64>>, rest: Vec<u64>) -> Result<(), AllocError>
    ensures left { OnOk result ((P : Language) (w : Word)
        → set_left (left (expr_tree expr.now)) P (map (λ r. r.items) set.new.items) w
        ≡ (joined (left (expr_tree expr.now) rest.items) P w
        || set_left (left (expr_tree expr.now)) P (map (λ r. r.items) set.old.items) w)) }
    ensures members { OnOk result ((U : List (List ℕ)) → IsOneOf U rest.items → AreMembers U (map (λ r. r.items) set.old.items)
        → AreMembers U (map (λ r. r.items) set.new.items)) }
{
    if is_dead(expr, &rest) {
        return Ok(());
    }
    insert(set, rest)
}

/// Inserts the rest at its place by order, unless the set has it.
fn insert(set: &mut Vec<Vec<u64>>, rest: Vec<u64>) -> Result<(), AllocError>
    ensures tests { OnOk result ((t : List ℕ → Bool)
        → list_any t (map (λ r. r.items) set.new.items) ≡ (t rest.items || list_any t (map (λ r. r.items) set.old.items))) }
    ensures members { OnOk result ((U : List (List ℕ)) → IsOneOf U rest.items → AreMembers U (map (λ r. r.items) set.old.items)
        → AreMembers U (map (λ r. r.items) set.new.items)) }
{
    let place = match set.binary_search(&rest) {
        Ok(_) => return Ok(()),
        Err(place) => place,
    };
    set.insert(place, rest)?;
    Ok(())
}

/// The set as numbers.
pub(crate) fn spell_set(alloc: Global, set: &[Vec<u64>]) -> Result<Vec<u64>, AllocError>
    ensures { IfOk result (λ r. r.items ≡ set_of (map (λ r. r.items) set.now)) }
{
    let mut out = Vec::new(alloc);
    if set.is_empty() {
        return Ok(out);
    }
    out.push(set.len() as u64)?;
    for rest in set {
        push_part(&mut out, rest)?;
    }
    Ok(out)
}
