ghost use Rattle.std.specs.Prelude.{◌≡◌, ◌<◌, ◌≤◌, ◌+◌, ◌*◌, ◌^◌, length, map, sum, IfOk, OnOk};
ghost use Rattle.pq_expr.specs.Expr.{expr_tree, expr_trees, AreLawful};
ghost use Rattle.pq_deriv.specs.Most.{mosts, product};
ghost use Rattle.pq_auto.specs.Exploration.{IsExploration};
ghost use Rattle.pq_auto.specs.Telling.{TellEach};

use crate::automaton::Automaton;
use crate::product::product;
use crate::single::single;
use crate::table::Table;
use pq_expr::Expr;
use pq_io::Steps;
use std::alloc::{AllocError, Global};
use std::sync::ledger::Ledger;

/// The least automata of the expressions, in order. Each step of a state is counted.
fn singles<L: Ledger>(
    alloc: Global,
    exprs: &[Expr],
    alphabet: &[Vec<bool>],
    steps: &mut Steps<L>,
) -> Result<Vec<Table>, AllocError>
    ensures tables { IfOk result (λ ts. TellEach (map (λ v. v.items) alphabet.now) ts.items (map expr_tree exprs.now)) }
    ensures counted { OnOk result (AreLawful (expr_trees exprs.now) → steps.new ≤ steps.old + length alphabet.now * (2 * sum (mosts (expr_trees exprs.now)))) }
{
    let mut tables = Vec::with_capacity(alloc, exprs.len())?;
    for expr in exprs {
        tables.push(single(alloc, expr, alphabet, steps)?)?;
    }
    Ok(tables)
}

/// The automaton of expressions over an alphabet, whose letters say which predicates hold: all states that words over the
/// letters reach, for all expressions together.
///
/// There are fewer than 2^32 expressions, and at least one letter. Each step of a state is counted: one for each letter of each
/// state of each expression alone, and none is explored twice. Where no list of operands is empty, each expression has at
/// most `most` rests; there are at most twice as many states as these numbers make when they are multiplied, and at most
/// twice as many steps a letter as they make when they are added.
pub fn explore<L: Ledger>(
    alloc: Global,
    exprs: &[Expr],
    alphabet: &[Vec<bool>],
    steps: &mut Steps<L>,
) -> Result<Automaton, AllocError>
    requires exprs { length exprs.now < 2 ^ 32 }
    requires alphabet { 0 < length alphabet.now }
    ensures explored { IfOk result (λ a. IsExploration (map expr_tree exprs.now) (map (λ v. v.items) alphabet.now) a) }
    ensures few { IfOk result (λ a. AreLawful (expr_trees exprs.now) → length a.rows ≤ 2 * product (mosts (expr_trees exprs.now))) }
    ensures counted { OnOk result (AreLawful (expr_trees exprs.now) → steps.new ≤ steps.old + length alphabet.now * (2 * sum (mosts (expr_trees exprs.now)))) }
{
    let tables = singles(alloc, exprs, alphabet, steps)?;
    product(alloc, &tables, alphabet.len() as u64)
}
