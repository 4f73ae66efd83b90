ghost use Rattle.std.specs.Prelude.{◌≡◌, ◌+◌, [], ◌∷◌, IfOk};
ghost use Rattle.pq_expr.specs.Word.{Word};
ghost use Rattle.pq_expr.specs.Expr.{expr_tree};
ghost use Rattle.pq_expr.specs.Language.{holds};
ghost use Rattle.pq_deriv.specs.Rests.{IsRest};
ghost use Rattle.pq_deriv.specs.State.{accepted};

use crate::ends::ends;
use crate::starts::start_rest;
use crate::steps::step_rest;
use pq_expr::{Expr, Side};
use pq_io::Steps;
use std::alloc::{AllocError, Global};
use std::marker::Model;
use std::rc::Rc;
use std::sync::ledger::Ledger;

/// What is left of an expression after a word: the expression, and its rest, whose parts follow the expression's shape.
///
/// Which words a state accepts is a function of these two alone. So equal states of one expression accept the same words.
/// The states that `start` and `step` give have rests of the expression, of which there are at most `most`.
#[derive(Drop)]
pub struct State {
    pub(crate) expr: Rc<Expr>,
    pub(crate) rest: Vec<u64>,
}

impl Model for State {
    ghost use Rattle.pq_deriv.specs.State.{StateValue};
    ghost use Rattle.pq_expr.specs.contracts.expr.Expr as exprs;
    ghost use Rattle.std.specs.Coded.{codes};

    ghost Value = { StateValue };

    ghost coded = { Prim.hlevel (codes, exprs.the_row.coded) };

    ghost view = { λ s. record { expr = s.expr.value; rest = s.rest.items } };
}

impl State {
    /// The numbers of the rest.
    pub fn rest(&self) -> &[u64]
        ensures { result.now ≡ self.now.rest }
    {
        &self.rest
    }
}

/// The state before any half step: it accepts the words of the expression.
pub fn start(alloc: Global, expr: &Expr) -> Result<State, AllocError>
    ensures expr { IfOk result (λ s. expr_tree s.expr ≡ expr_tree expr.now) }
    ensures accepted { IfOk result (λ s. (w : Word) → accepted s w ≡ holds (expr_tree expr.now) w) }
    ensures rest { IfOk result (λ s. IsRest (expr_tree s.expr) s.rest) }
{
    let rest = start_rest(alloc, expr)?;
    let copy = expr.copy(alloc)?;
    match Rc::new(alloc, copy) {
        Ok(shared) => Ok(State { expr: shared, rest }),
        Err(_) => Err(AllocError),
    }
}

/// The state after one half step more: a packet at this side, of which these predicates hold. It counts one step.
pub fn step<L: Ledger>(
    alloc: Global,
    state: &State,
    side: Side,
    signature: &[bool],
    steps: &mut Steps<L>,
) -> Result<State, AllocError>
    ensures expr { IfOk result (λ s. s.expr ≡ state.now.expr) }
    ensures accepted { IfOk result (λ s. (w : Word) → accepted s w ≡ accepted state.now (record { side = side; truth = signature.now } ∷ w)) }
    ensures rest { IfOk result (λ s. IsRest (expr_tree s.expr) s.rest) }
    ensures counted { steps.new ≡ steps.old + 1 }
{
    steps.tick();
    let rest = step_rest(alloc, &state.expr, &state.rest, side, signature)?;
    let expr = Rc::clone(&state.expr)?;
    Ok(State { expr, rest })
}

/// Whether the state accepts the empty word: whether the word that led here is one of the expression's.
pub fn accepts(state: &State) -> bool
    ensures { result ≡ accepted state.now [] }
{
    ends(&state.expr, &state.rest)
}
