//! What the next token tells of a phrase.
ghost use Rattle.std.specs.Prelude.{◌≡◌, ◌==◌, MatchBool};
ghost use Rattle.std.specs.Option.{option_map};
ghost use Rattle.pq_grammar.specs.Tables.{number};
ghost use Rattle.pq_grammar.specs.Ahead.{ahead, has, follows, may_begin, is_open, chosen};

use crate::class::{Class, is_class};
use crate::grammar::alternatives;
use crate::sort::Sort;
use crate::symbol::Symbol;
use crate::tables::{first, follow, may_be_empty};

/// Whether the next token is of the class.
#[tactic(auto, using(crate::proofs::Numbers::class_numbers, crate::proofs::Numbers::no_class))]
fn is_next(class: Class, next: Option<Class>) -> bool
    ensures { result ≡ (number class == ahead next) }
{
    match next {
        Some(other) => is_class(class, other),
        None => false,
    }
}

/// Whether the next token is of one of the classes.
fn is_among(classes: &[Class], next: Option<Class>) -> bool
    ensures { result ≡ has classes.now (ahead next) }
{
    classes.iter().any(|class| is_next(*class, next))
}

/// Whether the next token, or the end, may follow a phrase of the sort. The end always may.
#[tactic(auto, using(crate::proofs::Numbers::no_class))]
fn may_follow(sort: Sort, next: Option<Class>) -> bool
    ensures { result ≡ follows sort (ahead next) }
{
    match next {
        Some(_) => is_among(follow(sort), next),
        None => true,
    }
}

/// Whether the symbols may be before the next token, where `otherwise` tells whether that may follow them.
fn may_begin(otherwise: bool, symbols: &[Symbol], next: Option<Class>) -> bool
    ensures { result ≡ may_begin otherwise symbols.now (ahead next) }
{
    for symbol in symbols {
        match symbol {
            Symbol::Token(_, class) | Symbol::Opening(_, class) => return is_next(*class, next),
            Symbol::Leave | Symbol::Close => {}
            Symbol::Part(sort) => {
                if is_among(first(*sort), next) {
                    return true;
                }
                if !may_be_empty(*sort) {
                    return false;
                }
            }
        }
    }
    otherwise
}

/// Whether the alternative of the sort may be taken where this token is next.
fn is_open(sort: Sort, alternative: &[Symbol], next: Option<Class>) -> bool
    ensures { result ≡ is_open sort (ahead next) alternative.now }
{
    may_begin(may_follow(sort, next), alternative, next)
}

/// The alternative of the sort that is to be taken where this token is next, if there is one.
pub(crate) fn chosen(sort: Sort, next: Option<Class>) -> Option<&'static [Symbol]>
    ensures { option_map (λ a. a.now) result ≡ chosen sort (ahead next) }
{
    for alternative in alternatives(sort) {
        if is_open(sort, alternative, next) {
            return Some(alternative);
        }
    }
    None
}
