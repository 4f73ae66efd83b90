//! A sentence as a tree.
use pq_term::Token;

/// A tree: its head, and its children in text order. The heads of trees with children are keywords, operators (`or`,
/// `and`, `+`, `>>`, `|`, `&`, `^`), `not`, `~`, `*`, `[` and fields; all other tokens are leaves, or no part of a tree.
#[derive(Clone, Copy)]
pub struct Term<'a> {
    /// The token at the top.
    pub head: Token,
    /// The trees below it.
    pub children: &'a [Term<'a>],
}
