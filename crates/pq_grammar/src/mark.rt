//! A sentence and its tree, in one list.
use crate::class::Class;
use crate::symbol::Role;
use pq_term::Token;

/// A token, with its class.
#[derive(Clone, Copy, Debug, PartialEq, Eq)]
pub struct Lexeme {
    /// What the grammar tells of it.
    pub class: Class,
    /// Its kind, and where its bytes are.
    pub token: Token,
}

/// A token of a sentence, or the end of a tree.
#[derive(Clone, Copy, Debug, PartialEq, Eq)]
pub enum Mark {
    /// A token, what it is in the tree, and the number of brackets that are open at it, its own among them.
    Token(Role, Lexeme, usize),
    /// The tree whose head was read last, of those that have no end yet, ends.
    Close,
}
