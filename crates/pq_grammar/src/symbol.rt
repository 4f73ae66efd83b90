//! What the grammar's alternatives consist of.
use crate::class::Class;
use crate::sort::Sort;

/// What a token is in the tree of its sentence.
#[derive(Clone, Copy, Debug, PartialEq, Eq)]
pub enum Role {
    /// A tree with no children.
    Leaf,
    /// No tree: the token is only spelled.
    Spelled,
    /// The head of a tree whose children are the trees up to the `Close` that belongs to it.
    Head,
    /// The head of such a tree whose first child is the tree that is last before the token.
    Lead,
}

/// A symbol of an alternative.
#[derive(Clone, Copy, Debug, PartialEq, Eq)]
pub enum Symbol {
    /// A token of this class.
    Token(Role, Class),
    /// A token of this class that opens a bracket: `(`, `[`, `not` or `~`.
    Opening(Role, Class),
    /// The bracket that was opened last is no longer open.
    Leave,
    /// The tree whose head was read last, of those that have no end yet, ends.
    Close,
    /// A phrase of this sort.
    Part(Sort),
}
