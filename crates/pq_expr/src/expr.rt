/// A regular expression over half steps, whose atoms name predicates of a list by their places.
///
/// A lawful expression has no empty list of operands. Its words are words of half steps; in those that are of use, sides
/// alternate and begin with In.
#[derive(Debug, PartialEq, Eq, PartialOrd, Ord, Hash, Drop)]
pub enum Expr {
    /// No word.
    Nothing,
    /// The empty word.
    Empty,
    /// One half step In, of whose packet the predicate holds.
    In(u32),
    /// One half step Out, of whose packet the predicate holds.
    Out(u32),
    /// Words of the expressions, one after another, with nothing between them.
    Cat(Vec<Expr>),
    /// The words of any of the expressions.
    Or(Vec<Expr>),
    /// The words of all the expressions.
    And(Vec<Expr>),
    /// The words that the expression doesn't hold.
    Not(Box<Expr>),
    /// Any number of words of the expression, one after another.
    Star(Box<Expr>),
}
