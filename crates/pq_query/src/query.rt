use crate::group::Group;
use pq_fields::Pred;

/// A query: which words of observations it asks for.
///
/// A lawful query has lawful predicates and groups, and no empty list of operands.
#[derive(Debug, Drop)]
pub enum Query {
    /// The words In x where the predicate holds of x.
    In(Pred, Vec<Group>),
    /// The words In x, Out y where the predicate holds of y and y is at a port other than 0.
    Out(Pred, Vec<Group>),
    /// The words In x, Out y where the first predicate holds of x, the second one of y, and y is at a port other than 0.
    InOut(Pred, Vec<Group>, Pred, Vec<Group>),
    /// The words In x, Out y where the predicate holds of x and y is at port 0.
    End(Pred),
    /// Words of the queries, one after another, joined.
    Cat(Vec<Query>),
    /// The words of any of the queries.
    Or(Vec<Query>),
    /// The words of all the queries.
    And(Vec<Query>),
    /// The words that the query doesn't hold.
    Not(Box<Query>),
    /// Any number of words of the query, joined.
    Star(Box<Query>),
}
