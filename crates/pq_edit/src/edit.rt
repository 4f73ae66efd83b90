use pq_policy::Policy;
use pq_query::Query;
use pq_term::Name;

/// A change of one part or one query of a document. What is put takes the place of what has its name, and comes after all
/// others where nothing has.
#[derive(Debug, Drop)]
pub enum Edit {
    /// Put a part of a policy.
    PutPart(Name, Policy),
    /// Remove the part of this name.
    RemovePart(Name),
    /// Put a query.
    PutQuery(Name, Query),
    /// Remove the query of this name.
    RemoveQuery(Name),
}
