//! The number of atoms of a query.
ghost use Rattle.std.specs.Prelude.{◌≤◌, ◌^◌, map};
ghost use Rattle.pq_query.specs.Query.{queries, query_tree};
ghost use Rattle.pq_query.specs.Atoms.{atoms, query_atoms};

use pq_query::Query;

/// The most atoms that are counted: 2^28.
pub const MOST: u32 = 0x1000_0000;

/// The number of atoms of a query, or a greater number than 2^28 where there are more.
#[cycle(counted)]
pub fn atom_count(query: &Query) -> u32
    ensures { result ≤ 2 ^ 28 → query_atoms (query_tree query.now) ≤ result }
{
    match query {
        Query::In(_, _) | Query::Out(_, _) | Query::InOut(_, _, _, _) | Query::End(_) => 1,
        Query::Cat(operands) | Query::Or(operands) | Query::And(operands) => atoms_of(operands),
        Query::Not(operand) | Query::Star(operand) => atom_count(operand),
    }
}

/// The number of atoms of the queries together, or a greater number than 2^28 where there are more.
#[cycle(counted)]
fn atoms_of(operands: &[Query]) -> u32
    ensures { result ≤ 2 ^ 28 → atoms (queries (map query_tree operands.now)) ≤ result }
{
    let mut count: u32 = 0;
    for query in operands {
        let room = MOST - count;
        let more = atom_count(query);
        if room < more {
            return MOST + 1;
        }
        count += more;
    }
    count
}
