//! The names of queries.
ghost use Rattle.std.specs.Prelude.{All, IsTrue};
ghost use Rattle.pq_term.specs.Names.{is_name};

use pq_term::Name;

/// Each of them is a name. It does nothing.
pub(crate) fn are_names(names: &[Name])
    ensures { All (λ name. IsTrue (is_name name)) names.now }
{
    for name in names {
        name.bytes();
    }
}
