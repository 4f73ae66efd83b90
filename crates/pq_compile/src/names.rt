//! The names of parts and of queries.
ghost use Rattle.std.specs.Prelude.{◌≡◌, ◌++◌, ◌∷◌, [], IfOk};
ghost use Rattle.pq_topo.specs.Naming.{IsAnswer};
ghost use Rattle.pq_compile.specs.Names.{keyword_at, name_at};

use indexmap::IndexSet;
use pq_pred::faulty;
use pq_term::{Name, Token};
use pq_topo::names::{add_name, has_name};
use pq_topo::{NameFault, NameKind};
use pq_tree::text_in;

/// Refuses the statement where this many others of its sort are before it already.
pub(crate) fn keyword_at(most: usize, count: usize, keyword: &Token) -> Result<Token, NameFault>
    ensures { IsAnswer (λ t. t) result (keyword_at most count keyword.now) }
{
    if most <= count {
        return Err(faulty(keyword, NameKind::Many));
    }
    Ok(*keyword)
}

/// The name that a token spells, which no earlier statement of the sort has.
pub(crate) fn name_at(
    bytes: &[u8],
    names: &mut IndexSet<Name>,
    token: &Token,
) -> Result<Name, NameFault>
    ensures name { IsAnswer (λ n. n) result (name_at bytes.now names.old.keys token.now) }
    ensures kept { IfOk result (λ name. names.new.keys ≡ names.old.keys ++ name ∷ []) }
{
    let Some(name) = Name::of(text_in(bytes, token)) else {
        return Err(faulty(token, NameKind::BadValue));
    };
    if has_name(names, &name) {
        return Err(faulty(token, NameKind::Doubled));
    }
    add_name(names, name)?;
    Ok(name)
}
