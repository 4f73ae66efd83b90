//! What the tokens of a statement spell.
ghost use Rattle.std.specs.Prelude.{◌≡◌};
ghost use Rattle.pq_topo.specs.declared.fault.NameFault.TheVariants.{Name};
ghost use Rattle.pq_topo.specs.Statements.{number_in, begins_with};

use crate::fault::{NameFault, NameKind};
use pq_grammar::{Class, is_class};
use pq_term::{Token, number_value};
use pq_tree::{class_in_text, text_in};

/// The number that a token spells, and 0 where it spells none.
pub(crate) fn number_in(bytes: &[u8], token: &Token) -> u64
    ensures { result ≡ number_in bytes.now token.now }
{
    number_value(text_in(bytes, token)).unwrap_or(0)
}

/// Whether a statement with this head begins with the keyword.
pub(crate) fn begins_with(bytes: &[u8], class: Class, head: &Token) -> bool
    ensures { result ≡ begins_with bytes.now class head.now }
{
    is_class(class_in_text(bytes, head), class)
}

/// The fault of a token that breaks this rule.
pub(crate) fn fault(token: &Token, kind: NameKind) -> NameFault
    ensures { result ≡ Name token.now.at kind }
{
    NameFault::Name { at: token.at, kind }
}
