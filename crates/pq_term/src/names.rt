//! Reserved words, and names.
ghost use Rattle.std.specs.Prelude.{◌≡◌};
ghost use Rattle.pq_term.specs.Names.{is_reserved, is_name};

use crate::forms::is_word;

/// The words that the grammar reserves.
const RESERVED: [&[u8]; 27] = [
    b"switch",
    b"ports",
    b"limit",
    b"link",
    b"part",
    b"query",
    b"remove",
    b"true",
    b"false",
    b"not",
    b"and",
    b"or",
    b"filter",
    b"mod",
    b"fwd",
    b"flood",
    b"drop",
    b"identity",
    b"if",
    b"of",
    b"in_atom",
    b"out_atom",
    b"in_out_atom",
    b"in_group",
    b"out_group",
    b"in_out_group",
    b"end_atom",
];

/// Whether the word is one that the grammar reserves.
pub fn is_reserved(word: &[u8]) -> bool
    ensures { result ≡ is_reserved word.now }
{
    RESERVED.contains(&word)
}

/// Whether the text is a name: a word that is not reserved.
pub fn is_name(text: &[u8]) -> bool
    ensures { result ≡ is_name text.now }
{
    is_word(text) && !is_reserved(text)
}
