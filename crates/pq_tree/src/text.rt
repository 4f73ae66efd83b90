//! What a token is in a text, also where it does not lie in it.
ghost use Rattle.std.specs.Prelude.{◌≡◌};
ghost use Rattle.pq_tree.specs.Texts.{text_in, class_in_text};

use pq_grammar::{Class, class_of_text};
use pq_term::Token;

/// The token's bytes where it lies within the text, and none where it does not.
pub fn text_in<'a>(bytes: &'a [u8], token: &Token) -> &'a [u8]
    ensures { result.now ≡ text_in bytes.now token.now }
{
    if token.at > bytes.len() {
        return &[];
    }
    if token.len > bytes.len() - token.at {
        return &[];
    }
    token.text(bytes)
}

/// The class of a token of its kind with the token's text.
pub fn class_in_text(bytes: &[u8], token: &Token) -> Class
    ensures { result ≡ class_in_text bytes.now token.now }
{
    class_of_text(token.kind, text_in(bytes, token))
}
