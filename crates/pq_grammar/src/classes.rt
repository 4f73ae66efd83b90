//! The classes of a text's tokens.
ghost use Rattle.std.specs.Prelude.{◌≡◌, ◌+◌, ◌≤◌, ◌↔◌, All, IfOk, length, map, false};
ghost use Rattle.pq_term.specs.Tokens.{text_of};
ghost use Rattle.pq_term.specs.Division.{LiesWithin};
ghost use Rattle.pq_term.specs.Names.{is_reserved};
ghost use Rattle.pq_grammar.specs.Classes.{class_in, class_of_text, class_of, kind_of, lexeme_of};

use crate::class::Class;
use crate::mark::Lexeme;
use pq_term::{Kind, Token};
use std::alloc::{AllocError, Global};

/// The reserved words.
const WORD_CLASSES: [(&[u8], Class); 27] = [
    (b"switch", Class::SwitchWord),
    (b"ports", Class::PortsWord),
    (b"limit", Class::LimitWord),
    (b"link", Class::LinkWord),
    (b"part", Class::PartWord),
    (b"query", Class::QueryWord),
    (b"remove", Class::RemoveWord),
    (b"true", Class::TrueWord),
    (b"false", Class::FalseWord),
    (b"not", Class::NotWord),
    (b"and", Class::AndWord),
    (b"or", Class::OrWord),
    (b"filter", Class::FilterWord),
    (b"mod", Class::ModWord),
    (b"fwd", Class::FwdWord),
    (b"flood", Class::FloodWord),
    (b"drop", Class::DropWord),
    (b"identity", Class::IdentityWord),
    (b"if", Class::IfWord),
    (b"of", Class::OfWord),
    (b"in_atom", Class::InAtom),
    (b"out_atom", Class::OutAtom),
    (b"in_out_atom", Class::InOutAtom),
    (b"in_group", Class::InGroup),
    (b"out_group", Class::OutGroup),
    (b"in_out_group", Class::InOutGroup),
    (b"end_atom", Class::EndAtom),
];

/// The symbols.
const SYMBOL_CLASSES: [(&[u8], Class); 14] = [
    (b"=", Class::Equals),
    (b";", Class::Semicolon),
    (b",", Class::Comma),
    (b"(", Class::Left),
    (b")", Class::Right),
    (b"[", Class::LeftBracket),
    (b"]", Class::RightBracket),
    (b"+", Class::Plus),
    (b">>", Class::Then),
    (b"^", Class::Caret),
    (b"|", Class::Bar),
    (b"&", Class::Ampersand),
    (b"~", Class::Tilde),
    (b"*", Class::Star),
];

/// The class of the text in a table, or else the other one.
fn class_in(table: &[(&[u8], Class)], other: Class, text: &[u8]) -> Class
    ensures { result ≡ class_in (map (λ e. (e.0.now, e.1)) table.now) other text.now }
{
    for (spelling, class) in table {
        if *spelling == text {
            return *class;
        }
    }
    other
}

/// The class of a token of the kind with this text.
pub fn class_of_text(kind: Kind, text: &[u8]) -> Class
    ensures { result ≡ class_of_text kind text.now }
{
    match kind {
        Kind::Word => class_in(&WORD_CLASSES, Class::Name, text),
        Kind::Number => Class::Number,
        Kind::Mac => Class::Mac,
        Kind::Ipv4 => Class::Ipv4,
        Kind::Ipv4Prefix => Class::Ipv4Prefix,
        Kind::Ipv6 => Class::Ipv6,
        Kind::Symbol => class_in(&SYMBOL_CLASSES, Class::Star, text),
    }
}

/// The class of a token of the text: which reserved word or symbol it is, or else its kind. A word is a name where it is
/// not reserved.
#[tactic(auto, using(crate::proofs::Classified::has_kind))]
pub fn class_of(bytes: &[u8], token: &Token) -> Class
    requires { token.now.at + token.now.len ≤ length bytes.now }
    ensures value { result ≡ class_of bytes.now token.now }
    ensures kind { kind_of result ≡ token.now.kind }
    ensures name { token.now.kind ≡ Kind.Word → ((result ≡ Class.Name) ↔ (is_reserved (text_of bytes.now token.now) ≡ false)) }
{
    class_of_text(token.kind, token.text(bytes))
}

/// The tokens of the text, each with its class.
pub fn lexemes_of(alloc: Global, bytes: &[u8], tokens: &[Token]) -> Result<Vec<Lexeme>, AllocError>
    requires { All (LiesWithin (length bytes.now)) tokens.now }
    ensures { IfOk result (λ lexemes. lexemes.items ≡ map (lexeme_of bytes.now) tokens.now) }
{
    let mut lexemes = Vec::new(alloc);
    for token in tokens {
        lexemes.push(Lexeme {
            class: class_of(bytes, token),
            token: *token,
        })?;
    }
    Ok(lexemes)
}
