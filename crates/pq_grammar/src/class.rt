//! Classes of tokens.
ghost use Rattle.std.specs.Prelude.{◌≡◌, MatchBool};
ghost use Rattle.pq_grammar.specs.Tables.{is_class};

/// What the grammar tells of a token: which reserved word or symbol it is, or else its kind.
#[derive(Clone, Copy, Debug, PartialEq, Eq)]
pub enum Class {
    /// `switch`
    SwitchWord,
    /// `ports`
    PortsWord,
    /// `limit`
    LimitWord,
    /// `link`
    LinkWord,
    /// `part`
    PartWord,
    /// `query`
    QueryWord,
    /// `remove`
    RemoveWord,
    /// `true`
    TrueWord,
    /// `false`
    FalseWord,
    /// `not`
    NotWord,
    /// `and`
    AndWord,
    /// `or`
    OrWord,
    /// `filter`
    FilterWord,
    /// `mod`
    ModWord,
    /// `fwd`
    FwdWord,
    /// `flood`
    FloodWord,
    /// `drop`
    DropWord,
    /// `identity`
    IdentityWord,
    /// `if`
    IfWord,
    /// `of`
    OfWord,
    /// `in_atom`
    InAtom,
    /// `out_atom`
    OutAtom,
    /// `in_out_atom`
    InOutAtom,
    /// `in_group`
    InGroup,
    /// `out_group`
    OutGroup,
    /// `in_out_group`
    InOutGroup,
    /// `end_atom`
    EndAtom,
    /// A word that is not reserved.
    Name,
    /// A number.
    Number,
    /// A MAC address.
    Mac,
    /// An IPv4 address.
    Ipv4,
    /// An IPv4 address and the length of its prefix.
    Ipv4Prefix,
    /// An IPv6 address, with or without the length of its prefix.
    Ipv6,
    /// `=`
    Equals,
    /// `;`
    Semicolon,
    /// `,`
    Comma,
    /// `(`
    Left,
    /// `)`
    Right,
    /// `[`
    LeftBracket,
    /// `]`
    RightBracket,
    /// `+`
    Plus,
    /// `>>`
    Then,
    /// `^`
    Caret,
    /// `|`
    Bar,
    /// `&`
    Ampersand,
    /// `~`
    Tilde,
    /// `*`
    Star,
}

/// Whether the two classes are one.
pub fn is_class(class: Class, other: Class) -> bool
    ensures same { MatchBool result (class ≡ other) (class ≡ other → ⊥) }
    ensures number { result ≡ is_class class other }
{
    class == other
}
