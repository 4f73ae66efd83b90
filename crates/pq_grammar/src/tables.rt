//! What may be at the front of a phrase of each sort, and after it.
ghost use Rattle.std.specs.Prelude.{◌≡◌};
ghost use Rattle.pq_grammar.specs.Tables.{first, follow, may_be_empty};

use crate::class::Class;
use crate::sort::Sort;

/// Whether a phrase of the sort may have no token.
pub(crate) fn may_be_empty(sort: Sort) -> bool
    ensures { result ≡ may_be_empty sort }
{
    matches!(
        sort,
        Sort::Document
            | Sort::Switches
            | Sort::PortsMore
            | Sort::LimitOption
            | Sort::Links
            | Sort::Parts
            | Sort::Queries
            | Sort::PredTail
            | Sort::PredMore
            | Sort::ConjTail
            | Sort::ConjMore
            | Sort::PolicyTail
            | Sort::PolicyMore
            | Sort::StepsTail
            | Sort::StepsMore
            | Sort::PathsTail
            | Sort::PathsMore
            | Sort::BothTail
            | Sort::BothMore
            | Sort::ChainTail
            | Sort::ChainMore
            | Sort::StarOption
            | Sort::GroupsOption
            | Sort::GroupsMore
            | Sort::ValuesOption
            | Sort::ValuesMore
    )
}

/// The classes of the tokens that a phrase of the sort may begin with.
pub(crate) fn first(sort: Sort) -> &'static [Class]
    ensures { result.now ≡ first sort }
{
    match sort {
        Sort::Document => &[
            Class::SwitchWord,
            Class::LinkWord,
            Class::PartWord,
            Class::QueryWord,
        ],
        Sort::Switches => &[Class::SwitchWord],
        Sort::PortsMore | Sort::GroupsMore | Sort::ValuesMore => &[Class::Comma],
        Sort::LimitOption => &[Class::LimitWord],
        Sort::Links => &[Class::LinkWord],
        Sort::Parts => &[Class::PartWord],
        Sort::Queries => &[Class::QueryWord],
        Sort::Edit => &[Class::PartWord, Class::QueryWord, Class::RemoveWord],
        Sort::Removed => &[Class::PartWord, Class::QueryWord],
        Sort::Pred | Sort::Conj | Sort::Literal => &[
            Class::SwitchWord,
            Class::TrueWord,
            Class::FalseWord,
            Class::NotWord,
            Class::Name,
            Class::Left,
        ],
        Sort::PredTail | Sort::PredMore => &[Class::OrWord],
        Sort::ConjTail | Sort::ConjMore => &[Class::AndWord],
        Sort::Test | Sort::Field | Sort::GroupsOption | Sort::Group => &[
            Class::SwitchWord,
            Class::Name,
        ],
        Sort::Value => &[
            Class::Name,
            Class::Number,
            Class::Mac,
            Class::Ipv4,
            Class::Ipv4Prefix,
            Class::Ipv6,
        ],
        Sort::Policy | Sort::Steps | Sort::Step => &[
            Class::FilterWord,
            Class::ModWord,
            Class::FwdWord,
            Class::FloodWord,
            Class::DropWord,
            Class::IdentityWord,
            Class::IfWord,
            Class::Left,
        ],
        Sort::PolicyTail | Sort::PolicyMore => &[Class::Plus],
        Sort::StepsTail | Sort::StepsMore => &[Class::Then],
        Sort::Paths | Sort::Both | Sort::Chain | Sort::Negation => &[
            Class::InAtom,
            Class::OutAtom,
            Class::InOutAtom,
            Class::InGroup,
            Class::OutGroup,
            Class::InOutGroup,
            Class::EndAtom,
            Class::Left,
            Class::Tilde,
        ],
        Sort::PathsTail | Sort::PathsMore => &[Class::Bar],
        Sort::BothTail | Sort::BothMore => &[Class::Ampersand],
        Sort::ChainTail | Sort::ChainMore => &[Class::Caret],
        Sort::StarOption => &[Class::Star],
        Sort::Atom => &[
            Class::InAtom,
            Class::OutAtom,
            Class::InOutAtom,
            Class::InGroup,
            Class::OutGroup,
            Class::InOutGroup,
            Class::EndAtom,
        ],
        Sort::Groups => &[Class::LeftBracket],
        Sort::ValuesOption => &[Class::OfWord],
    }
}

/// The classes of the tokens that may follow a phrase of the sort.
pub(crate) fn follow(sort: Sort) -> &'static [Class]
    ensures { result.now ≡ follow sort }
{
    match sort {
        Sort::Document | Sort::Queries | Sort::Edit => &[],
        Sort::Switches => &[Class::LinkWord, Class::PartWord, Class::QueryWord],
        Sort::PortsMore => &[Class::LimitWord, Class::Semicolon],
        Sort::LimitOption | Sort::Removed => &[Class::Semicolon],
        Sort::Links => &[Class::PartWord, Class::QueryWord],
        Sort::Parts => &[Class::QueryWord],
        Sort::Pred | Sort::PredTail | Sort::PredMore | Sort::Groups => &[
            Class::Comma,
            Class::Right,
        ],
        Sort::Conj | Sort::ConjTail | Sort::ConjMore => &[
            Class::OrWord,
            Class::Comma,
            Class::Right,
        ],
        Sort::Literal | Sort::Test | Sort::Value => &[
            Class::AndWord,
            Class::OrWord,
            Class::Comma,
            Class::Right,
        ],
        Sort::Field => &[
            Class::OfWord,
            Class::Equals,
            Class::Comma,
            Class::RightBracket,
        ],
        Sort::Policy | Sort::PolicyTail | Sort::PolicyMore => &[
            Class::Semicolon,
            Class::Comma,
            Class::Right,
        ],
        Sort::Steps | Sort::StepsTail | Sort::StepsMore => &[
            Class::Semicolon,
            Class::Comma,
            Class::Right,
            Class::Plus,
        ],
        Sort::Step => &[
            Class::Semicolon,
            Class::Comma,
            Class::Right,
            Class::Plus,
            Class::Then,
        ],
        Sort::Paths | Sort::PathsTail | Sort::PathsMore => &[Class::Semicolon, Class::Right],
        Sort::Both | Sort::BothTail | Sort::BothMore => &[
            Class::Semicolon,
            Class::Right,
            Class::Bar,
        ],
        Sort::Chain | Sort::ChainTail | Sort::ChainMore => &[
            Class::Semicolon,
            Class::Right,
            Class::Bar,
            Class::Ampersand,
        ],
        Sort::Negation | Sort::StarOption => &[
            Class::Semicolon,
            Class::Right,
            Class::Caret,
            Class::Bar,
            Class::Ampersand,
        ],
        Sort::Atom => &[
            Class::Semicolon,
            Class::Right,
            Class::Caret,
            Class::Bar,
            Class::Ampersand,
            Class::Star,
        ],
        Sort::GroupsOption | Sort::GroupsMore => &[Class::RightBracket],
        Sort::Group | Sort::ValuesOption => &[Class::Comma, Class::RightBracket],
        Sort::ValuesMore => &[Class::Right],
    }
}
