//! The grammar, as data.
ghost use Rattle.std.specs.Prelude.{◌≡◌, map};
ghost use Rattle.pq_grammar.specs.Grammar.{alternatives};

use crate::class::Class;
use crate::sort::Sort;
use crate::symbol::Role::{Head, Lead, Leaf, Spelled};
use crate::symbol::Symbol::{self, Close, Leave, Opening, Part, Token};

/// The alternatives of each sort.
pub fn alternatives(sort: Sort) -> &'static [&'static [Symbol]]
    ensures { map (λ a. a.now) result.now ≡ alternatives sort }
{
    match sort {
        Sort::Document => &[&[
            Part(Sort::Switches),
            Part(Sort::Links),
            Part(Sort::Parts),
            Part(Sort::Queries),
        ]],
        Sort::Switches => &[
            &[],
            &[
                Token(Head, Class::SwitchWord),
                Token(Leaf, Class::Name),
                Token(Spelled, Class::Equals),
                Token(Leaf, Class::Number),
                Token(Head, Class::PortsWord),
                Token(Leaf, Class::Number),
                Part(Sort::PortsMore),
                Close,
                Part(Sort::LimitOption),
                Token(Spelled, Class::Semicolon),
                Close,
                Part(Sort::Switches),
            ],
        ],
        Sort::PortsMore => &[
            &[],
            &[
                Token(Spelled, Class::Comma),
                Token(Leaf, Class::Number),
                Part(Sort::PortsMore),
            ],
        ],
        Sort::LimitOption => &[
            &[],
            &[
                Token(Head, Class::LimitWord),
                Token(Leaf, Class::Number),
                Close,
            ],
        ],
        Sort::Links => &[
            &[],
            &[
                Token(Head, Class::LinkWord),
                Token(Leaf, Class::Name),
                Token(Leaf, Class::Number),
                Token(Leaf, Class::Name),
                Token(Leaf, Class::Number),
                Token(Spelled, Class::Semicolon),
                Close,
                Part(Sort::Links),
            ],
        ],
        Sort::Parts => &[
            &[],
            &[
                Token(Head, Class::PartWord),
                Token(Leaf, Class::Name),
                Token(Spelled, Class::Equals),
                Part(Sort::Policy),
                Token(Spelled, Class::Semicolon),
                Close,
                Part(Sort::Parts),
            ],
        ],
        Sort::Queries => &[
            &[],
            &[
                Token(Head, Class::QueryWord),
                Token(Leaf, Class::Name),
                Token(Spelled, Class::Equals),
                Part(Sort::Paths),
                Token(Spelled, Class::Semicolon),
                Close,
                Part(Sort::Queries),
            ],
        ],
        Sort::Edit => &[
            &[
                Token(Head, Class::PartWord),
                Token(Leaf, Class::Name),
                Token(Spelled, Class::Equals),
                Part(Sort::Policy),
                Token(Spelled, Class::Semicolon),
                Close,
            ],
            &[
                Token(Head, Class::QueryWord),
                Token(Leaf, Class::Name),
                Token(Spelled, Class::Equals),
                Part(Sort::Paths),
                Token(Spelled, Class::Semicolon),
                Close,
            ],
            &[
                Token(Head, Class::RemoveWord),
                Part(Sort::Removed),
                Token(Spelled, Class::Semicolon),
                Close,
            ],
        ],
        Sort::Removed => &[
            &[
                Token(Head, Class::PartWord),
                Token(Leaf, Class::Name),
                Close,
            ],
            &[
                Token(Head, Class::QueryWord),
                Token(Leaf, Class::Name),
                Close,
            ],
        ],
        Sort::Pred => &[&[Part(Sort::Conj), Part(Sort::PredTail)]],
        Sort::PredTail => &[
            &[],
            &[
                Token(Lead, Class::OrWord),
                Part(Sort::Conj),
                Part(Sort::PredMore),
                Close,
            ],
        ],
        Sort::PredMore => &[
            &[],
            &[
                Token(Spelled, Class::OrWord),
                Part(Sort::Conj),
                Part(Sort::PredMore),
            ],
        ],
        Sort::Conj => &[&[Part(Sort::Literal), Part(Sort::ConjTail)]],
        Sort::ConjTail => &[
            &[],
            &[
                Token(Lead, Class::AndWord),
                Part(Sort::Literal),
                Part(Sort::ConjMore),
                Close,
            ],
        ],
        Sort::ConjMore => &[
            &[],
            &[
                Token(Spelled, Class::AndWord),
                Part(Sort::Literal),
                Part(Sort::ConjMore),
            ],
        ],
        Sort::Literal => &[
            &[
                Opening(Head, Class::NotWord),
                Part(Sort::Literal),
                Close,
                Leave,
            ],
            &[Token(Leaf, Class::TrueWord)],
            &[Token(Leaf, Class::FalseWord)],
            &[Part(Sort::Test)],
            &[
                Opening(Spelled, Class::Left),
                Part(Sort::Pred),
                Token(Spelled, Class::Right),
                Leave,
            ],
        ],
        Sort::Test => &[&[
            Part(Sort::Field),
            Token(Spelled, Class::Equals),
            Part(Sort::Value),
            Close,
        ]],
        Sort::Field => &[
            &[Token(Head, Class::SwitchWord)],
            &[Token(Head, Class::Name)],
        ],
        Sort::Value => &[
            &[Token(Leaf, Class::Number)],
            &[Token(Leaf, Class::Mac)],
            &[Token(Leaf, Class::Ipv4)],
            &[Token(Leaf, Class::Ipv4Prefix)],
            &[Token(Leaf, Class::Ipv6)],
            &[Token(Leaf, Class::Name)],
        ],
        Sort::Policy => &[&[Part(Sort::Steps), Part(Sort::PolicyTail)]],
        Sort::PolicyTail => &[
            &[],
            &[
                Token(Lead, Class::Plus),
                Part(Sort::Steps),
                Part(Sort::PolicyMore),
                Close,
            ],
        ],
        Sort::PolicyMore => &[
            &[],
            &[
                Token(Spelled, Class::Plus),
                Part(Sort::Steps),
                Part(Sort::PolicyMore),
            ],
        ],
        Sort::Steps => &[&[Part(Sort::Step), Part(Sort::StepsTail)]],
        Sort::StepsTail => &[
            &[],
            &[
                Token(Lead, Class::Then),
                Part(Sort::Step),
                Part(Sort::StepsMore),
                Close,
            ],
        ],
        Sort::StepsMore => &[
            &[],
            &[
                Token(Spelled, Class::Then),
                Part(Sort::Step),
                Part(Sort::StepsMore),
            ],
        ],
        Sort::Step => &[
            &[Token(Leaf, Class::IdentityWord)],
            &[Token(Leaf, Class::DropWord)],
            &[Token(Leaf, Class::FloodWord)],
            &[
                Token(Head, Class::FilterWord),
                Opening(Spelled, Class::Left),
                Part(Sort::Pred),
                Token(Spelled, Class::Right),
                Leave,
                Close,
            ],
            &[
                Token(Head, Class::ModWord),
                Opening(Spelled, Class::Left),
                Part(Sort::Test),
                Token(Spelled, Class::Right),
                Leave,
                Close,
            ],
            &[
                Token(Head, Class::FwdWord),
                Opening(Spelled, Class::Left),
                Token(Leaf, Class::Number),
                Token(Spelled, Class::Right),
                Leave,
                Close,
            ],
            &[
                Token(Head, Class::IfWord),
                Opening(Spelled, Class::Left),
                Part(Sort::Pred),
                Token(Spelled, Class::Comma),
                Part(Sort::Policy),
                Token(Spelled, Class::Comma),
                Part(Sort::Policy),
                Token(Spelled, Class::Right),
                Leave,
                Close,
            ],
            &[
                Opening(Spelled, Class::Left),
                Part(Sort::Policy),
                Token(Spelled, Class::Right),
                Leave,
            ],
        ],
        Sort::Paths => &[&[Part(Sort::Both), Part(Sort::PathsTail)]],
        Sort::PathsTail => &[
            &[],
            &[
                Token(Lead, Class::Bar),
                Part(Sort::Both),
                Part(Sort::PathsMore),
                Close,
            ],
        ],
        Sort::PathsMore => &[
            &[],
            &[
                Token(Spelled, Class::Bar),
                Part(Sort::Both),
                Part(Sort::PathsMore),
            ],
        ],
        Sort::Both => &[&[Part(Sort::Chain), Part(Sort::BothTail)]],
        Sort::BothTail => &[
            &[],
            &[
                Token(Lead, Class::Ampersand),
                Part(Sort::Chain),
                Part(Sort::BothMore),
                Close,
            ],
        ],
        Sort::BothMore => &[
            &[],
            &[
                Token(Spelled, Class::Ampersand),
                Part(Sort::Chain),
                Part(Sort::BothMore),
            ],
        ],
        Sort::Chain => &[&[Part(Sort::Negation), Part(Sort::ChainTail)]],
        Sort::ChainTail => &[
            &[],
            &[
                Token(Lead, Class::Caret),
                Part(Sort::Negation),
                Part(Sort::ChainMore),
                Close,
            ],
        ],
        Sort::ChainMore => &[
            &[],
            &[
                Token(Spelled, Class::Caret),
                Part(Sort::Negation),
                Part(Sort::ChainMore),
            ],
        ],
        Sort::Negation => &[
            &[
                Opening(Head, Class::Tilde),
                Part(Sort::Negation),
                Close,
                Leave,
            ],
            &[Part(Sort::Atom), Part(Sort::StarOption)],
            &[
                Opening(Spelled, Class::Left),
                Part(Sort::Paths),
                Token(Spelled, Class::Right),
                Leave,
                Part(Sort::StarOption),
            ],
        ],
        Sort::StarOption => &[&[], &[Token(Lead, Class::Star), Close]],
        Sort::Atom => &[
            &[
                Token(Head, Class::InAtom),
                Opening(Spelled, Class::Left),
                Part(Sort::Pred),
                Token(Spelled, Class::Right),
                Leave,
                Close,
            ],
            &[
                Token(Head, Class::OutAtom),
                Opening(Spelled, Class::Left),
                Part(Sort::Pred),
                Token(Spelled, Class::Right),
                Leave,
                Close,
            ],
            &[
                Token(Head, Class::EndAtom),
                Opening(Spelled, Class::Left),
                Part(Sort::Pred),
                Token(Spelled, Class::Right),
                Leave,
                Close,
            ],
            &[
                Token(Head, Class::InOutAtom),
                Opening(Spelled, Class::Left),
                Part(Sort::Pred),
                Token(Spelled, Class::Comma),
                Part(Sort::Pred),
                Token(Spelled, Class::Right),
                Leave,
                Close,
            ],
            &[
                Token(Head, Class::InGroup),
                Opening(Spelled, Class::Left),
                Part(Sort::Pred),
                Token(Spelled, Class::Comma),
                Part(Sort::Groups),
                Token(Spelled, Class::Right),
                Leave,
                Close,
            ],
            &[
                Token(Head, Class::OutGroup),
                Opening(Spelled, Class::Left),
                Part(Sort::Pred),
                Token(Spelled, Class::Comma),
                Part(Sort::Groups),
                Token(Spelled, Class::Right),
                Leave,
                Close,
            ],
            &[
                Token(Head, Class::InOutGroup),
                Opening(Spelled, Class::Left),
                Part(Sort::Pred),
                Token(Spelled, Class::Comma),
                Part(Sort::Groups),
                Token(Spelled, Class::Comma),
                Part(Sort::Pred),
                Token(Spelled, Class::Comma),
                Part(Sort::Groups),
                Token(Spelled, Class::Right),
                Leave,
                Close,
            ],
        ],
        Sort::Groups => &[&[
            Opening(Head, Class::LeftBracket),
            Part(Sort::GroupsOption),
            Token(Spelled, Class::RightBracket),
            Close,
            Leave,
        ]],
        Sort::GroupsOption => &[&[], &[Part(Sort::Group), Part(Sort::GroupsMore)]],
        Sort::GroupsMore => &[
            &[],
            &[
                Token(Spelled, Class::Comma),
                Part(Sort::Group),
                Part(Sort::GroupsMore),
            ],
        ],
        Sort::Group => &[&[Part(Sort::Field), Part(Sort::ValuesOption), Close]],
        Sort::ValuesOption => &[
            &[],
            &[
                Token(Spelled, Class::OfWord),
                Opening(Spelled, Class::Left),
                Part(Sort::Value),
                Part(Sort::ValuesMore),
                Token(Spelled, Class::Right),
                Leave,
            ],
        ],
        Sort::ValuesMore => &[
            &[],
            &[
                Token(Spelled, Class::Comma),
                Part(Sort::Value),
                Part(Sort::ValuesMore),
            ],
        ],
    }
}
