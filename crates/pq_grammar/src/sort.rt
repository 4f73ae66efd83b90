//! Sorts of phrases: the grammar's nonterminals.

/// A sort of phrase.
#[derive(Clone, Copy, Debug, PartialEq, Eq)]
pub enum Sort {
    /// A document: switches, links, parts, queries.
    Document,
    /// The switches of a document.
    Switches,
    /// Further ports of a switch.
    PortsMore,
    /// The limit of a switch, if any.
    LimitOption,
    /// The links of a document.
    Links,
    /// The parts of a document.
    Parts,
    /// The queries of a document.
    Queries,
    /// An edit: a part, a query, or the removal of one.
    Edit,
    /// What an edit removes.
    Removed,
    /// A predicate.
    Pred,
    /// What may follow the first operand of `or`.
    PredTail,
    /// Further operands of `or`.
    PredMore,
    /// Operands of `or`.
    Conj,
    /// What may follow the first operand of `and`.
    ConjTail,
    /// Further operands of `and`.
    ConjMore,
    /// An operand of `and`.
    Literal,
    /// A field that equals a value.
    Test,
    /// A field, as the head of what follows.
    Field,
    /// A value.
    Value,
    /// A policy.
    Policy,
    /// What may follow the first operand of `+`.
    PolicyTail,
    /// Further operands of `+`.
    PolicyMore,
    /// Operands of `+`.
    Steps,
    /// What may follow the first operand of `>>`.
    StepsTail,
    /// Further operands of `>>`.
    StepsMore,
    /// An operand of `>>`.
    Step,
    /// A set of paths.
    Paths,
    /// What may follow the first operand of `|`.
    PathsTail,
    /// Further operands of `|`.
    PathsMore,
    /// Operands of `|`.
    Both,
    /// What may follow the first operand of `&`.
    BothTail,
    /// Further operands of `&`.
    BothMore,
    /// Operands of `&`.
    Chain,
    /// What may follow the first operand of `^`.
    ChainTail,
    /// Further operands of `^`.
    ChainMore,
    /// An operand of `^`.
    Negation,
    /// The star after an atom or parentheses, if any.
    StarOption,
    /// An atom.
    Atom,
    /// Groups in brackets.
    Groups,
    /// The groups between brackets, if any.
    GroupsOption,
    /// Further groups.
    GroupsMore,
    /// A field and its values.
    Group,
    /// The values of a group, if any are stated.
    ValuesOption,
    /// Further values of a group.
    ValuesMore,
}
