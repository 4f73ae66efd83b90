//! The parser.
ghost use Rattle.std.specs.Prelude.{◌≡◌, ◌+◌, ◌<◌, ◌≤◌, List, ◌∷◌, ◌++◌, length, drop, IfOk, IfErr, OnOk, reverse};
ghost use Rattle.pq_grammar.specs.Sentences.{IsSentence, IsCause};
ghost use Rattle.pq_grammar.specs.Ahead.{next_class, pending};
ghost use Rattle.pq_grammar.specs.Reading.{IsAt, HasPassed, IsExpected, IsComing};

use crate::ahead::chosen;
use crate::class::{Class, is_class};
use crate::fault::SentenceFault;
use crate::mark::{Lexeme, Mark};
use crate::sort::Sort;
use crate::symbol::{Role, Symbol};
use std::alloc::{AllocError, Global};

/// How many brackets may be open at once.
const MOST_OPEN: usize = 100;

/// The reading of a sentence, at a place.
#[derive(Drop)]
pub(crate) struct Parser {
    /// The sort of the sentence.
    start: Sort,
    /// The symbols that are still to come, the next one last.
    stack: Vec<Symbol>,
    /// What was read so far.
    marks: Vec<Mark>,
    /// The index of the next token.
    at: usize,
    /// The number of brackets that are open.
    depth: usize,
}

/// A token that is expected.
#[derive(Clone, Copy)]
pub(crate) struct Expected {
    role: Role,
    class: Class,
    /// The number of brackets that are open at the token, its own among them.
    depth: usize,
}

/// Pushes the symbols, the first one last.
fn push_reversed(stack: &mut Vec<Symbol>, symbols: &[Symbol]) -> Result<(), SentenceFault>
    ensures err { IfErr result (λ e. e ≡ SentenceFault.Memory) }
    ensures items { OnOk result (stack.new.items ≡ stack.old.items ++ reverse symbols.now) }
{
    for symbol in symbols.iter().rev() {
        stack.push(*symbol).map_err(|_| SentenceFault::Memory)?;
    }
    Ok(())
}

impl Parser {
    /// The reading of a sentence of the sort, before its first token.
    fn begin(alloc: Global, start: Sort) -> Result<Parser, AllocError>
        ensures place { IfOk result (λ p. (xs : List Lexeme) → IsAt xs p (reverse p.stack.items)) }
        ensures start { IfOk result (λ p. p.start ≡ start) }
    {
        let mut stack = Vec::new(alloc);
        stack.push(Symbol::Part(start))?;
        Ok(Parser {
            start,
            stack,
            marks: Vec::new(alloc),
            at: 0,
            depth: 0,
        })
    }

    /// The class of the next token, if there is one.
    fn next_class(&self, lexemes: &[Lexeme]) -> Option<Class>
        ensures { result ≡ next_class (drop self.now.at lexemes.now) }
    {
        match lexemes.get(self.at) {
            Some(lexeme) => Some(lexeme.class),
            None => None,
        }
    }

    /// Puts an alternative of the sort, which was taken off the stack, in its place.
    fn expand(&mut self, lexemes: &[Lexeme], sort: Sort) -> Result<(), SentenceFault>
        requires { IsAt lexemes.now self.old (Symbol.Part sort ∷ reverse self.old.stack.items) }
        ensures place { OnOk result (IsAt lexemes.now self.new (reverse self.new.stack.items)) }
        ensures falls { OnOk result (pending (reverse self.new.stack.items) < pending (Symbol.Part sort ∷ reverse self.old.stack.items)) }
        ensures at { OnOk result (self.new.at ≡ self.old.at) }
        ensures start { OnOk result (self.new.start ≡ self.old.start) }
        ensures err { IfErr result (IsCause self.old.start lexemes.now) }
    {
        let Some(alternative) = chosen(sort, self.next_class(lexemes)) else {
            return Err(SentenceFault::Syntax { index: self.at });
        };
        push_reversed(&mut self.stack, alternative)?;
        Ok(())
    }

    /// Works off a symbol that was taken off the stack. Where it is read as a token, that is the one that is expected,
    /// and nothing is done.
    fn pass(
        &mut self,
        lexemes: &[Lexeme],
        symbol: Symbol,
    ) -> Result<Option<Expected>, SentenceFault>
        requires { IsAt lexemes.now self.old (symbol ∷ reverse self.old.stack.items) }
        ensures place { IfOk result (λ e. HasPassed lexemes.now symbol self.old self.new e) }
        ensures err { IfErr result (IsCause self.old.start lexemes.now) }
    {
        match symbol {
            Symbol::Token(role, class) => Ok(Some(Expected {
                role,
                class,
                depth: self.depth,
            })),
            Symbol::Opening(role, class) => Ok(Some(Expected {
                role,
                class,
                depth: self.depth + 1,
            })),
            Symbol::Leave => {
                self.depth = self.depth.saturating_sub(1);
                Ok(None)
            }
            Symbol::Close => {
                self.marks
                    .push(Mark::Close)
                    .map_err(|_| SentenceFault::Memory)?;
                Ok(None)
            }
            Symbol::Part(sort) => {
                self.expand(lexemes, sort)?;
                Ok(None)
            }
        }
    }

    /// Goes on to the next token that is expected, if any.
    fn advance(&mut self, lexemes: &[Lexeme]) -> Result<Option<Expected>, SentenceFault>
        requires { IsAt lexemes.now self.old (reverse self.old.stack.items) }
        ensures place { IfOk result (λ e. IsExpected lexemes.now self.old self.new e) }
        ensures err { IfErr result (IsCause self.old.start lexemes.now) }
    {
        while let Some(symbol) = self.stack.pop() {
            if let Some(expected) = self.pass(lexemes, symbol)? {
                return Ok(Some(expected));
            }
        }
        Ok(None)
    }

    /// Reads the token that is expected.
    fn read(&mut self, lexemes: &[Lexeme], expected: Expected) -> Result<(), SentenceFault>
        requires { IsComing lexemes.now self.old expected }
        ensures place { OnOk result (IsAt lexemes.now self.new (reverse self.new.stack.items)) }
        ensures at { OnOk result (self.new.at ≡ self.old.at + 1) }
        ensures within { OnOk result (self.new.at ≤ length lexemes.now) }
        ensures start { OnOk result (self.new.start ≡ self.old.start) }
        ensures err { IfErr result (IsCause self.old.start lexemes.now) }
    {
        let Some(lexeme) = lexemes.get(self.at) else {
            return Err(SentenceFault::Syntax { index: self.at });
        };
        if !is_class(lexeme.class, expected.class) {
            return Err(SentenceFault::Syntax { index: self.at });
        }
        if expected.depth > MOST_OPEN {
            return Err(SentenceFault::Syntax { index: self.at });
        }
        let mark = Mark::Token(expected.role, *lexeme, expected.depth);
        self.marks.push(mark).map_err(|_| SentenceFault::Memory)?;
        self.at += 1;
        self.depth = expected.depth;
        Ok(())
    }
}

/// The tokens as a sentence of the start sort, with its tree.
///
/// `Syntax` comes exactly where the tokens are not sentence, with their first fault. At most 100 of `(`, `[`, `not` and
/// `~` are open at once; whether tokens are a prefix of a sentence is judged by the grammar without this limit, except
/// that no prefix ends with the token that would be the 101st.
pub fn read_marks(
    alloc: Global,
    start: Sort,
    lexemes: &[Lexeme],
) -> Result<Vec<Mark>, SentenceFault>
    ensures ok { IfOk result (λ ms. IsSentence start lexemes.now ms.items) }
    ensures err { IfErr result (IsCause start lexemes.now) }
{
    let mut parser = Parser::begin(alloc, start).map_err(|_| SentenceFault::Memory)?;
    while let Some(expected) = parser.advance(lexemes)? {
        parser.read(lexemes, expected)?;
    }
    if parser.at < lexemes.len() {
        return Err(SentenceFault::Syntax { index: parser.at });
    }
    Ok(parser.marks)
}
