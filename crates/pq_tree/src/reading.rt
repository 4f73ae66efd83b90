//! Texts as trees.
ghost use Rattle.std.specs.Prelude.{◌≡◌, ◌⊎◌, ◌∷◌, [], length, drop, All, IfOk, IfErr};
ghost use Rattle.pq_term.specs.Division.{IsDivision, LiesWithin};
ghost use Rattle.pq_grammar.specs.declared.sort.Sort.TheVariants.{Document, Edit};
ghost use Rattle.pq_grammar.specs.Sentences.{IsSentence};
ghost use Rattle.pq_tree.specs.Trees.{forest, tree, trees};
ghost use Rattle.pq_tree.specs.Reading.{lexemes, first_byte, IsForestOf, IsTextFault};

use crate::growth::grown;
use crate::term::Term;
use bumpalo::Bump;
use pq_grammar::{Mark, SentenceFault, Sort, lexemes_of, read_marks};
use pq_term::{TermFault, Token, token_list};
use std::alloc::Global;

/// The first byte of the token at this index, or the number of bytes where there is none.
fn byte_of(bytes: &[u8], tokens: &[Token], index: usize) -> usize
    ensures { result ≡ first_byte (length bytes.now) (drop index tokens.now) }
{
    match tokens.get(index) {
        Some(token) => token.at,
        None => bytes.len(),
    }
}

/// The marks of the text, whose tokens are these, as a sentence of the start sort.
fn marks_of(
    alloc: Global,
    start: Sort,
    bytes: &[u8],
    tokens: &[Token],
) -> Result<Vec<Mark>, TermFault>
    requires divided { IsDivision bytes.now tokens.now }
    requires within { All (LiesWithin (length bytes.now)) tokens.now }
    ensures ok { IfOk result (λ marks. IsSentence start (lexemes bytes.now tokens.now) marks.items) }
    ensures err { IfErr result (IsTextFault start bytes.now) }
{
    let Ok(lexemes) = lexemes_of(alloc, bytes, tokens) else {
        return Err(TermFault::Memory);
    };
    match read_marks(alloc, start, &lexemes) {
        Ok(marks) => Ok(marks),
        Err(SentenceFault::Syntax { index }) => Err(TermFault::Syntax {
            at: byte_of(bytes, tokens, index),
        }),
        Err(SentenceFault::Memory) => Err(TermFault::Memory),
    }
}

/// The trees of the text as a document or an edit.
fn read_forest<'a>(
    alloc: Global,
    bump: &'a Bump<Global>,
    start: Sort,
    bytes: &[u8],
) -> Result<&'a [Term<'a>], TermFault>
    requires whole { (start ≡ Document) ⊎ (start ≡ Edit) }
    ensures ok { IfOk result (λ terms. IsForestOf start bytes.now (trees terms.now)) }
    ensures err { IfErr result (IsTextFault start bytes.now) }
{
    let tokens = match token_list(alloc, bytes) {
        Ok(tokens) => tokens,
        Err(fault) => return Err(fault),
    };
    let marks = match marks_of(alloc, start, bytes, &tokens) {
        Ok(marks) => marks,
        Err(fault) => return Err(fault),
    };
    match grown(alloc, bump, &marks) {
        Ok(terms) => Ok(terms),
        Err(_) => Err(TermFault::Memory),
    }
}

/// The statements of a document, as trees in the arena.
///
/// `Lex` comes exactly where the division into tokens meets something that is not a token, with its first byte. `Syntax`
/// comes exactly where the text is divided into tokens that are not sentence, with the first byte of the first token
/// with which no prefix of a sentence ends, or the number of bytes where all tokens together are a proper prefix of a
/// sentence.
pub fn read_terms<'a>(
    alloc: Global,
    bump: &'a Bump<Global>,
    bytes: &'a [u8],
) -> Result<&'a [Term<'a>], TermFault>
    ensures ok { IfOk result (λ terms. IsForestOf Document bytes.now (trees terms.now)) }
    ensures err { IfErr result (IsTextFault Document bytes.now) }
{
    read_forest(alloc, bump, Sort::Document, bytes)
}

/// The statement of an edit, as a tree in the arena. It fails as `read_terms` does.
pub fn read_edit<'a>(
    alloc: Global,
    bump: &'a Bump<Global>,
    bytes: &'a [u8],
) -> Result<&'a Term<'a>, TermFault>
    ensures ok { IfOk result (λ term. IsForestOf Edit bytes.now (forest (tree term.now ∷ []))) }
    ensures err { IfErr result (IsTextFault Edit bytes.now) }
{
    match read_forest(alloc, bump, Sort::Edit, bytes) {
        Ok(terms) => Ok(&terms[0]),
        Err(fault) => Err(fault),
    }
}
