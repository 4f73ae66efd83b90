//! How marks make trees.
ghost use Rattle.std.specs.Prelude.{◌≡◌, drop, map, IfOk, OnOk};
ghost use Rattle.pq_tree.specs.Trees.{tree};
ghost use Rattle.pq_tree.specs.Shapes.{Makes, MakesSome};
ghost use Rattle.pq_tree.specs.Growth.{bare, with_leaf, with_head, closed, step, growth};

use crate::term::Term;
use bumpalo::Bump;
use pq_grammar::{Mark, Role};
use pq_term::Token;
use std::alloc::{AllocError, Global};

/// The head of a tree that has no end yet.
#[derive(Clone, Copy)]
pub(crate) struct Opened {
    head: Token,
    /// The number of trees that are not below it: those before its first child.
    before: usize,
}

/// What has grown so far.
#[derive(Drop)]
pub(crate) struct Growing<'a> {
    /// The trees that have an end, the last one last.
    finished: Vec<Term<'a>>,
    /// The heads of those that have none, the last one last.
    opened: Vec<Opened>,
}

/// The terms but for the first ones, this many.
fn terms_from<'a, 'b>(terms: &'b [Term<'a>], from: usize) -> &'b [Term<'a>]
    ensures { result.now ≡ drop from terms.now }
{
    if from > terms.len() {
        return &[];
    }
    &terms[from..]
}

/// The terms, in the arena.
fn kept<'a>(bump: &'a Bump<Global>, terms: &[Term<'a>]) -> Result<&'a [Term<'a>], AllocError>
    ensures { IfOk result (λ row. row.now ≡ terms.now) }
{
    let row = bump.try_alloc_slice_copy(terms)?;
    Ok(row)
}

impl<'a> Growing<'a> {
    /// Nothing has grown.
    fn new(alloc: Global) -> Growing<'a>
        ensures { growth result ≡ bare }
    {
        Growing {
            finished: Vec::new(alloc),
            opened: Vec::new(alloc),
        }
    }

    /// A tree with no children.
    fn put_leaf(&mut self, head: Token) -> Result<(), AllocError>
        ensures { OnOk result (growth self.new ≡ with_leaf head (growth self.old)) }
    {
        self.finished.push(Term {
            head,
            children: &[],
        })?;
        Ok(())
    }

    /// The head of a tree, which this many trees are not below.
    fn put_head(&mut self, head: Token, before: usize) -> Result<(), AllocError>
        ensures { OnOk result (growth self.new ≡ with_head head before (growth self.old)) }
    {
        self.opened.push(Opened { head, before })?;
        Ok(())
    }

    /// The end of the tree that was opened last.
    fn close(&mut self, bump: &'a Bump<Global>) -> Result<(), AllocError>
        ensures { OnOk result (growth self.new ≡ closed (growth self.old).opened (growth self.old).finished) }
    {
        let Some(last) = self.opened.pop() else {
            return Ok(());
        };
        let children = kept(bump, terms_from(&self.finished, last.before))?;
        self.finished.truncate(last.before);
        self.finished.push(Term {
            head: last.head,
            children,
        })?;
        Ok(())
    }

    /// One mark more.
    fn put(&mut self, bump: &'a Bump<Global>, mark: &Mark) -> Result<(), AllocError>
        ensures { OnOk result (growth self.new ≡ step mark.now (growth self.old)) }
    {
        let count = self.finished.len();
        match *mark {
            Mark::Token(Role::Leaf, lexeme, _) => self.put_leaf(lexeme.token),
            Mark::Token(Role::Spelled, _, _) => Ok(()),
            Mark::Token(Role::Head, lexeme, _) => self.put_head(lexeme.token, count),
            Mark::Token(Role::Lead, lexeme, _) => {
                self.put_head(lexeme.token, count.saturating_sub(1))
            }
            Mark::Close => self.close(bump),
        }
    }
}

/// The trees that the marks make, in the arena. Each term is copied once, where the tree that it is a child of ends.
pub(crate) fn grown<'a>(
    alloc: Global,
    bump: &'a Bump<Global>,
    marks: &[Mark],
) -> Result<&'a [Term<'a>], AllocError>
    requires some { MakesSome marks.now }
    ensures { IfOk result (λ terms. Makes marks.now (map tree terms.now)) }
{
    let mut growing = Growing::new(alloc);
    for mark in marks {
        growing.put(bump, mark)?;
    }
    let terms = kept(bump, &growing.finished)?;
    Ok(terms)
}
