ghost use Rattle.std.specs.Prelude.{◌≡◌, ◌<◌, ◌+◌, ◌-◌, ◌^◌, length, map, min, IfErr, IfOk, OnErr, OnOk};
ghost use Rattle.pq_sum.specs.Cells.{at_place};
ghost use Rattle.pq_sum.specs.Sum.{UnitesParts};
ghost use Rattle.pq_delta.specs.Delta.{AreShort, delta};
ghost use Rattle.pq_compile.specs.Compiled.{IsCompileFault, IsInstalled, IsWithinLimits};
ghost use Rattle.pq_compile.specs.Documents.{document_tree};
ghost use Rattle.pq_compile.specs.Prepared.{AreClassified, IsCompilable, parts_in};
ghost use Rattle.pq_edit.specs.Edits.{IsLawfulEdit, edit_tree, edited};
ghost use Rattle.pq_engine.specs.Changes.{IsDerivationWork, IsUnionWork};

use crate::kept::Kept;
use crate::opening::kept_of;
use crate::parts::{put_part, remove_part};
use crate::queries::{put_query, remove_query};
use pq_compile::{CompileFault, Document};
use pq_edit::Edit;
use pq_install::Install;
use pq_io::Steps;
use pq_letters::Letters;
use pq_min::Classes;
use pq_model::Message;
use pq_rewrite::WriteSet;
use pq_store::{NodeId, Store};
use std::alloc::Global;
use std::marker::{Brand, Model};
use std::sync::ledger::{Blank, Ledger};

/// A document with its install, which is edited part by part and query by query.
///
/// It keeps a diagram of each part, a balanced tree of their unions, and what the queries tell apart.
#[derive(Drop)]
pub struct Engine {
    document: Document,
    kept: Kept,
}

impl Model for Engine {
    ghost use Rattle.pq_engine.specs.Codes.{EngineValue, engine_code};

    ghost Value = { EngineValue };

    ghost coded = { engine_code };

    ghost use Rattle.pq_compile.specs.Documents.{document_tree};
    ghost use Rattle.pq_engine.specs.Engine.{IsEngine, engine_of};

    ghost view = { λ e. engine_of (document_tree e.document) e.kept };

    ghost invariant = { λ e. IsEngine (engine_of (document_tree e.document) e.kept) };
}

impl Engine {
    /// The engine of a document, or the first limit that the document goes beyond.
    ///
    /// The document is lawful, and each query has fewer than 2^19 atoms.
    pub fn open(alloc: Global, document: Document) -> Result<Engine, CompileFault>
        requires { IsCompilable (document_tree document) }
        ensures document { IfOk result (λ engine. engine.document ≡ document_tree document) }
        ensures cause { IfErr result (IsCompileFault (document_tree document)) }
        ensures complete { OnOk result (IsWithinLimits (document_tree document)) }
    {
        match kept_of::<Brand>(alloc, &document, Blank::new(1)) {
            Ok(kept) => Ok(Engine { document, kept }),
            Err(fault) => Err(fault),
        }
    }

    /// Makes an edit; gives for each switch whose tables change its datapath number and the messages that change them. Or tells
    /// the first limit that the edited document goes beyond, and leaves the engine as it was.
    ///
    /// `unions` counts unions and sequences of diagrams, `derivations` the steps of states. Where there are at most 2^k parts,
    /// before and after it, a part that is put takes the steps of its diagram and at most k more, and a part that is removed at
    /// most 2k. An edit of a part takes no step of a state, and an edit of a query no union.
    pub fn edit<L: Ledger, M: Ledger>(
        &mut self,
        alloc: Global,
        edit: Edit,
        unions: &mut Steps<L>,
        derivations: &mut Steps<M>,
    ) -> Result<Vec<(u64, Vec<Message>)>, CompileFault>
        requires { IsLawfulEdit self.old.document (edit_tree edit) }
        ensures edited { OnOk result (self.new.document ≡ edited self.old.document (edit_tree edit)) }
        ensures delta { IfOk result (λ changed. map (λ p. (p.0, p.1.items)) changed.items ≡ delta self.old.install self.new.install) }
        ensures few { IfOk result (λ changed. AreShort (map (λ p. (p.0, p.1.items)) changed.items)) }
        ensures kept { OnErr result (self.new ≡ self.old) }
        ensures cause { IfErr result (IsCompileFault (edited self.old.document (edit_tree edit))) }
        ensures complete { OnOk result (IsWithinLimits (edited self.old.document (edit_tree edit))) }
        ensures unions { IsUnionWork self.old.document (edit_tree edit) unions.old unions.new }
        ensures derivations { IsDerivationWork (edit_tree edit) derivations.old derivations.new }
    {
        let document = &mut self.document;
        match edit {
            Edit::PutPart(name, policy) => {
                match put_part(alloc, document, &self.kept, name, policy, unions) {
                    Ok(change) => Ok(self.kept.take_parts(change)),
                    Err(fault) => Err(fault),
                }
            }
            Edit::RemovePart(name) => {
                match remove_part(alloc, document, &self.kept, name, unions) {
                    Ok(change) => Ok(self.kept.take_parts(change)),
                    Err(fault) => Err(fault),
                }
            }
            Edit::PutQuery(name, query) => {
                match put_query(alloc, document, &self.kept, name, query, derivations) {
                    Ok(change) => Ok(self.kept.take_queries(change)),
                    Err(fault) => Err(fault),
                }
            }
            Edit::RemoveQuery(name) => {
                match remove_query(alloc, document, &self.kept, name, derivations) {
                    Ok(change) => Ok(self.kept.take_queries(change)),
                    Err(fault) => Err(fault),
                }
            }
        }
    }

    /// The document.
    pub fn document(&self) -> &Document
        ensures document { document_tree result.now ≡ self.now.document }
        ensures compilable { IsCompilable self.now.document }
        ensures within { IsWithinLimits self.now.document }
    {
        &self.document
    }

    /// The install of the document.
    pub fn install(&self) -> &Install
        ensures install { result.now ≡ self.now.install }
        ensures installed { IsInstalled self.now.document self.now.install }
    {
        &self.kept.install
    }

    /// The store of the diagrams of the parts and of their unions.
    pub fn forward(&self) -> &Store<WriteSet>
        ensures { result.now ≡ self.now.forward }
    {
        &self.kept.forward
    }

    /// The diagram of the part at this place of the document.
    pub fn part_node(&self, place: usize) -> NodeId
        requires { place < length self.now.document.parts }
        ensures { UnitesParts self.now.document.topology self.now.forward (at_place place (parts_in self.now.document)) result }
    {
        self.kept.sum.part(place)
    }

    /// The diagram of the union of all parts.
    pub fn total(&self) -> NodeId
        ensures { UnitesParts self.now.document.topology self.now.forward (parts_in self.now.document) result }
    {
        self.kept.sum.total()
    }

    /// The letters of packets that the queries tell apart.
    pub fn letters(&self) -> &Letters
        ensures { result.now ≡ self.now.letters }
    {
        &self.kept.told.letters
    }

    /// The classes of words over the letters. Class c has the tag c + 1.
    pub fn classes(&self) -> &Classes
        ensures classes { result.now ≡ self.now.classes }
        ensures classified { AreClassified self.now.document self.now.instances self.now.letters self.now.classes }
    {
        &self.kept.told.classes
    }

    /// How many nodes and leaves the engine keeps; the last number where there are more.
    pub fn nodes(&self) -> u64
        ensures { result ≡ min (length self.now.forward + length self.now.letters.trees) (2 ^ 64 - 1) }
    {
        let forward = self.kept.forward.count();
        let letters = self.kept.told.letters.store().count();
        forward.saturating_add(letters)
    }
}
