//! Laws of edits: calls that do nothing, for what their contracts say.
ghost use Rattle.std.specs.Prelude.{◌≡◌, ℕ, List};
ghost use Rattle.std.specs.List.{AllByRecursion};
ghost use Rattle.pq_model.specs.declared.message.Message.{Message};
ghost use Rattle.pq_model.specs.Headline.{installed};
ghost use Rattle.pq_model.specs.Install.{Install, IsLawfulList, messages_of};
ghost use Rattle.pq_model.specs.Meaning.{Meaning};
ghost use Rattle.pq_model.specs.Orders.{IsLawfulOrder};
ghost use Rattle.pq_model.specs.SwitchMachine.{Tables};
ghost use Rattle.pq_delta.specs.Delta.{AreShort, delta, switch_delta};
ghost use Rattle.pq_compile.specs.Compiled.{IsInstalled, IsMeaningOf};
ghost use Rattle.pq_compile.specs.Documents.{DocumentTree};
ghost use Rattle.pq_turning.specs.Edits.{
  AcceptedEdit,
  AreEdits,
  AreTablesOf,
  DeltaTurns,
  TablesImplement,
  current_document,
  current_install,
  edited_tables,
  listed_for,
};

use pq_delta::{deltas_are_lawful, deltas_turn_tables};

/// Law: whatever tables switches held, once they have processed the messages of a document's install and then those of the delta
/// of each accepted edit, each list in any lawful order, their tables are the same as those that the messages of the current
/// document's install leave in empty ones (OpenFlow 1.3.5, section 6.1.3).
pub fn edits_turn_tables()
    ensures listed { (d e : DocumentTree) (i j : Install) → IsInstalled d i → IsInstalled e j → d.topology ≡ e.topology
        → (n : ℕ) → listed_for (delta i j) n ≡ switch_delta (messages_of i n) (messages_of j n) }
    ensures turned { (d e : DocumentTree) (i j : Install) → IsInstalled d i → IsInstalled e j → d.topology ≡ e.topology → (n : ℕ)
        → DeltaTurns (messages_of i n) (messages_of j n) }
    ensures edited { (d : DocumentTree) (i : Install) (es : List AcceptedEdit) → IsInstalled d i → AreEdits d.topology i es
        → (before : ℕ → Tables) (order : ℕ → List Message) → ((n : ℕ) → IsLawfulOrder (messages_of i n) (order n))
        → AreTablesOf (current_install i es) (edited_tables (installed before order) es) }
{
    deltas_turn_tables();
}

/// Law: so, with no packet in flight, tables that are the same as those of a document's install do what the document means, and
/// so do the tables after any accepted edits, with the report of the current install.
pub fn edited_tables_implement()
    ensures tables { (d : DocumentTree) (i : Install) → IsInstalled d i → (tables : ℕ → Tables) → AreTablesOf i tables
        → (m : Meaning) → IsMeaningOf d m → TablesImplement i tables m }
    ensures edited { (d : DocumentTree) (i : Install) (es : List AcceptedEdit) → IsInstalled d i → AreEdits d.topology i es
        → (before : ℕ → Tables) (order : ℕ → List Message) → ((n : ℕ) → IsLawfulOrder (messages_of i n) (order n))
        → (m : Meaning) → IsMeaningOf (current_document d es) m → TablesImplement (current_install i es) (edited_tables (installed before order) es) m }
{
    deltas_turn_tables();
}

/// Law: the messages of the delta between the installs of two documents are lawful, where there are fewer to each switch than
/// four bytes can count, as where `delta` gives them.
pub fn deltas_of_documents_are_lawful()
    ensures { (d e : DocumentTree) (i j : Install) → IsInstalled d i → IsInstalled e j
        → AreShort (delta i j) → AllByRecursion (λ p. IsLawfulList p.1) (delta i j) }
{
    deltas_are_lawful();
}
