//! Laws that join the layers below a compiler: calls that do nothing, for what their contracts say.
ghost use Rattle.pq_meaning.specs.Laws.{
  CompiledImplements,
  HasMeaning,
  HasOneInstall,
  HasOneSetOfTrees,
  MeaningsAreLaidOut,
  PartsAreIdleFree,
  PartsDepart,
  PartsIgnoreLacking,
};

use pq_lookup::switch_sends;

/// Law. Of what the diagram of all parts writes, what leaves at a port of the packet's switch is the departures, and the
/// diagram is idle-free.
pub fn parts_depart()
    ensures departures { PartsDepart }
    ensures idle_free { PartsAreIdleFree }
{}

/// Law. Departures and tags of a document's parts and queries are laid out for its meaning.
pub fn meanings_are_laid_out()
    ensures { MeaningsAreLaidOut }
{}

/// Law. The install of a document implements its meaning: whatever the tables held, in whatever lawful order each switch
/// processes its messages, every schedule leaves the flights, the deliveries and the buckets that the meaning leaves.
pub fn compiled_implements()
    ensures { CompiledImplements }
{
    switch_sends();
}

/// Law. Where the parts are lawful, what their diagram writes on a packet doesn't depend on the number in a field that the
/// packet lacks.
pub fn parts_ignore_lacking()
    ensures { PartsIgnoreLacking }
{}

/// Law. A document has one install.
pub fn one_install()
    ensures { HasOneInstall }
{}

/// Law. By whatever departures and tags a document is laid out, the trees of a switch are the same.
pub fn documents_have_one_set_of_trees()
    ensures { HasOneSetOfTrees }
{}

/// Law. Where departures and tags are laid out for a document, the document has a meaning.
pub fn meaning_exists()
    ensures { HasMeaning }
{}
