ghost use Rattle.pq_lookup.specs.Lookup.{EntriesAnswer, EntriesPassOver};

/// Law. Of the matches and leaves of a tree, the first that covers a packet with the tree's
/// VLAN_VID word has the leaf that the packet reaches, and none covers a packet with another word.
pub fn entries_answer<L>()
    ensures answer { EntriesAnswer L }
    ensures pass_over { EntriesPassOver L }
{}
