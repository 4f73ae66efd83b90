ghost use Rattle.std.specs.Prelude.{◌≡◌, ◌↔◌, IsTrue};
ghost use Rattle.std.specs.Cmp.Lexicographic.{slice_cmp};
ghost use Rattle.std.specs.Ordering.{is_lt, nat_cmp};
ghost use Rattle.pq_fields.specs.Order.{packet_cmp, packet_eq};
ghost use Rattle.pq_fields.specs.Packet.{Numbers, is_before, numbers};

/// Packets compare as their numbers do in field order, where the first that differs decides, and
/// packets that are equal have the same numbers. It does nothing when it runs: a caller that sorts
/// or compares packets may call it to know this.
pub fn packets_are_ordered_by_numbers()
    ensures compares { (x y : Numbers) → packet_cmp x y ≡ slice_cmp nat_cmp (numbers x) (numbers y) }
    ensures precedes { (x y : Numbers) → is_lt (packet_cmp x y) ≡ is_before (numbers x) (numbers y) }
    ensures equals { (x y : Numbers) → IsTrue (packet_eq x y) ↔ (x ≡ y) }
{}
