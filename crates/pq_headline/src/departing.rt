//! Of the writes of a policy, those whose packets leave a switch.
ghost use Rattle.pq_fields.specs.Packet.{Numbers};
ghost use Rattle.pq_headline.specs.LaidOut.{DepartingWritesDepart};

/// What a policy yields on a packet.
pub trait Yielded {
    ghost yields: { Numbers → Numbers → Type 0 };
}

/// Law. Where a meaning's departures are what is yielded and leaves at a port of the packet's switch, of the writes of what is
/// yielded those that leave are the writes of the departures.
pub fn departing_writes_depart<Y: Yielded>()
    ensures { DepartingWritesDepart Y.yields }
{}
