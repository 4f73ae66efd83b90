ghost use Rattle.pq_speaker.specs.World.{InstalledMeansProcessed, RenewalsAreInstalled};
ghost use Rattle.pq_speaker.specs.Speaking.{PiecesAreHeardAsOne};

/// Law: hearing one piece and then another is hearing both at once, in what is sent and in how far the
/// session is.
pub fn pieces_are_heard_as_one()
    ensures { PiecesAreHeardAsOne }
{}

/// Law: where a speaker says Installed, its switch has processed all the messages in a lawful order, if the
/// switch sends a BARRIER_REPLY only for a barrier (OpenFlow 1.3.5, sections 6.1.3 and 7.3.8).
pub fn installed_means_processed()
    ensures { InstalledMeansProcessed }
{}

/// Law: if the messages delete all and then add groups and entries, the switch then has the tables that
/// they leave in empty ones, whatever it held before.
pub fn renewals_are_installed()
    ensures { RenewalsAreInstalled }
{}
