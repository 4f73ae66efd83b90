ghost use Rattle.std.specs.Prelude.{IfErr, IfOk};
ghost use Rattle.pq_install.specs.Damage.{IsReadReport, ReportFails, report_bytes};
ghost use Rattle.pq_install.specs.Front.{IsAtFront};
ghost use Rattle.pq_install.specs.Units.{Tells};

use crate::fault::Fault;
use crate::install::ReportRow;
use crate::read::names::names_at;
use crate::read::report::rows_at;
use pq_term::Name;
use std::alloc::Global;

/// The names of the queries and the report on them at the front.
pub fn report_at(alloc: Global, bytes: &[u8]) -> Result<(Vec<Name>, Vec<ReportRow>, &[u8]), Fault>
    ensures ok { IfOk result (λ r. IsAtFront IsReadReport report_bytes bytes.now (r.0.items, r.1.items) r.2.now) }
    ensures err { IfErr result (Tells (ReportFails bytes.now)) }
{
    let (names, rest) = names_at(alloc, bytes)?;
    let (report, rest) = rows_at(alloc, names.len(), rest)?;
    Ok((names, report, rest))
}
