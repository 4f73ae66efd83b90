ghost use Rattle.std.specs.Prelude.{◌≡◌, map, IfOk, length, MatchOption};
ghost use Rattle.pq_model.specs.Lawful.{Ascends};
ghost use Rattle.pq_model.specs.SwitchMachine.{sends};
ghost use Rattle.pq_model.specs.TablesMachine.{pairs_of};
ghost use Rattle.pq_net.specs.Network.{tables_in};
ghost use Rattle.pq_net.specs.Searches.{IsAt, IsNowhere};

use crate::wiring::Wiring;
use pq_install::ReportRow;
use pq_model::Instance;
use pq_switch::{Sent, Settled, Tagged};
use pq_topo::Switch;
use std::alloc::{AllocError, Global};

/// The instances of the row with this tag; none where there is no such row.
pub(crate) fn pairs_of(report: &[ReportRow], tag: u16) -> &[Instance]
    requires { Ascends (map (λ row. row.tag) report.now) }
    ensures { result.now ≡ pairs_of report.now tag }
{
    match row_at(report, tag) {
        Some(index) => {
            let row = &report[index];
            &row.pairs
        }
        None => &[],
    }
}

// Where the row with this tag is.
fn row_at(report: &[ReportRow], tag: u16) -> Option<usize>
    requires { Ascends (map (λ row. row.tag) report.now) }
    ensures { MatchOption result (IsNowhere (λ row. row.tag) report.now tag)
        (IsAt (λ row. row.tag) report.now tag) }
{
    report
        .binary_search_by_key(
            &tag,
            |row: &ReportRow| -> u16
                ensures { result ≡ row.now.tag }
            { row.tag },
        )
        .ok()
}

/// The copies that the packet's switch sends for it; none where there is no such switch.
pub(crate) fn copies_of(
    alloc: Global,
    wiring: &Wiring,
    tables: &[Settled],
    x: &Tagged,
) -> Result<Vec<Sent>, AllocError>
    requires { length tables.now ≡ length wiring.now.switches }
    ensures { let own = tables_in wiring.now.switches tables.now x.now.packet.switch in
        IfOk result (λ sent. sent.items ≡ sends own x.now) }
{
    match switch_at(wiring, x.packet.switch) {
        Some(index) => tables[index].hop(alloc, x),
        None => Ok(Vec::new(alloc)),
    }
}

// Where the switch with this datapath number is.
fn switch_at(wiring: &Wiring, datapath: u64) -> Option<usize>
    ensures ascending { Ascends (map (λ s. s.datapath) wiring.now.switches) }
    ensures place { MatchOption result (IsNowhere (λ s. s.datapath) wiring.now.switches datapath)
        (IsAt (λ s. s.datapath) wiring.now.switches datapath) }
{
    wiring
        .switches()
        .binary_search_by_key(
            &datapath,
            |switch: &Switch| -> u64
                ensures { result ≡ switch.now.datapath }
            { switch.datapath },
        )
        .ok()
}
