ghost use Rattle.std.specs.Prelude.{◌≡◌, ◌++◌, map, IfOk, OnOk};
ghost use Rattle.pq_model.specs.Lawful.{Ascends};
ghost use Rattle.pq_net.specs.Hops.{collects};

use crate::entry::Entry;
use crate::lookups::pairs_of;
use pq_fields::Packet;
use pq_install::ReportRow;
use pq_model::{Instance, Sent};
use std::alloc::{AllocError, Global};

/// Adds an entry for each instance of the row of the tag of a copy to the controller.
pub(crate) fn collect(
    alloc: Global,
    report: &[ReportRow],
    copy: Sent,
    entries: &mut Vec<Entry>,
) -> Result<(), AllocError>
    requires { Ascends (map (λ row. row.tag) report.now) }
    ensures { OnOk result (entries.new.items ≡ entries.old.items ++ collects report.now copy) }
{
    let Sent::Controller(x) = copy else {
        return Ok(());
    };
    let Some(tag) = x.vlan else {
        return Ok(());
    };
    add_entries(alloc, pairs_of(report, tag), x.packet, entries)
}

fn add_entries(
    alloc: Global,
    pairs: &[Instance],
    packet: Packet,
    entries: &mut Vec<Entry>,
) -> Result<(), AllocError>
    ensures { OnOk result (entries.new.items
        ≡ entries.old.items ++ map (λ i. record { pair = i; packet = packet }) pairs.now) }
{
    for pair in pairs {
        let pair = same_pair(alloc, pair)?;
        entries.push(Entry { pair, packet })?;
    }
    Ok(())
}

// The same instance in memory of its own.
fn same_pair(alloc: Global, pair: &Instance) -> Result<Instance, AllocError>
    ensures { IfOk result (λ copied. copied ≡ pair.now) }
{
    let label = pair.label.copy(alloc)?;
    Ok(Instance {
        query: pair.query,
        label,
    })
}
