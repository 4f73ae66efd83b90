ghost use Rattle.std.specs.Prelude.{◌≡◌, ◌++◌, map, IfOk, OnOk};
ghost use Rattle.pq_model.specs.Lawful.{Ascends};
ghost use Rattle.pq_model.specs.Meaning.{moved_to};
ghost use Rattle.pq_net.specs.Hops.{adds, carries, delivers};

use crate::collecting::collect;
use crate::sorting::sort;
use crate::state::Added;
use crate::wiring::Wiring;
use pq_fields::{Field, Packet, fits};
use pq_install::ReportRow;
use pq_model::{Sent, Tagged};
use std::alloc::{AllocError, Global};

/// What the copies of one hop put in flight, deliver and put into buckets.
pub(crate) fn additions(
    alloc: Global,
    wiring: &Wiring,
    report: &[ReportRow],
    sent: &[Sent],
) -> Result<Added, AllocError>
    requires { Ascends (map (λ row. row.tag) report.now) }
    ensures { IfOk result (λ state. state ≡ adds wiring.now report.now sent.now) }
{
    let mut flight = Vec::new(alloc);
    let mut delivered = Vec::new(alloc);
    let mut buckets = Vec::new(alloc);
    for copy in sent {
        carry(wiring, *copy, &mut flight)?;
        deliver(wiring, *copy, &mut delivered)?;
        collect(alloc, report, *copy, &mut buckets)?;
    }
    sort(&mut buckets)?;
    Ok(Added {
        flight,
        delivered,
        buckets,
    })
}

// A copy to a linked port goes on at the other end of the link.
fn carry(wiring: &Wiring, copy: Sent, flight: &mut Vec<Tagged>) -> Result<(), AllocError>
    ensures { OnOk result (flight.new.items ≡ flight.old.items ++ carries wiring.now copy) }
{
    let Sent::Port(x) = copy else {
        return Ok(());
    };
    let Some(end) = wiring.peer(x.packet.switch, port_of(x.packet)) else {
        return Ok(());
    };
    flight.push(Tagged {
        packet: moved_to(x.packet, end),
        ..x
    })?;
    Ok(())
}

// A copy to an edge port is delivered.
fn deliver(wiring: &Wiring, copy: Sent, delivered: &mut Vec<Tagged>) -> Result<(), AllocError>
    ensures { OnOk result (delivered.new.items ≡ delivered.old.items ++ delivers wiring.now copy) }
{
    let Sent::Port(x) = copy else {
        return Ok(());
    };
    if !wiring.is_edge(x.packet.switch, port_of(x.packet)) {
        return Ok(());
    }
    delivered.push(x)?;
    Ok(())
}

/// The port that a packet names.
pub(crate) fn port_of(x: Packet) -> u32
    ensures { result ≡ x.port }
{
    fits(x);
    x.port as u32
}

// The packet at an end of a link.
fn moved_to(x: Packet, end: (u64, u32)) -> Packet
    ensures { result ≡ moved_to x end }
{
    x.with(Field::Switch, end.0)
        .with(Field::Port, u64::from(end.1))
}
