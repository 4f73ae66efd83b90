ghost use Rattle.std.specs.Prelude.{◌≡◌, ◌++◌, IfOk, OnOk};
ghost use Rattle.std.specs.List.{flat_map};
ghost use Rattle.pq_model.specs.Install.{IsLawfulInstall};
ghost use Rattle.pq_net.specs.Network.{after_all, opened};
ghost use Rattle.pq_schedule.specs.States.{bucket_line, delivered_line, flight_line, output};
ghost use Rattle.pq_replay.specs.Replay.{replayed};

use pq_install::Install;
use pq_net::{Entry, Event, Net, Tagged};
use pq_schedule::{write_bucket, write_delivered, write_flight};
use pq_term::Name;
use std::alloc::{AllocError, Global};

/// The network that an install makes, after these events.
fn network_after(alloc: Global, install: Install, events: &[Event]) -> Result<Net, AllocError>
    requires { IsLawfulInstall install }
    ensures { IfOk result (λ net. net ≡ after_all (opened install) events.now) }
{
    let mut net = Net::open(alloc, install)?;
    for event in events {
        net.event(alloc, *event)?;
    }
    Ok(net)
}

fn write_flights(alloc: Global, flight: &[Tagged], into: &mut Vec<u8>) -> Result<(), AllocError>
    ensures { OnOk result (into.new.items ≡ into.old.items ++ flat_map flight_line flight.now) }
{
    for x in flight {
        write_flight(alloc, x, into)?;
    }
    Ok(())
}

fn write_deliveries(
    alloc: Global,
    delivered: &[Tagged],
    into: &mut Vec<u8>,
) -> Result<(), AllocError>
    ensures { OnOk result (into.new.items ≡ into.old.items ++ flat_map delivered_line delivered.now) }
{
    for x in delivered {
        write_delivered(alloc, x, into)?;
    }
    Ok(())
}

fn write_entry(
    alloc: Global,
    names: &[Name],
    entry: &Entry,
    into: &mut Vec<u8>,
) -> Result<(), AllocError>
    ensures { OnOk result (into.new.items ≡ into.old.items ++ bucket_line names.now entry.now) }
{
    let label = entry.pair.label.values();
    match names.get(usize::from(entry.pair.query)) {
        Some(name) => write_bucket(alloc, name.bytes(), label, &entry.packet, into),
        None => write_bucket(alloc, b"", label, &entry.packet, into),
    }
}

fn write_entries(
    alloc: Global,
    names: &[Name],
    buckets: &[Entry],
    into: &mut Vec<u8>,
) -> Result<(), AllocError>
    ensures { OnOk result (into.new.items ≡ into.old.items ++ flat_map (bucket_line names.now) buckets.now) }
{
    for entry in buckets {
        write_entry(alloc, names, entry, into)?;
    }
    Ok(())
}

/// The state of a network as text.
fn network_text(alloc: Global, net: &Net) -> Result<Vec<u8>, AllocError>
    ensures { IfOk result (λ text. text.items ≡ output net.now.queries net.now.state) }
{
    let mut text = Vec::new(alloc);
    write_flights(alloc, net.flight(), &mut text)?;
    write_deliveries(alloc, net.delivered(), &mut text)?;
    write_entries(alloc, net.names(), net.buckets(), &mut text)?;
    Ok(text)
}

/// The state, as text, that these events leave of the network that an install makes.
pub(crate) fn state_text(
    alloc: Global,
    install: Install,
    events: &[Event],
) -> Result<Vec<u8>, AllocError>
    requires { IsLawfulInstall install }
    ensures { IfOk result (λ text. text.items ≡ output install.queries (replayed install events.now)) }
{
    let net = network_after(alloc, install, events)?;
    let text = network_text(alloc, &net)?;
    Ok(text)
}
