//! The lines of a network's printed state: first one for each packet in flight, then one for each delivery, then one
//! for each entry of a bucket.
ghost use Rattle.std.specs.Prelude.{◌≡◌, ◌++◌, IfOk, OnErr, OnOk};
ghost use Rattle.pq_schedule.specs.States.{
  bucket_text,
  delivered_line,
  flight_line,
  left_vlan,
  tag_text,
};

use crate::numbers::{write_decimal, write_decimals};
use crate::packet_text::write_packet;
use pq_fields::Packet;
use pq_model::Tagged;
use std::alloc::{AllocError, Global};

fn write_tag(vlan: Option<u16>, into: &mut Vec<u8>) -> Result<(), AllocError>
    ensures { OnOk result (into.new.items ≡ into.old.items ++ tag_text vlan) }
{
    match vlan {
        Some(tag) => write_decimal(u64::from(tag), into),
        None => into.extend_from_slice(b"none"),
    }
}

fn write_left_vlan(vlan: Option<u16>, into: &mut Vec<u8>) -> Result<(), AllocError>
    ensures { OnOk result (into.new.items ≡ into.old.items ++ left_vlan vlan) }
{
    let Some(tag) = vlan else {
        return Ok(());
    };
    into.extend_from_slice(b" vlan=")?;
    write_decimal(u64::from(tag), into)
}

fn flight_line(alloc: Global, x: &Tagged) -> Result<Vec<u8>, AllocError>
    ensures { IfOk result (λ line. line.items ≡ flight_line x.now) }
{
    let mut line = Vec::from_slice(alloc, b"flight tag=")?;
    write_tag(x.vlan, &mut line)?;
    line.push(b' ')?;
    write_packet(&x.packet, &mut line)?;
    line.push(b'\n')?;
    Ok(line)
}

fn delivered_line(alloc: Global, x: &Tagged) -> Result<Vec<u8>, AllocError>
    ensures { IfOk result (λ line. line.items ≡ delivered_line x.now) }
{
    let mut line = Vec::from_slice(alloc, b"delivered ")?;
    write_packet(&x.packet, &mut line)?;
    write_left_vlan(x.vlan, &mut line)?;
    line.push(b'\n')?;
    Ok(line)
}

fn bucket_line(alloc: Global, name: &[u8], label: &[u64], x: &Packet) -> Result<Vec<u8>, AllocError>
    ensures { IfOk result (λ line. line.items ≡ bucket_text name.now label.now x.now) }
{
    let mut line = Vec::from_slice(alloc, b"bucket ")?;
    line.extend_from_slice(name)?;
    line.extend_from_slice(b" [")?;
    write_decimals(b',', label, &mut line)?;
    line.extend_from_slice(b"] ")?;
    write_packet(x, &mut line)?;
    line.push(b'\n')?;
    Ok(line)
}

/// Appends the line of a packet in flight: `flight tag=T PACKET` with T the VLAN number or `none`. PACKET is `f=v`
/// for each field that the packet has, in field order, joined by one space. Where memory runs out `into` is as
/// before.
pub fn write_flight(alloc: Global, x: &Tagged, into: &mut Vec<u8>) -> Result<(), AllocError>
    ensures ok { OnOk result (into.new.items ≡ into.old.items ++ flight_line x.now) }
    ensures err { OnErr result (into.new.items ≡ into.old.items) }
{
    let line = flight_line(alloc, x)?;
    into.extend_from_slice(&line)
}

/// Appends the line of a delivered packet: `delivered PACKET`, and after it ` vlan=V` where it still has a VLAN
/// header. Where memory runs out `into` is as before.
pub fn write_delivered(alloc: Global, x: &Tagged, into: &mut Vec<u8>) -> Result<(), AllocError>
    ensures ok { OnOk result (into.new.items ≡ into.old.items ++ delivered_line x.now) }
    ensures err { OnErr result (into.new.items ≡ into.old.items) }
{
    let line = delivered_line(alloc, x)?;
    into.extend_from_slice(&line)
}

/// Appends the line of a bucket's entry: `bucket NAME [VALUES] PACKET` with the query's name and the values of the
/// label joined by `,`. Where memory runs out `into` is as before.
pub fn write_bucket(
    alloc: Global,
    name: &[u8],
    label: &[u64],
    x: &Packet,
    into: &mut Vec<u8>,
) -> Result<(), AllocError>
    ensures ok { OnOk result (into.new.items ≡ into.old.items ++ bucket_text name.now label.now x.now) }
    ensures err { OnErr result (into.new.items ≡ into.old.items) }
{
    let line = bucket_line(alloc, name, label, x)?;
    into.extend_from_slice(&line)
}
