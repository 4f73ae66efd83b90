//! The actions of arrivals and of copies (OpenFlow 1.3.5, section 7.2.5).
ghost use Rattle.std.specs.Prelude.{◌≡◌, ◌++◌, IfOk, OnOk, IfSome};
ghost use Rattle.pq_model.specs.MatchFields.{IsPortNumber};
ghost use Rattle.pq_layout.specs.Actions.{
  arrival_actions,
  copy_actions,
  header_actions,
  output_port,
  set_field,
  tag_actions,
  tagging_actions,
  untagging_actions,
};
ghost use Rattle.pq_layout.specs.Sound.{IsTagNumber};

use pq_fields::{Field, Writes};
use pq_model::{Action, CONTROLLER, IN_PORT};
use pq_rewrite::{Arrive, OutKind, Outgoing};
use std::alloc::{AllocError, Global};

/// The VLAN_VID word of a tag.
pub(crate) const TAGGED: u16 = 0x1000;

/// The actions of a copy, in order, of a packet that has a tag (`tagged`) or has none: its tag, the numbers written into header
/// fields in field order, and the port.
///
/// A tag is 1 to 4094, and a written port is 1 to 4,294,967,040.
pub fn copy_actions(alloc: Global, copy: &Outgoing, tagged: bool) -> Result<Vec<Action>, AllocError>
    requires tag { IfSome copy.now.tag IsTagNumber }
    requires port { IfSome copy.now.writes.port IsPortNumber }
    ensures { IfOk result (λ a. a.items ≡ copy_actions tagged copy.now) }
{
    let mut actions = Vec::new(alloc);
    push_tag(&mut actions, copy.tag, tagged)?;
    push_writes(&mut actions, &copy.writes)?;
    actions.push(Action::Output(output_port(copy)))?;
    Ok(actions)
}

/// The actions of an arrival, in order: its tag, and a copy to the controller where it captures.
pub(crate) fn arrival_actions(
    alloc: Global,
    arrive: &Arrive,
    tagged: bool,
) -> Result<Vec<Action>, AllocError>
    requires { IsTagNumber arrive.now.tag }
    ensures { IfOk result (λ a. a.items ≡ arrival_actions tagged arrive.now) }
{
    let mut actions = Vec::new(alloc);
    push_tagging(&mut actions, arrive.tag, tagged)?;
    if arrive.capture {
        actions.push(Action::Output(CONTROLLER))?;
    }
    Ok(actions)
}

/// Appends what gives a packet this tag, or takes its tag away.
fn push_tag(actions: &mut Vec<Action>, tag: Option<u16>, tagged: bool) -> Result<(), AllocError>
    requires { IfSome tag IsTagNumber }
    ensures { OnOk result (actions.new.items ≡ actions.old.items ++ tag_actions tagged tag) }
{
    match tag {
        None => push_untagging(actions, tagged),
        Some(number) => push_tagging(actions, number, tagged),
    }
}

/// Appends what gives a packet this tag.
fn push_tagging(actions: &mut Vec<Action>, tag: u16, tagged: bool) -> Result<(), AllocError>
    requires { IsTagNumber tag }
    ensures { OnOk result (actions.new.items ≡ actions.old.items ++ tagging_actions tagged tag) }
{
    if !tagged {
        actions.push(Action::PushVlan)?;
    }
    actions.push(Action::SetVlan(TAGGED + tag))?;
    Ok(())
}

/// Appends what takes a packet's tag away, if it has one.
fn push_untagging(actions: &mut Vec<Action>, tagged: bool) -> Result<(), AllocError>
    ensures { OnOk result (actions.new.items ≡ actions.old.items ++ untagging_actions tagged) }
{
    if tagged {
        actions.push(Action::PopVlan)?;
    }
    Ok(())
}

/// Appends what writes these numbers into header fields, in field order.
fn push_writes(actions: &mut Vec<Action>, writes: &Writes) -> Result<(), AllocError>
    ensures { OnOk result (actions.new.items ≡ actions.old.items ++ header_actions writes.now) }
{
    push_field(actions, Field::EthSrc, writes.eth_src)?;
    push_field(actions, Field::EthDst, writes.eth_dst)?;
    push_field(actions, Field::Ipv4Src, writes.ipv4_src)?;
    push_field(actions, Field::Ipv4Dst, writes.ipv4_dst)?;
    push_field(actions, Field::TcpSrc, writes.tcp_src)?;
    push_field(actions, Field::TcpDst, writes.tcp_dst)?;
    push_field(actions, Field::UdpSrc, writes.udp_src)?;
    push_field(actions, Field::UdpDst, writes.udp_dst)?;
    Ok(())
}

/// Appends what writes the number into the field, where there is one.
fn push_field(
    actions: &mut Vec<Action>,
    field: Field,
    number: Option<u64>,
) -> Result<(), AllocError>
    ensures { OnOk result (actions.new.items ≡ actions.old.items ++ set_field field number) }
{
    if let Some(value) = number {
        actions.push(Action::SetField(field, value))?;
    }
    Ok(())
}

/// The port number of a copy: the controller's, the written one, or that of the way back.
fn output_port(copy: &Outgoing) -> u32
    requires { IfSome copy.now.writes.port IsPortNumber }
    ensures { result ≡ output_port copy.now.kind copy.now.writes }
{
    match copy.kind {
        OutKind::CaptureOut => CONTROLLER,
        OutKind::Send => match copy.writes.port {
            Some(port) => port as u32,
            None => IN_PORT,
        },
    }
}
