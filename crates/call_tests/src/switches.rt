#![tactic(auto, unfolding(pq_model::specs::Spelling::message_bytes, pq_model::specs::Spelling::with_header, pq_model::specs::Spelling::flow_body, pq_model::specs::Spelling::group_body, pq_model::specs::Spelling::bucket_bytes, pq_model::specs::Spelling::match_bytes, pq_model::specs::Spelling::match_oxms, pq_model::specs::Spelling::apply_bytes, pq_model::specs::Spelling::action_bytes, pq_model::specs::Spelling::goto_bytes))]

ghost use Rattle.std.specs.Prelude.{◌<◌, ◌^◌, IfOk, IfSome};
ghost use Rattle.pq_model.specs.Lawful.{IsLawfulMessage};

use pq_fields::{Field, Packet};
use pq_model::{Action, FlowCommand, FlowMod, GroupCommand, GroupMod, Match, Message};
use pq_switch::*;
use std::alloc::{AllocError, Global};
use std::test::Fail;

// The match that states no field.
const ANY: Match = Match {
    in_port: None,
    vlan: None,
    eth_type: None,
    ip_proto: None,
    eth_src: None,
    eth_dst: None,
    ipv4_src: None,
    ipv4_dst: None,
    tcp_src: None,
    tcp_dst: None,
    udp_src: None,
    udp_dst: None,
    ipv6_src: None,
    ipv6_dst: None,
};

// Packets without a VLAN header from port 1.
const UNTAGGED: Match = Match {
    in_port: Some(1),
    vlan: Some(0),
    ..ANY
};

// A message that the tests apply.
#[derive(Clone, Copy)]
enum Step {
    // For each packet, with priority 10: back to its port.
    Back,
    // For each packet, with priority 10: to port 2.
    Out,
    // For packets without a header from port 1, with priority 10: to port 1.
    ToItself,
    // For these, with priority 20: TCP's port becomes 80, and the packet goes to group 1.
    ToGroup,
    // Group 1: one copy with VLAN number 2 to port 2, one to port 3.
    AddGroup,
    // Group 1: one copy to port 4.
    ModifyGroup,
    DeleteGroup,
    // For packets without a header from port 1, with priority 30: VLAN number 5, to the controller, and on to table 1.
    Onward,
    // In table 1, for VLAN number 5: without the header to port 3.
    Arrive,
}

fn back(alloc: Global) -> Result<Message, AllocError>
    ensures { IfOk result IsLawfulMessage }
{
    Ok(Message::Flow(FlowMod {
        xid: 1,
        cookie: 0,
        table: 0,
        command: FlowCommand::Add,
        priority: 10,
        matching: ANY,
        actions: vec![in alloc; Action::Output(0xffff_fff8)]?,
        goto: None,
    }))
}

fn out(alloc: Global) -> Result<Message, AllocError>
    ensures { IfOk result IsLawfulMessage }
{
    Ok(Message::Flow(FlowMod {
        xid: 2,
        cookie: 0,
        table: 0,
        command: FlowCommand::Add,
        priority: 10,
        matching: ANY,
        actions: vec![in alloc; Action::Output(2)]?,
        goto: None,
    }))
}

fn to_itself(alloc: Global) -> Result<Message, AllocError>
    ensures { IfOk result IsLawfulMessage }
{
    Ok(Message::Flow(FlowMod {
        xid: 3,
        cookie: 0,
        table: 0,
        command: FlowCommand::Add,
        priority: 10,
        matching: UNTAGGED,
        actions: vec![in alloc; Action::Output(1)]?,
        goto: None,
    }))
}

fn to_group(alloc: Global) -> Result<Message, AllocError>
    ensures { IfOk result IsLawfulMessage }
{
    Ok(Message::Flow(FlowMod {
        xid: 4,
        cookie: 0,
        table: 0,
        command: FlowCommand::Add,
        priority: 20,
        matching: UNTAGGED,
        actions: vec![in alloc; Action::SetField(Field::TcpDst, 80), Action::Group(1)]?,
        goto: None,
    }))
}

fn add_group(alloc: Global) -> Result<Message, AllocError>
    ensures { IfOk result IsLawfulMessage }
{
    let second = vec![in alloc;
        Action::PushVlan,
        Action::SetVlan(0x1002),
        Action::Output(2),
    ]?;
    let third = vec![in alloc; Action::Output(3)]?;
    Ok(Message::Group(GroupMod {
        xid: 5,
        command: GroupCommand::Add,
        group: 1,
        buckets: vec![in alloc; second, third]?,
    }))
}

fn modify_group(alloc: Global) -> Result<Message, AllocError>
    ensures { IfOk result IsLawfulMessage }
{
    let fourth = vec![in alloc; Action::Output(4)]?;
    Ok(Message::Group(GroupMod {
        xid: 6,
        command: GroupCommand::Modify,
        group: 1,
        buckets: vec![in alloc; fourth]?,
    }))
}

fn delete_group(alloc: Global) -> Message
    ensures { IsLawfulMessage result }
{
    Message::Group(GroupMod {
        xid: 7,
        command: GroupCommand::Delete,
        group: 1,
        buckets: Vec::new(alloc),
    })
}

fn onward(alloc: Global) -> Result<Message, AllocError>
    ensures { IfOk result IsLawfulMessage }
{
    Ok(Message::Flow(FlowMod {
        xid: 8,
        cookie: 0,
        table: 0,
        command: FlowCommand::Add,
        priority: 30,
        matching: UNTAGGED,
        actions: vec![in alloc;
            Action::PushVlan,
            Action::SetVlan(0x1005),
            Action::Output(0xffff_fffd),
        ]?,
        goto: Some(1),
    }))
}

fn arrive(alloc: Global) -> Result<Message, AllocError>
    ensures { IfOk result IsLawfulMessage }
{
    Ok(Message::Flow(FlowMod {
        xid: 9,
        cookie: 0,
        table: 1,
        command: FlowCommand::Add,
        priority: 1,
        matching: Match {
            vlan: Some(0x1005),
            ..ANY
        },
        actions: vec![in alloc; Action::PopVlan, Action::Output(3)]?,
        goto: None,
    }))
}

fn message(alloc: Global, step: Step) -> Result<Message, AllocError>
    ensures { IfOk result IsLawfulMessage }
{
    match step {
        Step::Back => back(alloc),
        Step::Out => out(alloc),
        Step::ToItself => to_itself(alloc),
        Step::ToGroup => to_group(alloc),
        Step::AddGroup => add_group(alloc),
        Step::ModifyGroup => modify_group(alloc),
        Step::DeleteGroup => Ok(delete_group(alloc)),
        Step::Onward => onward(alloc),
        Step::Arrive => arrive(alloc),
    }
}

// The packet whose other numbers are 0, at a port.
fn at(port: u32, vlan: Option<u16>) -> Tagged
    requires { IfSome vlan (λ t. t < 2 ^ 12) }
{
    Tagged {
        packet: Packet::zero().with(Field::Port, u64::from(port)),
        vlan,
    }
}

// Whether tables to which these messages were applied send this for a packet that arrives at port 1.
fn sends(alloc: Global, steps: &[Step], wanted: &[Sent]) -> Result<bool, AllocError> {
    let mut tables = Tables::empty(alloc);
    for step in steps {
        tables.apply(alloc, &message(alloc, *step)?)?;
    }
    let sent = hop(alloc, &tables, &at(1, None))?;
    Ok(sent.as_slice() == wanted)
}

#[test]
fn switches_send_what_the_standard_says(rt: HostRuntime) -> Result<(), Fail> {
    use Step::{AddGroup, Arrive, Back, DeleteGroup, ModifyGroup, Onward, Out, ToGroup, ToItself};
    let alloc = rt.alloc();
    let back = Sent::Port(at(1, None));
    let out = Sent::Port(at(2, None));
    let tagged = Sent::Port(at(2, Some(2)));
    let third = Sent::Port(at(3, None));
    let fourth = Sent::Port(at(4, None));
    let reported = Sent::Controller(at(1, Some(5)));

    assert!(rt; sends(alloc, &[Back], &[back])?);
    assert!(rt; sends(alloc, &[ToItself], &[])?);
    // An Add takes the place of an entry.
    assert!(rt; sends(alloc, &[Back, Out], &[out])?);
    // Of equal priorities the one added first is taken.
    assert!(rt; sends(alloc, &[Back, ToItself], &[back])?);
    assert!(rt; sends(alloc, &[ToItself, Back], &[])?);
    // Neither changes anything where the group isn't there.
    assert!(rt; sends(alloc, &[ModifyGroup, ToGroup], &[])?);
    assert!(rt; sends(alloc, &[AddGroup, ToGroup], &[tagged, third])?);
    assert!(rt; sends(alloc, &[AddGroup, ModifyGroup, ToGroup], &[fourth])?);
    // A group takes along the entries that name it.
    assert!(rt; sends(alloc, &[AddGroup, Back, ToGroup, DeleteGroup], &[back])?);
    assert!(rt; sends(alloc, &[Onward, Arrive], &[third, reported])?);
    Ok(())
}
