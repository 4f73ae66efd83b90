#![tactic(auto, unfolding(pq_model::specs::Spelling::message_bytes, pq_model::specs::Spelling::with_header, pq_model::specs::Spelling::flow_body, pq_model::specs::Spelling::group_body, pq_model::specs::Spelling::bucket_bytes, pq_model::specs::Spelling::match_bytes, pq_model::specs::Spelling::match_oxms, pq_model::specs::Spelling::apply_bytes, pq_model::specs::Spelling::action_bytes, pq_model::specs::Spelling::goto_bytes))]

ghost use Rattle.std.specs.Prelude.{IfOk};
ghost use Rattle.pq_model.specs.Lawful.{IsLawfulMessage};

use pq_flowmod::*;
use pq_oxm::Match;
use std::alloc::{AllocError, Global};
use std::fmt::Write;
use std::test::Fail;

// The match that states no field.
const ANY: Match = Match {
    in_port: None,
    vlan: None,
    eth_type: None,
    ip_proto: None,
    eth_src: None,
    eth_dst: None,
    ipv4_src: None,
    ipv4_dst: None,
    tcp_src: None,
    tcp_dst: None,
    udp_src: None,
    udp_dst: None,
    ipv6_src: None,
    ipv6_dst: None,
};

// Packets without a VLAN header from port 1.
const UNTAGGED: Match = Match {
    in_port: Some(1),
    vlan: Some(0),
    ..ANY
};

// The messages that are spelled.
#[derive(Clone, Copy)]
enum Case {
    DeleteEntries,
    DeleteGroups,
    Barrier,
    Forward,
    Tag,
    Spread,
}

fn delete_entries(alloc: Global) -> Message
    ensures { IsLawfulMessage result }
{
    Message::Flow(FlowMod {
        xid: 1,
        cookie: 0,
        table: 0xff,
        command: FlowCommand::DeleteAll,
        priority: 0,
        matching: ANY,
        actions: Vec::new(alloc),
        goto: None,
    })
}

fn delete_groups(alloc: Global) -> Message
    ensures { IsLawfulMessage result }
{
    Message::Group(GroupMod {
        xid: 2,
        command: GroupCommand::Delete,
        group: 0xffff_fffc,
        buckets: Vec::new(alloc),
    })
}

fn forward(alloc: Global) -> Result<Message, AllocError>
    ensures { IfOk result IsLawfulMessage }
{
    Ok(Message::Flow(FlowMod {
        xid: 5,
        cookie: 0,
        table: 0,
        command: FlowCommand::Add,
        priority: 0xffff,
        matching: UNTAGGED,
        actions: vec![in alloc; Action::Output(2)]?,
        goto: None,
    }))
}

fn tag(alloc: Global) -> Result<Message, AllocError>
    ensures { IfOk result IsLawfulMessage }
{
    Ok(Message::Flow(FlowMod {
        xid: 5,
        cookie: 0,
        table: 0,
        command: FlowCommand::Add,
        priority: 0xffff,
        matching: UNTAGGED,
        actions: vec![in alloc; Action::PushVlan, Action::SetVlan(0x1002)]?,
        goto: Some(1),
    }))
}

fn spread(alloc: Global) -> Result<Message, AllocError>
    ensures { IfOk result IsLawfulMessage }
{
    let second = vec![in alloc; Action::PopVlan, Action::Output(2)]?;
    let third = vec![in alloc; Action::PopVlan, Action::Output(3)]?;
    Ok(Message::Group(GroupMod {
        xid: 4,
        command: GroupCommand::Add,
        group: 1,
        buckets: vec![in alloc; second, third]?,
    }))
}

fn message(alloc: Global, case: Case) -> Result<Message, AllocError>
    ensures { IfOk result IsLawfulMessage }
{
    match case {
        Case::DeleteEntries => Ok(delete_entries(alloc)),
        Case::DeleteGroups => Ok(delete_groups(alloc)),
        Case::Barrier => Ok(Message::Barrier { xid: 3 }),
        Case::Forward => forward(alloc),
        Case::Tag => tag(alloc),
        Case::Spread => spread(alloc),
    }
}

/// Two lower-case digits for each byte.
fn hexadecimal(alloc: Global, bytes: &[u8]) -> Result<String, AllocError> {
    let mut text = String::new(alloc);
    for byte in bytes {
        write!(text, "{byte:02x}")?;
    }
    Ok(text)
}

#[test]
fn messages_are_spelled_as_openflow_says(rt: HostRuntime) -> Result<(), Fail> {
    let alloc = rt.alloc();
    for (case, expected) in [
        (
            Case::DeleteEntries,
            "040e00380000000100000000000000000000000000000000ff03000000000000\
             ffffffffffffffffffffffff000000000001000400000000",
        ),
        (Case::DeleteGroups, "040f00100000000200020000fffffffc"),
        (Case::Barrier, "0414000800000003"),
        (
            Case::Forward,
            "040e00600000000500000000000000000000000000000000000000000000ffff\
             ffffffffffffffffffffffff0000000000010012800000040000000180000c02\
             0000000000000000000400180000000000000010000000020000000000000000",
        ),
        (
            Case::Tag,
            "040e00700000000500000000000000000000000000000000000000000000ffff\
             ffffffffffffffffffffffff0000000000010012800000040000000180000c02\
             0000000000000000000400200000000000110008810000000019001080000c02\
             10020000000000000001000801000000",
        ),
        (
            Case::Spread,
            "040f006000000004000000000000000100280000ffffffffffffffff00000000\
             00120008000000000000001000000002000000000000000000280000ffffffff\
             ffffffff00000000001200080000000000000010000000030000000000000000",
        ),
    ] {
        let message = message(alloc, case)?;
        let mut bytes = Vec::new(alloc);
        write_message(alloc, &message, &mut bytes)?;
        assert_eq!(rt; hexadecimal(alloc, &bytes)?.as_str(), expected);
    }
    Ok(())
}
