ghost use Rattle.std.specs.Prelude.{◌≡◌, ◌++◌, IfOk, codes, decimal};
ghost use Rattle.std.specs.String.{string_bytes};
ghost use Rattle.pq_fields.specs.Names.{field_name};
ghost use Rattle.pq_command.specs.Outcomes.{code_of, kind_word, line_of, reason_line, talk_line};

use pq_fields::Field;
use pq_speaker::{Reason, Talk};
use pq_topo::NameKind;
use std::alloc::{AllocError, Global};
use std::fmt::Write;

/// How a command ended.
#[derive(Clone, Copy, Debug, PartialEq, Eq)]
pub enum Outcome {
    /// The input was read to its end, and the whole output was written.
    Done,
    /// The words name no command.
    Words,
    /// A read failed.
    ReadFault,
    /// The document, or a piece of a session, has more than 524,288 bytes, or the input of another command more than 268,435,456.
    TooLong,
    /// What begins at this byte of a document is not a token.
    Lex {
        at: usize,
    },
    /// The tokens of a document are not sentence: the first one with which no prefix of a sentence ends begins at this
    /// byte, or the document ends here and all of them are a prefix of a sentence. Or a line of a schedule is not an event;
    /// its first byte is at this place of the input. Or the first line of what `speak` reads is not a length.
    Syntax {
        at: usize,
    },
    /// The first faulty token of a document begins at this byte, and this is the first naming rule that it breaks.
    Name {
        at: usize,
        kind: NameKind,
    },
    /// The first field, in field order, of which a document states more numbers than its limit, and how many it states.
    ValuesFull {
        field: Field,
        count: u64,
    },
    /// The queries of a document have this many instances, more than 1,024; 4,294,967,295 stands for all greater numbers.
    InstancesFull {
        count: u32,
    },
    /// The queries of a document tell this many classes of words apart, more than 4,094.
    TagWidth {
        classes: u64,
    },
    /// The first table, by switch and then by table, with more entries than the switch's limit, and how many it has;
    /// 18,446,744,073,709,551,615 stands for all greater numbers.
    TableFull {
        switch: u64,
        table: u8,
        entries: u64,
    },
    /// The first entry with more than 256 copies has this many; no table has too many entries.
    GroupFull {
        switch: u64,
        copies: u64,
    },
    /// The input begins with no install; the first unit that is missing, cut or unlawful begins at this place. Or an install
    /// that ends here has another length than it is to have.
    Damaged {
        at: usize,
    },
    /// The install has no switch with the datapath number that was asked for.
    NoSwitch,
    /// The last message to the switch is no barrier whose xid no other message to it has.
    NoBarrier,
    /// The session with the switch ended before all was installed, and this is how far it was.
    Speaking {
        talk: Talk,
    },
    /// The session has more than 10,000 pieces.
    SessionFull,
    /// The schedule has more than 100,000 events.
    ScheduleFull,
    /// A write failed.
    WriteFault,
    /// Memory ran out.
    Memory,
}

/// What the program calls a naming rule.
fn kind_word(kind: NameKind) -> &'static str
    ensures { result.now ≡ kind_word kind }
{
    match kind {
        NameKind::Many => "many",
        NameKind::Doubled => "doubled",
        NameKind::BadValue => "bad_value",
        NameKind::UnknownSwitch => "unknown_switch",
        NameKind::UnknownPort => "unknown_port",
        NameKind::UnknownField => "unknown_field",
        NameKind::NotWritable => "not_writable",
        NameKind::NotListed => "not_listed",
        NameKind::UnknownPart => "unknown_part",
        NameKind::UnknownQuery => "unknown_query",
    }
}

/// What the program says of a token that breaks a naming rule.
fn name_line(alloc: Global, at: usize, kind: NameKind) -> Result<String, AllocError>
    ensures { IfOk result (λ line. string_bytes line ≡ line_of (Outcome.Name at kind)) }
{
    let mut line = format!(in alloc; "name {at}")?;
    line.push_str(" ")?;
    line.push_str(kind_word(kind))?;
    Ok(line)
}

/// What the program calls a field.
fn field_word(field: Field) -> &'static str
    ensures { result.now ≡ field_name field }
{
    match field {
        Field::Switch => "switch",
        Field::Port => "port",
        Field::EthType => "eth_type",
        Field::IpProto => "ip_proto",
        Field::EthSrc => "eth_src",
        Field::EthDst => "eth_dst",
        Field::Ipv4Src => "ipv4_src",
        Field::Ipv4Dst => "ipv4_dst",
        Field::TcpSrc => "tcp_src",
        Field::TcpDst => "tcp_dst",
        Field::UdpSrc => "udp_src",
        Field::UdpDst => "udp_dst",
        Field::Ipv6Src => "ipv6_src",
        Field::Ipv6Dst => "ipv6_dst",
    }
}

/// What the program says of a field with too many stated values.
fn values_line(alloc: Global, field: Field, count: u64) -> Result<String, AllocError>
    ensures { IfOk result (λ line. string_bytes line ≡ line_of (Outcome.ValuesFull field count)) }
{
    let mut line = String::from_str(alloc, "values full ")?;
    line.push_str(field_word(field))?;
    write!(line, " {count}")?;
    Ok(line)
}

/// What the program says of a table with too many entries.
fn table_line(alloc: Global, switch: u64, table: u8, entries: u64) -> Result<String, AllocError>
    ensures { IfOk result (λ line. string_bytes line ≡ line_of (Outcome.TableFull switch table entries)) }
{
    let mut line = format!(in alloc; "table full {switch}")?;
    line.push_str(" ")?;
    write!(line, "{table}")?;
    line.push_str(" ")?;
    write!(line, "{entries}")?;
    Ok(line)
}

/// What the program says of an entry with too many copies.
fn group_line(alloc: Global, switch: u64, copies: u64) -> Result<String, AllocError>
    ensures { IfOk result (λ line. string_bytes line ≡ line_of (Outcome.GroupFull switch copies)) }
{
    let mut line = format!(in alloc; "group full {switch}")?;
    line.push_str(" ")?;
    write!(line, "{copies}")?;
    Ok(line)
}

/// What the program says of two numbers.
fn pair_line(alloc: Global, what: &str, first: u16, second: u16) -> Result<String, AllocError>
    ensures { IfOk result (λ line. string_bytes line ≡ what.now ++ decimal first ++ codes " " ++ decimal second) }
{
    let mut line = String::from_str(alloc, what)?;
    write!(line, "{first}")?;
    line.push_str(" ")?;
    write!(line, "{second}")?;
    Ok(line)
}

/// What the program says of the reason why a session failed.
fn reason_line(alloc: Global, reason: Reason) -> Result<String, AllocError>
    ensures { IfOk result (λ line. string_bytes line ≡ reason_line reason) }
{
    match reason {
        Reason::BadVersion { version } => format!(in alloc; "bad version {version}"),
        Reason::BadLength { length } => format!(in alloc; "bad length {length}"),
        Reason::OtherSwitch { datapath } => format!(in alloc; "other switch {datapath}"),
        Reason::SwitchError { kind, code } => pair_line(alloc, "switch error ", kind, code),
    }
}

/// What the program says of how far a session is.
fn talk_line(alloc: Global, talk: Talk) -> Result<String, AllocError>
    ensures { IfOk result (λ line. string_bytes line ≡ talk_line talk) }
{
    match talk {
        Talk::Greeting => String::from_str(alloc, "greeting"),
        Talk::Asking => String::from_str(alloc, "asking"),
        Talk::Installing => String::from_str(alloc, "installing"),
        Talk::Installed => String::from_str(alloc, "installed"),
        Talk::Failed(reason) => reason_line(alloc, reason),
    }
}

impl Outcome {
    /// The status that the program ends with.
    pub fn code(&self) -> u8
        ensures { result ≡ code_of self.now }
    {
        match self {
            Outcome::Done => 0,
            Outcome::TooLong | Outcome::Damaged { .. } => 1,
            Outcome::NoSwitch | Outcome::NoBarrier => 1,
            Outcome::Lex { .. } | Outcome::Syntax { .. } | Outcome::Name { .. } => 1,
            Outcome::Words => 2,
            Outcome::ValuesFull { .. } | Outcome::InstancesFull { .. } => 3,
            Outcome::TagWidth { .. } | Outcome::TableFull { .. } => 3,
            Outcome::GroupFull { .. } | Outcome::Speaking { .. } => 3,
            Outcome::SessionFull | Outcome::ScheduleFull => 3,
            Outcome::ReadFault => 4,
            Outcome::WriteFault => 5,
            Outcome::Memory => 6,
        }
    }

    /// What the program says on standard error; nothing where it is empty.
    pub fn line(&self, alloc: Global) -> Result<String, AllocError>
        ensures { IfOk result (λ line. string_bytes line ≡ line_of self.now) }
    {
        match self {
            Outcome::Done => String::from_str(alloc, ""),
            Outcome::Words => String::from_str(alloc, "words"),
            Outcome::ReadFault => String::from_str(alloc, "read fault"),
            Outcome::TooLong => String::from_str(alloc, "too long"),
            Outcome::Lex { at } => format!(in alloc; "lex {at}"),
            Outcome::Syntax { at } => format!(in alloc; "syntax {at}"),
            Outcome::Name { at, kind } => name_line(alloc, *at, *kind),
            Outcome::ValuesFull { field, count } => values_line(alloc, *field, *count),
            Outcome::InstancesFull { count } => format!(in alloc; "instances full {count}"),
            Outcome::TagWidth { classes } => format!(in alloc; "tag width {classes}"),
            Outcome::TableFull {
                switch,
                table,
                entries,
            } => table_line(alloc, *switch, *table, *entries),
            Outcome::GroupFull { switch, copies } => group_line(alloc, *switch, *copies),
            Outcome::Damaged { at } => format!(in alloc; "damaged {at}"),
            Outcome::NoSwitch => String::from_str(alloc, "no switch"),
            Outcome::NoBarrier => String::from_str(alloc, "no barrier"),
            Outcome::Speaking { talk } => talk_line(alloc, *talk),
            Outcome::SessionFull => String::from_str(alloc, "session full"),
            Outcome::ScheduleFull => String::from_str(alloc, "schedule full"),
            Outcome::WriteFault => String::from_str(alloc, "write fault"),
            Outcome::Memory => String::from_str(alloc, "memory"),
        }
    }
}
