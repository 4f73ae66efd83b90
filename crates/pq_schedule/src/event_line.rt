ghost use Rattle.std.specs.Prelude.{◌≡◌, ◌∷◌, IfSome, option_copied};
ghost use Rattle.std.specs.Str.{byte};
ghost use Rattle.pq_term.specs.Groups.{parts_in};
ghost use Rattle.pq_model.specs.Events.{IsEvent};
ghost use Rattle.pq_schedule.specs.Lines.{event_in, event_of, place_in};

use crate::injection::injected;
use pq_model::Event;
use pq_term::{cut_at, decimal_value};

/// The most bytes of a line, with its line feed.
const LINE_LIMIT: usize = 1024;

/// The verbs that lines begin with.
const INJECT: &[u8] = b"inject";

const HOP: &[u8] = b"hop";

const LOSE: &[u8] = b"lose";

/// The place that the words after `hop` or `lose` name: one number.
#[tactic(auto, using(crate::proofs::Places::more_words))]
fn place_value(words: Option<&[u8]>) -> Option<u64>
    ensures { result ≡ place_in (parts_in (byte " ") (option_copied words.entry)) }
{
    match cut_at(b' ', words?) {
        (place, None) => decimal_value(u64::MAX, place),
        (_, Some(_)) => None,
    }
}

/// The event that a verb and the words after it are.
fn event_in(verb: &[u8], words: Option<&[u8]>) -> Option<Event>
    ensures value { result ≡ event_in (verb.now ∷ parts_in (byte " ") (option_copied words.entry)) }
    ensures may_happen { IfSome result IsEvent }
{
    if verb == INJECT {
        Some(Event::Inject(injected(words)?))
    } else if verb == HOP {
        Some(Event::Hop(place_value(words)?))
    } else if verb == LOSE {
        Some(Event::Lose(place_value(words)?))
    } else {
        None
    }
}

/// The event that a line of a schedule is, given without its line feed; `None` where it is none.
///
/// The line is `inject D P`, `hop K` or `lose K`, its words parted by one space, and has at most 1,024 bytes with
/// its line feed. D and K are decimal numbers of 64 bits without leading zeros, and P one from 1 to 4294967040.
/// After `inject D P` are statements: `vlan=V` with V up to 4095, and `f=v` for the fields from `eth_type` to
/// `ipv6_dst`, each at most once and in this order. v is a decimal number that fits the field, a MAC address in
/// either case, an IPv4 address, or an IPv6 address of eight groups of lower-case digits without leading zeros.
/// Fields that are not stated are 0.
pub fn event_of_line(line: &[u8]) -> Option<Event>
    ensures value { result ≡ event_of line.now }
    ensures may_happen { IfSome result IsEvent }
{
    if line.len() >= LINE_LIMIT {
        return None;
    }
    let (verb, words) = cut_at(b' ', line);
    event_in(verb, words)
}
