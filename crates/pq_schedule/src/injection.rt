//! The packet of an `inject` line.
ghost use Rattle.std.specs.Prelude.{◌≡◌, ◌<◌, ◌^◌, IfSome, option_and_then, option_copied, option_map};
ghost use Rattle.std.specs.Str.{byte};
ghost use Rattle.pq_term.specs.Groups.{parts_in};
ghost use Rattle.pq_schedule.specs.Lines.{
  injected,
  key_number,
  packet_at,
  port_of,
  statements_of,
  with_key,
  with_statements,
};
ghost use Rattle.pq_schedule.specs.Stated.{stated_by, stated_under};

use crate::key::Key;
use crate::values::with_field;
use pq_fields::{Field, Packet};
use pq_model::{LAST_PORT, Tagged};
use pq_term::{cut_at, decimal_value};

/// The greatest VLAN number.
const LAST_VLAN: u64 = 4095;

/// A packet of which some numbers are stated.
#[derive(Clone, Copy)]
struct Stated {
    packet: Tagged,
    /// The least place of a key that may be stated next.
    next: u8,
}

impl Stated {
    /// The packet with what one more word states of it; `None` where the word is not a statement, or its key does not
    /// are after those before it.
    fn with_word(self, word: &[u8]) -> Option<Stated>
        ensures { result ≡ stated_by self word.now }
    {
        let (name, value) = cut_at(b'=', word);
        self.with_text(Key::named(name)?, value?)
    }

    /// The packet with the number that a text states under one more key.
    fn with_text(self, key: Key, text: &[u8]) -> Option<Stated>
        ensures { result ≡ stated_under self (Some key) (Some text.now) }
    {
        if key.place() < self.next {
            return None;
        }
        match with_number(self.packet, key, text) {
            Some(packet) => Some(Stated {
                packet,
                next: key.place() + 1,
            }),
            None => None,
        }
    }
}

/// The packet with the number that the text states under the key; `None` where the text states none.
fn with_number(packet: Tagged, key: Key, text: &[u8]) -> Option<Tagged>
    ensures { result ≡ option_map (λ n. with_key key n packet) (key_number key text.now) }
{
    match key {
        Key::Vlan => Some(Tagged {
            packet: packet.packet,
            vlan: Some(decimal_value(LAST_VLAN, text)? as u16),
        }),
        Key::Header(field) => Some(Tagged {
            packet: with_field(packet.packet, field, text)?,
            vlan: packet.vlan,
        }),
    }
}

/// The packet with what the words state of it; `None` where a word is not a statement, or the keys do not ascend.
#[tactic(auto, using(crate::proofs::Statements::stated_is))]
fn with_words(packet: Tagged, words: Option<&[u8]>) -> Option<Tagged>
    ensures { result
        ≡ option_and_then (with_statements packet)
        (statements_of (parts_in (byte " ") (option_copied words.entry))) }
{
    let mut stated = Stated { packet, next: 0 };
    let mut left = words;
    while let Some(text) = left {
        let (word, behind) = cut_at(b' ', text);
        let Some(more) = stated.with_word(word) else {
            return None;
        };
        stated = more;
        left = behind;
    }
    Some(stated.packet)
}

/// The number of a port that OpenFlow does not reserve.
fn port_value(word: &[u8]) -> Option<u64>
    ensures value { result ≡ port_of word.now }
    ensures fits { IfSome result (λ n. n < 2 ^ 32) }
{
    match word {
        b"0" => None,
        _ => decimal_value(u64::from(LAST_PORT), word),
    }
}

/// A packet of which only its switch and its port are stated.
fn packet_at(switch: u64, port: u64) -> Tagged
    requires { port < 2 ^ 32 }
    ensures { result ≡ packet_at switch port }
{
    Tagged {
        packet: Packet::zero()
            .with(Field::Switch, switch)
            .with(Field::Port, port),
        vlan: None,
    }
}

/// The packet that the words after `inject` state, if they state one: a switch, a port, and then what is stated
/// of the packet.
pub(crate) fn injected(words: Option<&[u8]>) -> Option<Tagged>
    ensures { result ≡ injected (parts_in (byte " ") (option_copied words.entry)) }
{
    let (switch, words) = cut_at(b' ', words?);
    let (port, words) = cut_at(b' ', words?);
    let switch = decimal_value(u64::MAX, switch)?;
    let port = port_value(port)?;
    with_words(packet_at(switch, port), words)
}
