ghost use Rattle.std.specs.Prelude.{◌≡◌, ◌≤◌, length};
ghost use Rattle.pq_speaker.specs.Division.{header_of};

use pq_oxm::{u16_of, u32_of};

/// The version of OpenFlow 1.3.
pub const VERSION: u8 = 4;

/// The size of a header in bytes.
pub const HEADER_SIZE: usize = 8;

pub const HELLO: u8 = 0;

pub const ERROR: u8 = 1;

pub const ECHO_REQUEST: u8 = 2;

pub const ECHO_REPLY: u8 = 3;

pub const FEATURES_REQUEST: u8 = 5;

pub const FEATURES_REPLY: u8 = 6;

pub const BARRIER_REPLY: u8 = 21;

/// The header that begins each message (OpenFlow 1.3.5, section 7.1).
#[derive(Clone, Copy, Debug, PartialEq, Eq)]
pub struct Header {
    pub version: u8,
    /// The message's type.
    pub kind: u8,
    /// The size of the whole message in bytes.
    pub length: u16,
    pub xid: u32,
}

/// The header that begins these bytes.
pub fn header_of(bytes: &[u8]) -> Header
    requires { 8 ≤ length bytes.now }
    ensures { result ≡ header_of bytes.now }
{
    Header {
        version: bytes[0],
        kind: bytes[1],
        length: u16_of(&bytes[2..4]),
        xid: u32_of(&bytes[4..8]),
    }
}
