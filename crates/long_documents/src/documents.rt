//! Documents with long lists of operands.
use std::alloc::{AllocError, Global};
use std::fmt::Write;

/// A document in which one operand is many times.
#[derive(Clone, Copy)]
pub struct Repeated {
    pub front: &'static str,
    pub operand: &'static str,
    pub count: u32,
    pub back: &'static str,
}

impl Repeated {
    /// The document with the operand this many times.
    fn times(self, alloc: Global, count: u32) -> Result<String, AllocError> {
        let mut text = String::from_str(alloc, self.front)?;
        for _ in 0..count {
            text.push_str(self.operand)?;
        }
        text.push_str(self.back)?;
        Ok(text)
    }

    /// The whole document.
    pub(crate) fn long(self, alloc: Global) -> Result<String, AllocError> {
        self.times(alloc, self.count)
    }

    /// The document without the repeated operand.
    pub(crate) fn short(self, alloc: Global) -> Result<String, AllocError> {
        self.times(alloc, 0)
    }
}

/// A document that tests many numbers of each field, so that a path of its diagram has a test for each.
#[derive(Clone, Copy)]
pub struct Values {
    /// Whether it tests the bits of addresses, too.
    pub addresses: bool,
    /// Whether the greatest number is first.
    pub descending: bool,
}

impl Values {
    /// The document.
    pub(crate) fn text(self, alloc: Global) -> Result<String, AllocError> {
        let mut text = String::from_str(alloc, "switch s1 = 1 ports 1, 2 limit 16384;")?;
        for number in 2..257u32 {
            write!(text, " switch s{number} = {number} ports 1;")?;
        }
        text.push_str(" part a = filter(port=1")?;
        self.push_switches(&mut text)?;
        for (field, count) in [
            ("port", 512),
            ("eth_type", 255),
            ("ip_proto", 6),
            ("tcp_src", 512),
            ("tcp_dst", 512),
        ] {
            self.push_numbers(&mut text, field, count)?;
        }
        for field in ["eth_src", "eth_dst"] {
            self.push_addresses(&mut text, field)?;
        }
        if self.addresses {
            text.push_str(" or ipv4_src=10.0.0.1 or ipv4_dst=10.0.0.1")?;
        }
        text.push_str(") >> fwd(2);")?;
        Ok(text)
    }

    /// The number at a place among this many.
    fn number(self, place: u32, count: u32) -> u32 {
        if self.descending {
            count.saturating_sub(place)
        } else {
            place.saturating_add(1)
        }
    }

    /// Appends tests of all switches but the first.
    fn push_switches(self, text: &mut String) -> Result<(), AllocError> {
        for place in 0..255 {
            let number = self.number(place, 255).saturating_add(1);
            write!(text, " or switch=s{number}")?;
        }
        Ok(())
    }

    /// Appends tests of a field with the numbers from 1 to the count.
    fn push_numbers(self, text: &mut String, field: &str, count: u32) -> Result<(), AllocError> {
        for place in 0..count {
            write!(text, " or {field}={}", self.number(place, count))?;
        }
        Ok(())
    }

    /// Appends tests of a field with 1,024 Ethernet addresses.
    fn push_addresses(self, text: &mut String, field: &str) -> Result<(), AllocError> {
        for place in 0..1024 {
            let number = self.number(place, 1024);
            let (high, low) = (number / 256, number % 256);
            write!(text, " or {field}=00:00:00:00:{high:02x}:{low:02x}")?;
        }
        Ok(())
    }
}
