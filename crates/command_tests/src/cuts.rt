//! Inputs that come in small pieces.
ghost use Rattle.std.specs.Prelude.{◌<◌};

use crate::replays::push_hexadecimal;
use crate::two_tables::TWO_TABLES;
use pq_command::*;
use pq_io::{MemorySink, MemorySource};
use std::alloc::{AllocError, Global};
use std::test::Fail;

const DOCUMENT: &str = "switch s1 = 1 ports 1, 2; part one = filter(port=1) >> fwd(2);";

const SESSION: &str = "switch s1 = 1 ports 1, 2; part one = filter(port=1) >> fwd(2);\n\
    %%\npart one = fwd(1);\n%%%\n%%\nremove part one;\n%%";

/// What a command answers and writes, where no read gives more than `most` bytes.
fn answer(
    alloc: Global,
    command: &str,
    input: &[u8],
    most: usize,
) -> Result<(Outcome, Vec<u8>), AllocError>
    requires { 0 < most }
{
    let mut words = Vec::new(alloc);
    words.push(String::from_str(alloc, command)?)?;
    let bytes = Vec::from_slice(alloc, input)?;
    let mut source = MemorySource::cut(bytes, Vec::new(alloc), most);
    let mut sink = MemorySink::new(alloc, Vec::new(alloc), 0, 65536)?;
    let outcome = run(alloc, &words, &mut source, &mut sink);
    Ok((outcome, Vec::from_slice(alloc, sink.put())?))
}

/// An install, and a text after it.
fn install_and(alloc: Global, text: &str) -> Result<Vec<u8>, AllocError> {
    let mut bytes = Vec::new(alloc);
    push_hexadecimal(TWO_TABLES, &mut bytes)?;
    bytes.extend_from_slice(text.as_bytes())?;
    Ok(bytes)
}

#[test]
fn no_command_tells_how_its_input_is_cut(rt: HostRuntime) -> Result<(), Fail> {
    let alloc = rt.alloc();
    let install = install_and(alloc, "")?;
    let scheduled = install_and(alloc, "inject 1 1 eth_type=2054\nhop 0\n")?;
    let wrong = install_and(alloc, "inject 1 1 eth_type=2054\nhop x\n")?;
    for (command, input, writes) in [
        ("compile", DOCUMENT.as_bytes(), true),
        ("compile", b"part one = fwd(2)".as_slice(), false),
        ("summary", DOCUMENT.as_bytes(), true),
        ("session", SESSION.as_bytes(), true),
        ("replay", scheduled.as_slice(), true),
        ("replay", wrong.as_slice(), false),
        ("inspect", install.as_slice(), true),
        ("inspect", scheduled.as_slice(), false),
    ] {
        let whole = answer(alloc, command, input, 65536)?;
        assert!(rt; whole.1.is_empty() != writes, "{command}");
        assert!(rt; answer(alloc, command, input, 1)? == whole, "{command}");
        assert!(rt; answer(alloc, command, input, 7)? == whole, "{command}");
    }
    Ok(())
}
