use pq_command::*;
use pq_io::{MemorySink, MemorySource};
use std::alloc::{AllocError, Global};
use std::test::Fail;

// Neither a switch nor a link, a query, a row of the report or a list.
const NOTHING: [u8; 12] = [80, 81, 73, 50, 0, 0, 0, 0, 0, 0, 0, 0];

/// What `inspect` comes to on these bytes and what it writes of them.
fn inspected(alloc: Global, bytes: &[u8]) -> Result<(Outcome, Vec<u8>), AllocError> {
    let mut words = Vec::new(alloc);
    words.push(String::from_str(alloc, "inspect")?)?;
    let mut source = MemorySource::new(Vec::from_slice(alloc, bytes)?, Vec::new(alloc));
    let mut sink = MemorySink::new(alloc, Vec::new(alloc), 0, 4096)?;
    let outcome = run(alloc, &words, &mut source, &mut sink);
    Ok((outcome, Vec::from_slice(alloc, sink.put())?))
}

#[test]
fn an_install_alone_is_shown(rt: HostRuntime) -> Result<(), Fail> {
    let alloc = rt.alloc();
    let (outcome, written) = inspected(alloc, &NOTHING)?;
    let expected = "{\"links\":[],\"queries\":[],\"report\":[],\"switches\":[]}\n";
    assert_eq!(rt; outcome, Outcome::Done);
    assert_eq!(rt; written.as_slice(), expected.as_bytes());
    Ok(())
}

#[test]
fn a_byte_more_or_less_is_damage(rt: HostRuntime) -> Result<(), Fail> {
    let alloc = rt.alloc();
    let cases: [(&str, &[u8], usize); 5] = [
        ("nothing at all", &[], 0),
        ("a cut magic", &NOTHING[..3], 0),
        ("a magic alone", &NOTHING[..4], 4),
        ("a cut count of lists", &NOTHING[..11], 10),
        (
            "a byte behind",
            &[80, 81, 73, 50, 0, 0, 0, 0, 0, 0, 0, 0, 0],
            12,
        ),
    ];
    for (what, bytes, at) in cases {
        let (outcome, written) = inspected(alloc, bytes)?;
        assert_eq!(rt; outcome, Outcome::Damaged { at }, "{what}");
        assert_eq!(rt; written.len(), 0);
    }
    Ok(())
}
