use pq_command::*;
use pq_io::{MemorySink, MemorySource};
use std::alloc::{AllocError, Global};
use std::test::Fail;

/// What the program answers to these words and this input, and what it writes.
fn answer(alloc: Global, text: &str, input: &[u8]) -> Result<(Outcome, Vec<u8>), AllocError> {
    let mut words = Vec::new(alloc);
    for word in text.split(' ') {
        words.push(String::from_str(alloc, word)?)?;
    }
    let mut source = MemorySource::new(Vec::from_slice(alloc, input)?, Vec::new(alloc));
    let mut sink = MemorySink::new(alloc, Vec::new(alloc), 0, 100_000)?;
    let outcome = run(alloc, &words, &mut source, &mut sink);
    Ok((outcome, Vec::from_slice(alloc, sink.put())?))
}

#[test]
fn each_command_writes_its_text_twice(rt: HostRuntime) -> Result<(), Fail> {
    let alloc = rt.alloc();
    for (words, input, expected, text) in [
        (
            "summary",
            "switch s1 = 1 ports 1, 2; part a = filter(port=1) >> fwd(2);",
            Outcome::Done,
            "switches 1\nports 2\nlinks 0\nparts 1\nqueries 0\ninstances 0\nclasses 2\n\
                entries 5\ngroups 0\nmessages 10\nbytes 586\n",
        ),
        ("summary", "part a = fwd(1)", Outcome::Syntax { at: 15 }, ""),
        (
            "summary 2",
            "part a = fwd(1)",
            Outcome::Done,
            "switches 2\nports 6\nlinks 1\nparts 2\nqueries 2\ninstances 2\nclasses 8\n\
                entries 512\ngroups 8\nmessages 530\nbytes 45628\n",
        ),
        (
            "summary 8",
            "",
            Outcome::Done,
            "switches 8\nports 24\nlinks 7\nparts 8\nqueries 2\ninstances 2\nclasses 8\n\
                entries 2858\ngroups 32\nmessages 2930\nbytes 266056\n",
        ),
        (
            "generate 2",
            "",
            Outcome::Done,
            "switch s1 = 1 ports 1, 2, 3;\n\
                switch s2 = 2 ports 1, 2, 3;\n\
                link s1 2 s2 1;\n\
                part p1 = filter(ipv4_dst=10.0.1.0/24) >> (filter(switch=s1) >> fwd(3) + filter(switch=s2) >> fwd(1));\n\
                part p2 = filter(ipv4_dst=10.0.2.0/24) >> (filter(switch=s1) >> fwd(2) + filter(switch=s2) >> fwd(3));\n\
                query q1 = in_atom(switch=s1) ^ in_atom(true)* ^ in_atom(switch=s2);\n\
                query q2 = in_atom(true)* ^ out_atom(port=3);\n",
        ),
    ] {
        let (outcome, output) = answer(alloc, words, input.as_bytes())?;
        let (_, again) = answer(alloc, words, input.as_bytes())?;
        assert_eq!(rt; outcome, expected, "{words}");
        assert_eq!(rt; output.as_slice(), text.as_bytes(), "{words}");
        assert_eq!(rt; again.as_slice(), text.as_bytes(), "{words}");
    }
    Ok(())
}

#[test]
fn a_generated_document_compiles(rt: HostRuntime) -> Result<(), Fail> {
    let alloc = rt.alloc();
    let (_, document) = answer(alloc, "generate 2", b"")?;
    let (outcome, install) = answer(alloc, "compile", &document)?;
    assert_eq!(rt; outcome, Outcome::Done);
    assert_eq!(rt; install.len(), 45_628);
    Ok(())
}

#[test]
fn sizes_are_decimal_numbers_from_2_to_64(rt: HostRuntime) -> Result<(), Fail> {
    let alloc = rt.alloc();
    for words in [
        "generate",
        "generate 1",
        "generate 65",
        "generate 08",
        "generate +8",
        "generate 0x8",
        "generate 8 8",
        "generate 18446744073709551618",
        "summary 1",
        "summary 65",
        "summary ",
        "compile 8",
    ] {
        let (outcome, output) = answer(alloc, words, b"")?;
        assert_eq!(rt; outcome.code(), 2, "{words}");
        assert_eq!(rt; output.len(), 0, "{words}");
    }
    Ok(())
}
