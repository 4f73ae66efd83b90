use pq_io::{Failed, MemorySink, MemorySource, Sink, Source, StreamSink, StreamSource};
use std::io::{ErrorKind, Read, Write};
use std::test::Fail;
use std::{cmp, io};

// A reader of which each second call is interrupted.
#[derive(Drop)]
struct Stuttering<'a> {
    bytes: &'a [u8],
    is_interrupted: bool,
}

impl Read for Stuttering<'_> {
    fn read(&mut self, buf: &mut [u8]) -> io::Result<usize> {
        if self.is_interrupted {
            self.is_interrupted = false;
            return Err(ErrorKind::Interrupted.into());
        }
        self.is_interrupted = true;
        self.bytes.read(buf)
    }
}

// A writer that takes two bytes a call, up to its room, and can be flushed a few times.
#[derive(Drop)]
struct Narrow {
    taken: Vec<u8>,
    room: usize,
    flushes: u8,
}

impl Write for Narrow {
    fn write(&mut self, buf: &[u8]) -> io::Result<usize> {
        let count = cmp::min(2, cmp::min(self.room, buf.len()));
        self.taken.extend_from_slice(&buf[..count])?;
        self.room -= count;
        Ok(count)
    }

    fn flush(&mut self) -> io::Result<()> {
        if self.flushes == 0 {
            return Err(ErrorKind::BrokenPipe.into());
        }
        self.flushes -= 1;
        Ok(())
    }
}

fn next<S: Source>(source: &mut S, into: &mut [u8]) -> Result<usize, Failed> {
    source.read(into)
}

fn put<S: Sink>(sink: &mut S, piece: &[u8]) -> Result<(), Failed> {
    sink.write(piece)
}

#[test]
fn reads_from_memory(rt: HostRuntime) -> Result<(), Fail> {
    let bytes = vec![in rt.alloc(); b'h', b'e', b'l', b'l', b'o']?;
    let failing = vec![in rt.alloc(); 2, 4]?;
    let mut source = MemorySource::new(bytes, failing);
    let mut into = *b"...";
    assert_eq!(rt; next(&mut source, &mut into), Ok(3));
    assert_eq!(rt; &into, b"hel");
    assert_eq!(rt; next(&mut source, &mut into), Err(Failed));
    assert_eq!(rt; &into, b"hel");
    assert_eq!(rt; next(&mut source, &mut into), Ok(2));
    assert_eq!(rt; &into, b"lol");
    assert_eq!(rt; next(&mut source, &mut into), Err(Failed));
    assert_eq!(rt; next(&mut source, &mut into), Ok(0));
    Ok(())
}

#[test]
fn writes_to_memory(rt: HostRuntime) -> Result<(), Fail> {
    let failing = vec![in rt.alloc(); 2]?;
    let mut sink = MemorySink::new(rt.alloc(), failing, 2, 8)?;
    assert_eq!(rt; put(&mut sink, b"abc"), Ok(()));
    assert_eq!(rt; put(&mut sink, b"xyz"), Err(Failed));
    assert_eq!(rt; sink.put(), b"abcxy".as_slice());
    assert_eq!(rt; put(&mut sink, b"long"), Err(Failed));
    assert_eq!(rt; put(&mut sink, b"!"), Ok(()));
    assert_eq!(rt; put(&mut sink, b"?"), Err(Failed));
    assert_eq!(rt; sink.put(), b"abcxylo!".as_slice());
    Ok(())
}

#[test]
fn reads_from_a_reader(rt: HostRuntime) {
    let mut source = StreamSource::new(Stuttering {
        bytes: b"hello",
        is_interrupted: false,
    });
    let mut into = *b"...";
    assert_eq!(rt; next(&mut source, &mut into), Ok(3));
    assert_eq!(rt; &into, b"hel");
    assert_eq!(rt; next(&mut source, &mut into), Err(Failed));
    assert_eq!(rt; next(&mut source, &mut into), Ok(2));
    assert_eq!(rt; &into, b"lol");
    assert_eq!(rt; next(&mut source, &mut into), Err(Failed));
    assert_eq!(rt; next(&mut source, &mut into), Ok(0));
}

#[test]
fn writes_to_a_writer(rt: HostRuntime) {
    let mut writer = Narrow {
        taken: Vec::new(rt.alloc()),
        room: 8,
        flushes: 1,
    };
    let mut sink = StreamSink::new(&mut writer);
    assert_eq!(rt; put(&mut sink, b"abcde"), Ok(()));
    assert_eq!(rt; put(&mut sink, b"f"), Err(Failed));
    assert_eq!(rt; put(&mut sink, b"ghi"), Err(Failed));
    assert_eq!(rt; writer.taken.as_slice(), b"abcdefgh".as_slice());
}
