//! The ends of bytes: of memory, of a reader and a writer, and those that never fail.

use byte_ends::{
    Failed, MemSink, MemSource, Sink, Source, StdSink, StdSource, SureSink, SureSource,
};
use std::io::{self, ErrorKind, Read, Write};
use std::test::Fail;

// Gives two bytes, then fails once, then is at its end. Takes two bytes, then none, then fails.
#[derive(Drop)]
struct Flaky {
    calls: u8,
}

impl Read for Flaky {
    fn read(&mut self, buf: &mut [u8]) -> io::Result<usize> {
        self.calls = self.calls.saturating_add(1);
        match self.calls {
            1 if buf.len() >= 2 => {
                buf[0] = b'a';
                buf[1] = b'b';
                Ok(2)
            }
            2 => Err(io::Error::from(ErrorKind::ConnectionReset)),
            _ => Ok(0),
        }
    }
}

impl Write for Flaky {
    fn write(&mut self, buf: &[u8]) -> io::Result<usize> {
        self.calls = self.calls.saturating_add(1);
        match self.calls {
            1 => Ok(buf.len().min(2)),
            2 => Ok(0),
            _ => Err(io::Error::from(ErrorKind::ConnectionReset)),
        }
    }

    fn flush(&mut self) -> io::Result<()> {
        Ok(())
    }
}

#[test]
fn std_source_passes_on_bytes_and_errors(rt: HostRuntime) {
    let mut source = StdSource::new(Flaky { calls: 0 });
    let mut buf = [0u8; 4];
    assert!(rt; source.read(&mut buf) == Ok(2));
    assert!(rt; buf == [b'a', b'b', 0, 0]);
    assert!(rt; source.read(&mut buf) == Err(Failed));
    assert!(rt; source.read(&mut buf) == Ok(0));
}

#[test]
fn std_sink_takes_no_progress_as_an_error(rt: HostRuntime) {
    let mut sink = StdSink::new(Flaky { calls: 0 });
    assert!(rt; sink.write(b"abc") == Ok(2));
    assert!(rt; sink.write(b"c") == Err(Failed));
    assert!(rt; sink.write(b"") == Ok(0));
    assert!(rt; sink.write(b"c") == Err(Failed));
}

#[test]
fn std_ends_over_a_slice_and_a_vector_pass_on_their_bytes(rt: HostRuntime) -> Result<(), Fail> {
    let mut source = StdSource::new(b"abc".as_slice());
    let mut sink = StdSink::new(Vec::new(rt.alloc()));
    let mut buf = [0u8; 2];
    assert_eq!(&rt; source.read(&mut buf), Ok(2));
    assert_eq!(&rt; sink.write(&buf), Ok(2));
    assert_eq!(&rt; source.read(&mut buf), Ok(1));
    assert_eq!(&rt; sink.write(&buf[..1]), Ok(1));
    assert_eq!(&rt; sink.into_writer().as_slice(), b"abc".as_slice());
    Ok(())
}

#[test]
fn memory_ends_fail_where_they_are_told(rt: HostRuntime) -> Result<(), Fail> {
    let bytes = Vec::from_slice(rt.alloc(), b"abcde")?;
    let fails = Vec::from_slice(rt.alloc(), &[2])?;
    let mut source = MemSource::new(bytes, 2, fails);
    let mut buf = [0u8; 3];
    assert!(rt; source.read(&mut buf) == Ok(2));
    assert!(rt; source.read(&mut buf) == Err(Failed));
    assert!(rt; source.left() == b"cde".as_slice());
    assert!(rt; source.read(&mut buf) == Ok(2));
    assert!(rt; source.calls() == 3);

    let fails = Vec::from_slice(rt.alloc(), &[2])?;
    let mut sink = MemSink::new(rt.alloc(), 4, 3, fails)?;
    assert!(rt; sink.write(b"abcde") == Ok(3));
    assert!(rt; sink.write(b"de") == Err(Failed));
    assert!(rt; sink.write(b"de") == Ok(1));
    assert!(rt; sink.write(b"e") == Err(Failed));
    assert!(rt; sink.write(b"") == Ok(0));
    assert!(rt; sink.bytes() == b"abcd".as_slice());
    assert!(rt; sink.calls() == 5);
    Ok(())
}

#[test]
fn sure_ends_never_fail(rt: HostRuntime) -> Result<(), Fail> {
    let mut source = SureSource::new(Vec::from_slice(rt.alloc(), b"abc")?, 2);
    let mut buf = [0u8; 8];
    assert!(rt; source.read(&mut buf) == Ok(2));
    assert!(rt; source.left() == b"c".as_slice());
    assert!(rt; source.read(&mut buf) == Ok(1));
    assert!(rt; source.read(&mut buf) == Ok(0));

    let mut sink = SureSink::new();
    assert!(rt; sink.write(b"abc") == Ok(3));
    assert!(rt; sink.taken() == 3);
    Ok(())
}
