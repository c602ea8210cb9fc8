// The streams of the system. Nothing is told of what they took.
ghost use Rattle.std.specs.Prelude.{◌≡◌, ◌≤◌, [], IsOk, OnOk, OnErr};
ghost use Rattle.outside.specs.Counts.{raised, HasRisen};
ghost use Rattle.outside.specs.Streams.{Takes, TakesFront};

use crate::{Sink, SinkFailed};
use std::io::Write;
use std::rt::{HostRuntime, Stderr, Stdout};

/// A stream as a sink. No byte waits in a buffer of the sink's own.
#[derive(Drop)]
pub struct StdSink<W> {
    stream: W,
    faults: u64,
}

impl StdSink<Stdout> {
    ghost use Rattle.outside.specs.StdSink.{fault_count};

    /// Standard output.
    pub fn output(runtime: &HostRuntime) -> Self
        ensures { fault_count result ≡ 0 }
    {
        StdSink::new(runtime.stdout())
    }
}

impl StdSink<Stderr> {
    ghost use Rattle.outside.specs.StdSink.{fault_count};

    /// Standard error.
    pub fn errors(runtime: &HostRuntime) -> Self
        ensures { fault_count result ≡ 0 }
    {
        StdSink::new(runtime.stderr())
    }
}

impl<W: Write> StdSink<W> {
    ghost use Rattle.outside.specs.StdSink.{stream_of, fault_count};

    pub fn new(stream: W) -> Self
        ensures faults { fault_count result ≡ 0 }
        ensures stream { stream_of result ≡ stream }
    {
        StdSink { stream, faults: 0 }
    }
}

// Writes the whole piece, in as many parts as the stream takes it. A part of no bytes is a failure.
fn write_whole<W: Write>(stream: &mut W, piece: &[u8]) -> Result<(), SinkFailed>
    ensures ok { OnOk result (Takes W.contents stream.old stream.new piece.now) }
    ensures err { OnErr result (TakesFront W.contents stream.old stream.new piece.now) }
{
    let mut rest = piece;
    'parts: while !rest.is_empty() {
        match stream.write(rest) {
            Ok(0) | Err(_) => return Err(SinkFailed),
            Ok(count) => rest = &rest[count..],
        }
    }
    match stream.flush() {
        Ok(()) => Ok(()),
        Err(_) => Err(SinkFailed),
    }
}

impl<W: Write> Sink for StdSink<W> {
    ghost use Rattle.outside.specs.StdSink.{stream_of, fault_count, state_of};

    ghost state = { state_of };

    /// A piece that is taken is written whole to the stream, of one that isn't some first bytes.
    fn put(&mut self, piece: &[u8]) -> Result<(), SinkFailed>
        ensures written { OnOk result (Takes W.contents (stream_of self.old) (stream_of self.new) piece.now) }
        ensures part { OnErr result (TakesFront W.contents (stream_of self.old) (stream_of self.new) piece.now) }
        ensures nothing { piece.now ≡ [] → stream_of self.new ≡ stream_of self.old }
        ensures fault { OnErr result (fault_count self.new ≡ raised (fault_count self.old)) }
        ensures rises { OnErr result (HasRisen (fault_count self.old) (fault_count self.new)) }
        ensures no_fault { OnOk result (fault_count self.new ≡ fault_count self.old) }
        ensures never_fall { fault_count self.old ≤ fault_count self.new }
        ensures empty { piece.now ≡ [] → IsOk result }
    {
        if piece.is_empty() {
            return Ok(());
        }
        let answer = write_whole(&mut self.stream, piece);
        if answer.is_err() {
            self.faults = self.faults.saturating_add(1);
        }
        answer
    }
}

#[cfg(test)]
mod tests {
    use super::*;
    use std::fs::File;
    use std::io::BufWriter;
    use std::test::Fail;
    use std::{fs, io};

    const PATH: &str = "outside-std-sink-test";

    #[test]
    fn writes_to_a_stream(rt: HostRuntime) -> Result<(), Fail> {
        let mut sink = StdSink::new(File::create(&rt, PATH)?);
        for piece in [b"one ".as_slice(), b"", b"two"] {
            assert_eq!(rt; sink.put(piece), Ok(()));
        }
        assert_eq!(rt; fs::read(&rt, PATH)?.as_slice(), b"one two".as_slice());

        let mut closed = StdSink::new(File::open(&rt, PATH)?);
        assert_eq!(rt; closed.put(b"three"), Err(SinkFailed));
        assert_eq!(rt; closed.put(b""), Ok(()));
        assert_eq!(rt; (sink.faults, closed.faults), (0, 1));
        let mut buffered = StdSink::new(BufWriter::new(rt.alloc(), File::create(&rt, PATH)?)?);
        assert_eq!(rt; buffered.put(b"four"), Ok(()));
        assert_eq!(rt; fs::read(&rt, PATH)?.as_slice(), b"four".as_slice());
        fs::remove_file(&rt, PATH)?;

        assert_eq!(rt; StdSink::output(&rt).put(b"out\n"), Ok(()));
        assert_eq!(rt; StdSink::errors(&rt).put(b"err\n"), Ok(()));
        Ok(())
    }
    // Takes one byte at a time, and none once it has three.
    #[derive(Drop)]
    struct Slow {
        taken: [u8; 3],
        count: usize,
    }

    impl Write for Slow {
        fn write(&mut self, bytes: &[u8]) -> io::Result<usize> {
            if bytes.is_empty() || self.count >= 3 {
                return Ok(0);
            }
            self.taken[self.count] = bytes[0];
            self.count += 1;
            Ok(1)
        }

        fn flush(&mut self) -> io::Result<()> {
            Ok(())
        }
    }

    #[test]
    fn writes_a_byte_at_a_time(rt: HostRuntime) -> Result<(), Fail> {
        let mut sink = StdSink::new(Slow {
            taken: [0; 3],
            count: 0,
        });
        assert_eq!(rt; sink.put(b"ab"), Ok(()));
        assert_eq!(rt; (sink.stream.count, sink.faults), (2, 0));
        assert_eq!(rt; sink.put(b"cd"), Err(SinkFailed));
        assert_eq!(rt; sink.put(b""), Ok(()));
        assert_eq!(rt; sink.put(b"e"), Err(SinkFailed));
        assert_eq!(rt; (sink.stream.taken, sink.faults), (*b"abc", 2));
        Ok(())
    }
}
