ghost use Rattle.std.specs.Prelude.{refl};

use outside_io::{
    MemorySink, MemorySource, Sink, Source, StdSink, StdSource, SteadyWrite, WriteFault,
    write_whole,
};
use std::io;
use std::io::{ErrorKind, Read, Write};
use std::test::Fail;
use vm_types::Failed;

fn read_from<S: Source>(source: &mut S, buf: &mut [u8]) -> Result<usize, Failed> {
    source.read(buf)
}

// A reader and a writer that always fail.
#[derive(Drop)]
struct Broken;

impl Read for Broken {
    fn read(&mut self, _buf: &mut [u8]) -> io::Result<usize> {
        Err(ErrorKind::BrokenPipe.into())
    }
}

impl Write for Broken {
    fn write(&mut self, _buf: &[u8]) -> io::Result<usize> {
        Err(ErrorKind::BrokenPipe.into())
    }

    fn flush(&mut self) -> io::Result<()> {
        Err(ErrorKind::BrokenPipe.into())
    }
}

#[test]
fn writes_lines_to_memory(rt: HostRuntime) -> Result<(), Fail> {
    // Room, failing calls, stalling calls; the answers to three lines, and the bytes taken.
    let table: [(u32, &[u32], &[u32], [Result<(), WriteFault>; 3], &[u8]); 5] = [
        (
            100,
            &[],
            &[],
            [Ok(()), Ok(()), Ok(())],
            b"one\ntwo\nthree\n",
        ),
        (
            100,
            &[3],
            &[],
            [Ok(()), Ok(()), Err(WriteFault::Failed)],
            b"one\ntwo\n",
        ),
        (
            100,
            &[],
            &[3],
            [Ok(()), Ok(()), Err(WriteFault::NoneTaken)],
            b"one\ntwo\n",
        ),
        (
            100,
            &[2, 3],
            &[2],
            [Ok(()), Err(WriteFault::Failed), Err(WriteFault::Failed)],
            b"one\n",
        ),
        (
            6,
            &[],
            &[],
            [
                Ok(()),
                Err(WriteFault::NoneTaken),
                Err(WriteFault::NoneTaken),
            ],
            b"one\ntw",
        ),
    ];
    for (room, fails, stalls, answers, taken) in table {
        let alloc = rt.alloc();
        let mut sink = MemorySink::new(alloc, room, fails.to_vec(alloc)?, stalls.to_vec(alloc)?)?;
        assert_eq!(rt; write_whole(&mut sink, b"one\n"), answers[0]);
        assert_eq!(rt; write_whole(&mut sink, b"two\n"), answers[1]);
        assert_eq!(rt; write_whole(&mut sink, b"three\n"), answers[2]);
        assert_eq!(rt; sink.taken(), taken);
    }
    Ok(())
}

#[test]
fn reads_from_memory_in_pieces(rt: HostRuntime) -> Result<(), Fail> {
    let alloc = rt.alloc();
    let mut source = MemorySource::new(b"abcde".to_vec(alloc)?, [2u32].to_vec(alloc)?);
    let mut buf = [0; 3];
    assert_eq!(rt; read_from(&mut source, &mut buf), Ok(3));
    assert_eq!(rt; buf, *b"abc");
    assert_eq!(rt; read_from(&mut source, &mut buf), Err(Failed));
    assert_eq!(rt; read_from(&mut source, &mut buf), Ok(2));
    assert_eq!(rt; buf, *b"dec");
    assert_eq!(rt; read_from(&mut source, &mut buf), Ok(0));
    Ok(())
}

#[test]
fn adapts_readers(rt: HostRuntime) {
    let mut buf = [0; 3];
    let mut source = StdSource::new(b"abcd".as_slice());
    assert_eq!(rt; read_from(&mut source, &mut buf), Ok(3));
    assert_eq!(rt; read_from(&mut source, &mut buf), Ok(1));
    assert_eq!(rt; buf, *b"dbc");
    assert_eq!(rt; read_from(&mut source, &mut buf), Ok(0));
    let mut broken = StdSource::new(Broken);
    assert_eq!(rt; read_from(&mut broken, &mut buf), Err(Failed));
}

#[test]
fn adapts_writers(rt: HostRuntime) -> Result<(), Fail> {
    let mut bytes = Vec::new(rt.alloc());
    let mut sink = StdSink::new(&mut bytes);
    assert_eq!(rt; write_whole(&mut sink, b"ab"), Ok(()));
    assert_eq!(rt; flush(&mut sink), Ok(()));
    assert_eq!(rt; bytes.as_slice(), b"ab".as_slice());
    // Dropped without a flush, it has written full buffers alone.
    let mut bytes = Vec::new(rt.alloc());
    {
        let mut sink = StdSink::new(&mut bytes);
        for _ in 0..8193 {
            assert_eq!(rt; write_whole(&mut sink, b"01234567"), Ok(()));
        }
    }
    assert_eq!(rt; bytes.len(), 65536);
    Ok(())
}

fn flush<K: Sink>(sink: &mut K) -> Result<(), Failed> {
    sink.flush()
}

// A writer that takes at most three bytes a call, and fails at its call with the number `fails`.
#[derive(Drop)]
struct Drip<'a> {
    taken: &'a mut Vec<u8>,
    calls: u32,
    fails: u32,
}

impl Write for Drip<'_> {
    fn write(&mut self, buf: &[u8]) -> io::Result<usize> {
        self.calls = self.calls.saturating_add(1);
        if self.calls == self.fails {
            return Err(ErrorKind::BrokenPipe.into());
        }
        self.taken.write(&buf[..buf.len().min(3)])
    }

    fn flush(&mut self) -> io::Result<()> {
        Ok(())
    }
}

impl SteadyWrite for Drip<'_> {
    ghost steady = { λ a b. refl };
}

impl SteadyWrite for Broken {
    ghost steady = { λ a b. refl };
}

// The writer's first call takes three bytes and its second fails. After that nothing more is written.
#[test]
fn ends_at_a_failed_write(rt: HostRuntime) -> Result<(), Fail> {
    let mut bytes = Vec::new(rt.alloc());
    let mut sink = StdSink::new(Drip {
        taken: &mut bytes,
        calls: 0,
        fails: 2,
    });
    assert_eq!(rt; write_whole(&mut sink, b"abcdefgh"), Ok(()));
    assert_eq!(rt; flush(&mut sink), Err(Failed));
    assert_eq!(rt; write_whole(&mut sink, b"ij"), Err(WriteFault::Failed));
    assert_eq!(rt; flush(&mut sink), Err(Failed));
    assert_eq!(rt; bytes.as_slice(), b"abc".as_slice());
    // One that always fails, and a flush of a sink in memory that fails.
    let mut broken = StdSink::new(Broken);
    assert_eq!(rt; write_whole(&mut broken, b""), Ok(()));
    assert_eq!(rt; flush(&mut broken), Err(Failed));
    let alloc = rt.alloc();
    let mut memory = MemorySink::new(alloc, 10, [2].to_vec(alloc)?, Vec::new(alloc))?;
    assert_eq!(rt; write_whole(&mut memory, b"ab"), Ok(()));
    assert_eq!(rt; flush(&mut memory), Err(Failed));
    assert_eq!(rt; flush(&mut memory), Ok(()));
    Ok(())
}
