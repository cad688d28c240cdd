ghost use Rattle.std.specs.Prelude.{◌<◌};

use std::io;
use std::io::{ErrorKind, Read, Write};
use std::test::Fail;
use use_io::{
    CalmIn, CalmOut, DiskShelf, Failed, FaultyIn, MemShelf, Shelf, ShelfFault, Sink, SinkFault,
    Source, StdIn, StdOut,
};

// A reader, a writer and a writer's flush that fail.
#[derive(Clone, Copy)]
struct Broken;

impl Read for Broken {
    fn read(&mut self, _buf: &mut [u8]) -> io::Result<usize> {
        Err(io::Error::from(ErrorKind::Other))
    }
}

impl Write for Broken {
    fn write(&mut self, buf: &[u8]) -> io::Result<usize> {
        Ok(buf.len())
    }

    fn flush(&mut self) -> io::Result<()> {
        Err(io::Error::from(ErrorKind::Other))
    }
}

#[test]
fn sources_give_pieces_and_then_the_end(rt: HostRuntime) -> Result<(), Fail> {
    let mut buf = [0u8; 8];
    let mut calm = CalmIn::new(b"abcde".to_vec(rt.alloc())?, 3);
    assert_eq!(rt; calm.take(&mut buf), Ok(3));
    assert_eq!(rt; &buf[..3], b"abc".as_slice());
    assert_eq!(rt; calm.take(&mut buf), Ok(2));
    assert_eq!(rt; calm.take(&mut buf), Ok(0));
    let mut real = StdIn::new(b"abcde".as_slice());
    assert_eq!(rt; real.take(&mut buf), Ok(5));
    assert_eq!(rt; &buf[..5], b"abcde".as_slice());
    assert_eq!(rt; real.take(&mut buf), Ok(0));
    assert_eq!(rt; StdIn::new(Broken).take(&mut buf), Err(Failed));
    let bytes = b"abcde".to_vec(rt.alloc())?;
    let mut faulty = FaultyIn::new(bytes, 3, vec![in rt.alloc(); 2, 4]?);
    assert_eq!(rt; faulty.take(&mut buf), Ok(3));
    assert_eq!(rt; faulty.take(&mut buf), Err(Failed));
    assert_eq!(rt; faulty.take(&mut buf), Ok(2));
    assert_eq!(rt; &buf[..2], b"de".as_slice());
    assert_eq!(rt; faulty.take(&mut buf), Err(Failed));
    assert_eq!(rt; faulty.take(&mut buf), Ok(0));
    Ok(())
}

// A reader that gives one byte at a time.
#[derive(Drop)]
struct Slow<'a> {
    bytes: &'a [u8],
    at: usize,
}

impl Read for Slow<'_> {
    fn read(&mut self, buf: &mut [u8]) -> io::Result<usize> {
        if buf.is_empty() || self.at >= self.bytes.len() {
            return Ok(0);
        }
        buf[0] = self.bytes[self.at];
        self.at += 1;
        Ok(1)
    }
}

// The lengths of files round the sizes of a piece and of a model.
const LENGTHS: [usize; 5] = [0, 1, 4096, 4097, 4_194_305];

#[test]
fn a_reader_that_gives_one_byte_at_a_time_gives_all(rt: HostRuntime) -> Result<(), Fail> {
    let mut source = StdIn::new(Slow {
        bytes: b"ab",
        at: 0,
    });
    let mut buf = [0u8; 8];
    assert_eq!(rt; source.take(&mut buf), Ok(1));
    assert_eq!(rt; buf[0], b'a');
    assert_eq!(rt; source.take(&mut buf), Ok(1));
    assert_eq!(rt; buf[0], b'b');
    assert_eq!(rt; source.take(&mut buf), Ok(0));
    Ok(())
}

#[test]
fn files_of_the_disk_are_read_whole(rt: HostRuntime) -> Result<(), Fail> {
    let alloc = rt.alloc();
    let mut disk = DiskShelf::new(&rt);
    for length in LENGTHS {
        let mut bytes = vec![in alloc; b'x'; length]?;
        if let Some(last) = bytes.last_mut() {
            *last = b'y';
        }
        let id = std::process::id(rt.process());
        let name = format!(in alloc; "/tmp/use_io-{id}-{length}")?;
        std::fs::write(&rt, &name, &bytes)?;
        let whole = disk.fetch(alloc, &name, 4_194_305);
        let short = disk.fetch(alloc, &name, 4_194_304);
        std::fs::remove_file(&rt, &name)?;
        assert!(rt;
            whole.is_ok_and(|v| v.as_slice() == bytes.as_slice()),
            "of {length}"
        );
        let is_long = matches!(short, Err(ShelfFault::TooLong));
        assert_eq!(rt; is_long, length > 4_194_304, "of {length}");
    }
    Ok(())
}

#[test]
fn sinks_take_bytes(rt: HostRuntime) -> Result<(), Fail> {
    let mut calm = CalmOut::new(rt.alloc());
    assert_eq!(rt; calm.put(b"ab"), Ok(2));
    assert_eq!(rt; calm.put(b"c"), Ok(1));
    assert_eq!(rt; calm.written(), b"abc".as_slice());
    let mut real = StdOut::new(Vec::new(rt.alloc()));
    assert_eq!(rt; real.put(b"abc"), Ok(3));
    assert_eq!(rt; StdOut::new(Broken).put(b"abc"), Err(SinkFault::Failed));
    Ok(())
}

#[test]
fn shelves_give_files_by_name(rt: HostRuntime) -> Result<(), Fail> {
    let alloc = rt.alloc();
    let mut shelf = MemShelf::new(vec![in alloc;
        (String::from_str(alloc, "a")?, b"first".to_vec(alloc)?),
        (String::from_str(alloc, "a")?, b"second".to_vec(alloc)?),
    ]?);
    assert!(rt;
        shelf
            .fetch(alloc, "a", 5)
            .is_ok_and(|v| v.as_slice() == b"first".as_slice())
    );
    assert!(rt; matches!(shelf.fetch(alloc, "a", 4), Err(ShelfFault::TooLong)));
    assert!(rt; matches!(shelf.fetch(alloc, "b", 5), Err(ShelfFault::Missing)));
    let mut disk = DiskShelf::new(&rt);
    assert!(rt;
        matches!(
            disk.fetch(alloc, "no/such/file", 5),
            Err(ShelfFault::Missing)
        )
    );
    assert!(rt; matches!(disk.fetch(alloc, "/", 5), Err(ShelfFault::Failed)));
    Ok(())
}
