//! Reads of the file system, of a reader and writes to a writer, each with its faults.
use crate::disk::Disk;
use crate::standard::Counted;
use std::fs;
use std::io::{self, Read, Write};
use std::test::Fail;
use tn_io::{Failed, Files, Sink, Source};

#[test]
fn reads_of_the_file_system(rt: HostRuntime) -> Result<(), Fail> {
    let name = "tentris_reads_of_the_file_system.nt";
    fs::write(&rt, name, "<x:a> <x:p> <x:b> .\n")?;
    let mut disk = Disk::new(&rt);
    let mut buf = [0u8; 12];
    let reads: [(&str, u64, Result<&[u8], Failed>); 9] = [
        (name, 0, Ok(b"<x:a> <x:p> ")),
        (name, 12, Ok(b"<x:b> .\n")),
        (name, 20, Ok(b"")),
        (name, 4_000_000_000, Ok(b"")),
        (name, u64::MAX, Err(Failed)),
        ("none.nt", 0, Err(Failed)),
        (".", 0, Err(Failed)),
        ("", 0, Err(Failed)),
        ("none\0.nt", 0, Err(Failed)),
    ];
    for (file, at, want) in reads {
        let got = disk.read_at(file, at, &mut buf);
        assert_eq!(rt; got.map(|count| &buf[..count]), want, "{file} at {at}");
    }
    fs::remove_file(&rt, name)?;
    assert_eq!(rt;
        disk.read_at(name, 12, &mut buf),
        Err(Failed),
        "a file that vanished"
    );
    Ok(())
}

/// Bytes whose first read fails.
#[derive(Drop)]
struct FailsFirst {
    bytes: &'static [u8],
    failed: bool,
}

impl Read for FailsFirst {
    fn read(&mut self, buf: &mut [u8]) -> io::Result<usize> {
        if !self.failed {
            self.failed = true;
            return Err(io::ErrorKind::Other.into());
        }
        self.bytes.read(buf)
    }
}

#[test]
fn reads_of_a_reader(rt: HostRuntime) {
    let mut input = Counted::new(FailsFirst {
        bytes: b"INSERT",
        failed: false,
    });
    let mut buf = [0u8; 4];
    let reads: [Result<&[u8], Failed>; 4] = [Err(Failed), Ok(b"INSE"), Ok(b"RT"), Ok(b"")];
    for want in reads {
        let got = input.read(&mut buf);
        assert_eq!(rt; got.map(|count| &buf[..count]), want);
    }
}

/// A writer that takes four bytes a piece, and whose second write fails.
#[derive(Drop)]
struct FailsSecond {
    got: Vec<u8>,
    writes: u8,
}

impl Write for FailsSecond {
    fn write(&mut self, buf: &[u8]) -> io::Result<usize> {
        self.writes = self.writes.saturating_add(1);
        if self.writes == 2 {
            return Err(io::ErrorKind::Other.into());
        }
        let count = buf.len().min(4);
        self.got.extend_from_slice(&buf[..count])?;
        Ok(count)
    }

    fn flush(&mut self) -> io::Result<()> {
        Ok(())
    }
}

#[test]
fn writes_to_a_writer(rt: HostRuntime) {
    let mut writer = FailsSecond {
        got: Vec::new(rt.alloc()),
        writes: 0,
    };
    let mut output = Counted::new(&mut writer);
    let written = [
        output.write(b"ok dump 0\n"),
        output.write(b"ump 0\n"),
        output.write(b"ump 0\n"),
    ];
    assert_eq!(rt; written, [Ok(4), Err(Failed), Ok(4)]);
    assert_eq!(rt; writer.got.as_slice(), b"ok dump ".as_slice());
}
