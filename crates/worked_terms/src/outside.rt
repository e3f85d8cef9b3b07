//! Lines in any pieces, the edges of buffers, and faults.
ghost use Rattle.std.specs.Prelude.{◌<◌};

use std::alloc::Global;
use std::cmp::Ordering;
use tn_io::{
    Bytes, Cut, Cutter, Failed, Files, Lines, MemFiles, MemSink, MemSource, NullSink, Out,
    PureFiles, PureSource, Sink, Source, Text, write_all,
};
use trie_depth::Memory;

// The lines of a text that comes in pieces, each whole one with `|` behind it, and `!` for one that is too long.
fn lines(alloc: Global, text: &[u8], piece: usize) -> Result<Vec<u8>, Memory>
    requires { 0 < piece }
{
    let mut cutter = Cutter::new(alloc)?;
    let mut told = Vec::new(alloc);
    for part in text.chunks(piece) {
        let mut rest = part;
        for _ in 0..part.len() {
            let (count, cut) = cutter.take(rest);
            rest = &rest[count..];
            tell(cut, &cutter, &mut told)?;
        }
    }
    let cut = cutter.end();
    tell(cut, &cutter, &mut told)?;
    Ok(told)
}

fn tell(cut: Option<Cut>, cutter: &Cutter, told: &mut Vec<u8>) -> Result<(), Memory> {
    match cut {
        Some(Cut::Whole) => {
            told.extend_from_slice(cutter.line())?;
            told.push(b'|')?;
        }
        Some(Cut::TooLong) => told.push(b'!')?,
        None => {}
    }
    Ok(())
}

#[test]
fn lines_in_any_pieces(rt: HostRuntime) -> Result<(), Memory> {
    let texts: [(&[u8], &[u8]); 8] = [
        (b"", b""),
        (b"a", b"a|"),
        (b"\n", b"|"),
        (b"\r\n", b"|"),
        (b"\n\r", b"||"),
        (b"\r\r\n\n", b"|||"),
        (b"a\rb\nc\r\nd", b"a|b|c|d|"),
        (
            b"one\r\n\r\ntwo\rthree\n\n\rfour\r",
            b"one||two|three|||four|",
        ),
    ];
    for (text, want) in texts {
        for piece in 1..65usize {
            let told = lines(rt.alloc(), text, piece)?;
            assert_eq!(rt; told.as_slice(), want);
        }
    }
    Ok(())
}

#[test]
fn longest_line(rt: HostRuntime) -> Result<(), Memory> {
    for (length, end, count, too_long) in [
        (1_048_576usize, "", 1_048_577usize, false),
        (1_048_576, "\r\nx", 1_048_579, false),
        (1_048_577, "", 1, true),
        (1_048_577, "\r\nx", 3, true),
        (1_048_600, "\n", 1, true),
    ] {
        let mut text = vec![in rt.alloc(); b'a'; length]?;
        text.extend_from_slice(end.as_bytes())?;
        for piece in [1000usize, 65_536, 2_000_000] {
            let told = lines(rt.alloc(), &text, piece)?;
            assert_eq!(rt; told.len(), count);
            assert_eq!(rt; told.first() == Some(&b'!'), too_long);
        }
    }
    Ok(())
}

#[test]
fn buffer_edges(rt: HostRuntime) -> Result<(), Memory> {
    for first in [0usize, 1, 8191, 8192, 8193, 20_000] {
        for second in [0usize, 1, 2, 8191, 8192, 8193] {
            let a = vec![in rt.alloc(); b'a'; first]?;
            let b = vec![in rt.alloc(); b'b'; second]?;
            let mut want = a.clone()?;
            want.extend_from_slice(&b)?;
            let mut sink = MemSink::new(rt.alloc(), 5000, Vec::new(rt.alloc()));
            let mut out = Out::new(&mut sink);
            assert!(rt; out.put(&a).is_ok() && out.put(&b).is_ok() && out.flush().is_ok());
            assert!(rt; sink.bytes() == want.as_slice());
        }
    }
    Ok(())
}

#[test]
fn faults_at_each_call(rt: HostRuntime) -> Result<(), Memory> {
    for call in 1..6u64 {
        let mut sink = MemSink::new(rt.alloc(), 3, vec![in rt.alloc(); call]?);
        let written = write_all(&mut sink, b"0123456789");
        assert_eq!(rt; written.is_ok(), call == 5);
        let (want, given): (&[u8], &[u8]) = match call {
            1 => (b"", b"!abcde"),
            2 => (b"012", b"ab!cde"),
            3 => (b"012345", b"abcd!e"),
            4 => (b"012345678", b"abcde!"),
            _ => (b"0123456789", b"abcde!"),
        };
        assert_eq!(rt; sink.bytes(), want);
        let mut source = MemSource::new(
            Vec::from_slice(rt.alloc(), b"abcde")?,
            2,
            vec![in rt.alloc(); call]?,
        );
        let mut read = Vec::new(rt.alloc());
        for _ in 0..5 {
            let mut piece = [0; 4];
            match source.read(&mut piece) {
                Ok(count) => read.extend_from_slice(&piece[..count])?,
                Err(_) => read.push(b'!')?,
            }
        }
        assert_eq!(rt; read.as_slice(), given);
    }
    let mut pure = PureSource::new(Vec::from_slice(rt.alloc(), b"abc")?);
    let mut piece = [0; 2];
    assert_eq!(rt; pure.read(&mut piece), Ok(2));
    assert_eq!(rt; pure.read(&mut piece), Ok(1));
    assert_eq!(rt; pure.read(&mut piece), Ok(0));
    let mut null = NullSink::new();
    assert!(rt; write_all(&mut null, b"0123").is_ok() && null.write(b"456") == Ok(3));
    assert!(rt; null.bytes() == 7);
    Ok(())
}

// What reads with room for four bytes give, one after another; `!` for a failure.
fn read_on<F: Files>(
    alloc: Global,
    files: &mut F,
    name: &str,
    start: u64,
) -> Result<Vec<u8>, Memory> {
    let mut read = Vec::new(alloc);
    let mut at = start;
    for _ in 0..5 {
        let mut piece = [0; 4];
        match files.read_at(name, at, &mut piece) {
            Ok(count) => {
                at = at.saturating_add(count as u64);
                read.extend_from_slice(&piece[..count])?;
                read.push(b'|')?;
            }
            Err(Failed) => read.push(b'!')?,
        }
    }
    Ok(read)
}

// Two files, one of them empty, and a second entry of the first one's name.
fn some_files(alloc: Global) -> Result<Vec<(Text, Bytes)>, Memory> {
    let mut files = Vec::new(alloc);
    let entries: [(&str, &[u8]); 3] = [("a.nt", b"abcde"), ("", b""), ("a.nt", b"xyz")];
    for (name, bytes) in entries {
        let bytes = Bytes::of(Vec::from_slice(alloc, bytes)?);
        files.push((Text::of(alloc, name)?, bytes))?;
    }
    Ok(files)
}

#[test]
fn files_at_places(rt: HostRuntime) -> Result<(), Memory> {
    let rows: [(&str, u64, u64, &[u8], &[u8]); 8] = [
        ("a.nt", 0, 1, b"!ab|cd|e||", b"abcd|e||||"),
        ("a.nt", 0, 3, b"ab|cd|!e||", b"abcd|e||||"),
        ("a.nt", 0, 5, b"ab|cd|e||!", b"abcd|e||||"),
        ("a.nt", 4, 2, b"e|!|||", b"e|||||"),
        ("a.nt", 5, 9, b"|||||", b"|||||"),
        ("a.nt", u64::MAX, 9, b"|||||", b"|||||"),
        ("", 0, 9, b"|||||", b"|||||"),
        ("a.n", 0, 1, b"!!!!!", b"!!!!!"),
    ];
    for (name, start, fails, in_pieces, whole) in rows {
        let files = some_files(rt.alloc())?;
        let mut files = MemFiles::new(files, 2, vec![in rt.alloc(); fails]?);
        let read = read_on(rt.alloc(), &mut files, name, start)?;
        assert_eq!(rt; read.as_slice(), in_pieces);
        let mut files = PureFiles::new(some_files(rt.alloc())?);
        let read = read_on(rt.alloc(), &mut files, name, start)?;
        assert_eq!(rt; read.as_slice(), whole);
    }
    Ok(())
}

#[test]
fn texts(rt: HostRuntime) -> Result<(), Memory> {
    let mut text = Text::new(rt.alloc());
    text.push("a")?;
    text.push("é")?;
    let other = Text::of(rt.alloc(), "aé")?;
    assert_eq!(rt; text.as_str(), "aé");
    assert!(rt; text == other && text.clone()? == other);
    assert_eq!(rt; text.cmp(&Text::of(rt.alloc(), "az")?), Ordering::Greater);
    let mut lines = Lines::new(rt.alloc());
    lines.push(text)?;
    lines.push(Text::of(rt.alloc(), "b")?)?;
    assert_eq!(rt; lines.len(), 2);
    assert!(rt; lines.at(0) == &other);
    Ok(())
}
