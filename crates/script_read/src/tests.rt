//! What lines command, and a script that is longer than it may be.
use super::{Command, Script, ScriptFault, command, skipped};
use std::test::Fail;
use tn_io::{Cut, MemSource};

#[test]
fn commands_of_lines(rt: HostRuntime) {
    let lines: [(&[u8], Option<Command<'static>>); 44] = [
        (b"INSERT", Some(Command::Insert)),
        (b" \tINSERT\t ", Some(Command::Insert)),
        (b"DELETE", Some(Command::Delete)),
        (b"\tQUERY", Some(Command::Query)),
        (b"DUMP", Some(Command::Dump)),
        (b"DUMP ", Some(Command::Dump)),
        (b"", None),
        (b" ", None),
        (b"insert", None),
        (b"INSERTS", None),
        (b"IN SERT", None),
        (b"DUMP DUMP", None),
        (b"GO", None),
        (b"\xef\xbb\xbfDUMP", None),
        (b"DUMP\x0b", None),
        (b"# DUMP", None),
        (b"LOAD a.nt", Some(Command::Load("", "a.nt"))),
        (
            b"\tUNLOAD \t my file.nt ",
            Some(Command::Unload("", "my file.nt")),
        ),
        (b"LOAD SCOPEs", Some(Command::Load("", "SCOPEs"))),
        (b"LOAD scope a f", Some(Command::Load("", "scope a f"))),
        (b"LOAD SCOPE a f", Some(Command::Load("a", "f"))),
        (
            b"UNLOAD SCOPE\tA9 \tmy file",
            Some(Command::Unload("A9", "my file")),
        ),
        (
            b"LOAD SCOPE SCOPE SCOPE",
            Some(Command::Load("SCOPE", "SCOPE")),
        ),
        (b"LOAD \xc3\xa9.nt", Some(Command::Load("", "\u{e9}.nt"))),
        (b"LOAD", None),
        (b"LOADa.nt", None),
        (b"load a.nt", None),
        (b"LOAD SCOPE", None),
        (b"LOAD SCOPE a", None),
        (b"LOAD SCOPE a-b f", None),
        (b"LOAD \xff.nt", None),
        (b"UNLOAD SCOPE \xc3\xa9 f", None),
        (b"GENERATE 4 1", Some(Command::Generate(4, 1))),
        (
            b"GENERATE\t0 \t18446744073709551615",
            Some(Command::Generate(0, u64::MAX)),
        ),
        (
            b"GENERATE 00000000000500000000 0",
            Some(Command::Generate(500_000_000, 0)),
        ),
        (b"GENERATE 500000001 1", None),
        (b"GENERATE 1 18446744073709551616", None),
        (b"GENERATE 000000000000000000001 1", None),
        (b"GENERATE 1", None),
        (b"GENERATE 1 2 3", None),
        (b"GENERATE +1 2", None),
        (b"GENERATE 1 -2", None),
        (b"GENERATE 1,2", None),
        (b"GENERATE", None),
    ];
    for (line, want) in lines {
        assert_eq!(rt; command(line), want);
    }
}

#[test]
fn skipped_lines(rt: HostRuntime) {
    let lines: [(&[u8], bool); 8] = [
        (b"", true),
        (b" \t ", true),
        (b"#", true),
        (b"\t # DUMP", true),
        (b"DUMP # note", false),
        (b"\x0b", false),
        (b"\xc2\xa0", false),
        (b"\xff", false),
    ];
    for (line, want) in lines {
        assert_eq!(rt; skipped(line), want);
    }
}

#[test]
fn script_too_long(rt: HostRuntime) -> Result<(), Fail> {
    let alloc = rt.alloc();
    for piece in 1..=10usize {
        let bytes = b"DUMP\nDUMP\n".to_vec(alloc)?;
        let mut source = MemSource::new(bytes, piece, Vec::new(alloc));
        let mut script = Script::new(alloc, 5)?;
        let first = script.next_line(&mut source);
        assert!(rt;
            matches!(first, Ok(Some(Cut::Whole))),
            "in pieces of {piece}"
        );
        assert_eq!(rt; script.line(), b"DUMP".as_slice());
        let second = script.next_line(&mut source);
        assert!(rt;
            matches!(second, Err(ScriptFault::TooLong)),
            "in pieces of {piece}"
        );
    }
    Ok(())
}
