//! The words of the command line, and what they set.
use crate::harness::{answers, run_with};
use std::test::Fail;
use tentris_core::Status;
use trie_depth::SplitMix;

const NOTHING: &str = "triples 0\nterms 0\ntwo 0\none 0\nok stats\n";

const FULL: &str = "INSERT\n<x:a> <x:p> <x:b> .\n<x:a> <x:p> <x:c> .\n<x:a> <x:p> <x:d> .\nGO\n\
    INSERT\n<x:a> <x:p> <x:b> .\n<x:a> <x:p> <x:c> .\nGO\nINSERT\n<x:a> <x:p> <x:b> .\nGO\n\
    DELETE\n<x:a> <x:p> <x:d> .\n<x:a> <x:p> <x:e> .\n<x:a> <x:p> <x:f> .\nGO\nGENERATE 4 1\n";

// Words, a script under them, how it ends, and what it answers.
const SET: [(&[&str], &str, Status, &str); 8] = [
    (&["--max-bytes", "5"], "STATS\nSTATS\n", Status::TooLong, ""),
    (
        &["--max-bytes", "6"],
        "STATS\nSTATS\n",
        Status::TooLong,
        NOTHING,
    ),
    (&["--max-bytes=6"], "STATS\n", Status::Done, NOTHING),
    (&["--max-bytes", "5"], "STATS", Status::Done, NOTHING),
    (
        &["--max-bytes", "1099511627776"],
        "STATS",
        Status::Done,
        NOTHING,
    ),
    (&["--max-bytes", "1"], "", Status::Done, ""),
    (
        &["--max-triples", "2"],
        FULL,
        Status::SomeRefused,
        "refused 5 full 3\nok new 2 now 2\nok new 0 now 2\nok gone 0 now 2\nrefused 5 full 1\n",
    ),
    (
        &["--max-triples=500000000", "--sort"],
        "GENERATE 1 0\n",
        Status::Done,
        "ok new 1 now 1\n",
    ),
];

#[test]
fn what_words_set(rt: HostRuntime) -> Result<(), Fail> {
    for (words, script, status, want) in SET {
        answers(&rt, rt.alloc(), words, script.as_bytes(), want, status)?;
    }
    Ok(())
}

// Words that are refused.
const BAD: [&[&str]; 15] = [
    &["--max-triples", "0"],
    &["--max-triples", "500000001"],
    &["--max-bytes", "0"],
    &["--max-bytes", "1099511627777"],
    &["--max-bytes", "18446744073709551616"],
    &["--max-bytes", "-1"],
    &["--max-bytes", ""],
    &["--max-bytes", "five"],
    &["--max-bytes"],
    &["--sort", "--sort"],
    &["--sorted"],
    &["script.txt"],
    &["--version"],
    &["-V"],
    &["--", "x"],
];

#[test]
fn bad_words(rt: HostRuntime) -> Result<(), Fail> {
    for words in BAD {
        let first = words.first().copied().unwrap_or("");
        // A read or a write would fail.
        let got = run_with::<SplitMix>(rt.alloc(), b"GENERATE 1 1\n", 64, 1, 1, words)?;
        assert_eq!(rt; got.status, Status::BadWords, "{first}");
        assert_eq!(rt; got.status.code(), 2);
        assert_eq!(rt; got.written.len(), 0);
        assert_eq!(rt; got.triples, 0);
    }
    Ok(())
}

#[test]
fn help_is_written_and_nothing_read(rt: HostRuntime) -> Result<(), Fail> {
    let asked: [&[&str]; 4] = [
        &["--help"],
        &["-h"],
        &["--sort", "-h"],
        &["-h", "--max-triples", "0"],
    ];
    for words in asked {
        let got = run_with::<SplitMix>(rt.alloc(), b"GENERATE 1 1\n", 64, 1, 0, words)?;
        assert_eq!(rt; got.status, Status::Done);
        assert_eq!(rt; got.triples, 0);
        assert!(rt; got.written.len() > 100);
        let cut = run_with::<SplitMix>(rt.alloc(), b"", 64, 0, 2, words)?;
        assert_eq!(rt; cut.status, Status::WriteFault);
        assert!(rt; got.written.starts_with(&cut.written));
    }
    Ok(())
}

// Lines that are no form of a command.
const NO_COMMAND: [&[u8]; 27] = [
    b"insert",
    b"GO",
    b"INSERT x",
    b"STATS STATS",
    b"STATS#",
    b"LOAD",
    b"LOAD \t",
    b"load f",
    b"LOADf",
    b"LOAD \xff",
    b"LOAD SCOPE",
    b"LOAD SCOPE a",
    b"LOAD SCOPE a-b f",
    b"LOAD SCOPE \xc3\xa9 f",
    b"LOAD SCOPE aaaaaaaaaabbbbbbbbbbccccccccccddddddddddeeeeeeeeeeffffffffffggggg f",
    b"UNLOAD",
    b"UNLOAD SCOPE a_b f",
    b"GENERATE",
    b"GENERATE 1",
    b"GENERATE 1 1 1",
    b"GENERATE 500000001 1",
    b"GENERATE 000000000000000000001 1",
    b"GENERATE 1 18446744073709551616",
    b"GENERATE 1 000000000000000000001",
    b"GENERATE +1 1",
    b"generate 1 1",
    b"\xef\xbb\xbfSTATS",
];

#[test]
fn lines_that_are_no_command(rt: HostRuntime) -> Result<(), Fail> {
    for line in NO_COMMAND {
        answers(
            &rt,
            rt.alloc(),
            &[],
            line,
            "refused 1 command\n",
            Status::SomeRefused,
        )?;
    }
    Ok(())
}

// Lines of GENERATE, each with the dump after it.
const GENERATED: [(&str, &str); 5] = [
    ("GENERATE 0 7\nDUMP\n", "ok new 0 now 0\nok dump 0\n"),
    (
        "GENERATE 4 1\nDUMP\n",
        "ok new 4 now 4\n<urn:n:0> <urn:p:2> <urn:n:1> .\n<urn:n:1> <urn:p:0> <urn:n:0> .\n<urn:n:1> <urn:p:0> <urn:n:1> .\n<urn:n:2> <urn:p:1> <urn:n:0> .\nok dump 4\n",
    ),
    (
        "GENERATE 4 1\nGENERATE 4 1\nSTATS\n",
        "ok new 4 now 4\nok new 0 now 4\ntriples 4\nterms 6\ntwo 8\none 1\nok stats\n",
    ),
    (
        "GENERATE\t1  18446744073709551615 \nDUMP\n",
        "ok new 1 now 1\n<urn:n:1> <urn:p:0> <urn:n:0> .\nok dump 1\n",
    ),
    (
        "GENERATE 00000000000000000001 00000000000000000000\nDUMP\n",
        "ok new 1 now 1\n<urn:n:0> <urn:p:0> <urn:n:0> .\nok dump 1\n",
    ),
];

#[test]
fn generated_triples(rt: HostRuntime) -> Result<(), Fail> {
    for (script, want) in GENERATED {
        answers(&rt, rt.alloc(), &[], script.as_bytes(), want, Status::Done)?;
    }
    Ok(())
}
