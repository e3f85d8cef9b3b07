//! Scripts that load files and take them away.
ghost use Rattle.std.specs.Prelude.{◌<◌};

use crate::harness::{Pieces, run_over};
use std::alloc::{AllocError, Global};
use std::process::Abort;
use std::test::Fail;
use tentris_core::Status;
use trie_depth::{ConstMix, Mix, SplitMix};

const LINES: &[u8] = b"<x:a> <x:p> <x:b> .\n<x:a> <x:p> <x:b> .\n<x:a> <x:p> <x:b> .\n";

const NOTHING: &str = "refused 4 file\ntriples 0\nterms 0\ntwo 0\none 0\nok stats\n";

const ALICE: &[u8] = b"# FOAF extract\r\n\
    _:me <http://www.w3.org/1999/02/22-rdf-syntax-ns#type> <http://xmlns.com/foaf/0.1/Person> .\r\n\
    _:me <http://xmlns.com/foaf/0.1/name> \"Alice\"@EN .\r\n\
    _:me <http://xmlns.com/foaf/0.1/knows> _:b .   # a friend\r\n\
    _:b <http://www.w3.org/1999/02/22-rdf-syntax-ns#type> <http://xmlns.com/foaf/0.1/Person> .\r\n\
    _:b <http://xmlns.com/foaf/0.1/name> \"Bob\" .\r\n";

const KNOWS: &str =
    "LOAD SCOPE one f\nLOAD SCOPE two f\nQUERY\nPREFIX foaf: <http://xmlns.com/foaf/0.1/>\n\
    SELECT ?n ?m\nWHERE { ?x a foaf:Person ; foaf:name ?n ; foaf:knows ?y .\n?y foaf:name ?m . }\nGO\n";

// Each file, with a script and its answers, none of which is a refusal.
const READ: [(&str, &[u8], &str); 11] = [
    (
        "LOAD f\nLOAD f\nUNLOAD f\n",
        LINES,
        "ok new 1 now 1\nok new 0 now 1\nok gone 1 now 0\n",
    ),
    ("LOAD\tf \n", LINES, "ok new 1 now 1\n"),
    ("LOAD f\n", b"", "ok new 0 now 0\n"),
    ("LOAD f\n", b"\n \t\r\n# \xc3\xa9", "ok new 0 now 0\n"),
    (
        "LOAD f\n",
        b"<x:a> <x:p> <x:b> .\r<x:a> <x:p> <x:c> .\r",
        "ok new 2 now 2\n",
    ),
    (
        "LOAD f\n",
        b"<x:a> <x:p> <x:b> .\n<x:a> <x:p> <x:c> .",
        "ok new 2 now 2\n",
    ),
    (
        "LOAD f\n",
        b"# \xc3\xa9\r\n<x:a> <x:p> \"\xc3\xa9\" .\r\n",
        "ok new 1 now 1\n",
    ),
    (
        "LOAD f\nUNLOAD SCOPE s f\nUNLOAD f\n",
        b"_:b <x:p> _:b .\n",
        "ok new 1 now 1\nok gone 0 now 1\nok gone 1 now 0\n",
    ),
    (
        "LOAD SCOPE s f\nDUMP\n",
        b"_:b <x:p> _:b .\n",
        "ok new 1 now 1\n_:s..b <x:p> _:s..b .\nok dump 1\n",
    ),
    (
        "LOAD SCOPE\t9Z  f\nDUMP\n",
        b"_:b <x:p> <x:b> .\n",
        "ok new 1 now 1\n_:9Z..b <x:p> <x:b> .\nok dump 1\n",
    ),
    ("UNLOAD f\n", LINES, "ok gone 0 now 0\n"),
];

// Each file, with its refusal.
const REFUSED: [(&str, &[u8], &str); 12] = [
    ("LOAD none.nt\n", LINES, "refused 4 file\n"),
    ("UNLOAD none.nt\n", LINES, "refused 4 file\n"),
    ("LOAD F\n", LINES, "refused 4 file\n"),
    ("LOAD f f\n", LINES, "refused 4 file\n"),
    (
        "LOAD f\n",
        b"<x:a> <x:p> <x:b> .\n<x:a> <x:p> .\n",
        "refused 3 line 2\n",
    ),
    (
        "UNLOAD f\n",
        b"<x:a> <x:p> <x:b> .\n\n<x:a> <x:p>\n",
        "refused 3 line 3\n",
    ),
    ("LOAD f\n", b"<x:a> <x:p> \"\xc3", "refused 3 line 1\n"),
    (
        "LOAD f\n",
        b"<x:a> <x:p> \"\xc3\xa9\" .\n# \xf0\x9f\x98",
        "refused 3 line 2\n",
    ),
    (
        "LOAD f\n",
        b"\xef\xbb\xbf<x:a> <x:p> <x:b> .\n",
        "refused 3 line 1\n",
    ),
    ("LOAD f\n", b"GO\n", "refused 3 line 1\n"),
    (
        "LOAD f\n",
        b"<x:a> <x:p> <x:b> .\r\r<x:a> .\r",
        "refused 3 line 3\n",
    ),
    (
        "LOAD f\n",
        b"<x:a> <x:p> <x:b> . <x:a> <x:p> <x:b> .",
        "refused 3 line 1\n",
    ),
];

// Runs a script over a file, asserts its answers and its end, and says how many triples it leaves.
fn ends<M: Mix>(
    rt: &impl Abort,
    alloc: Global,
    script: &str,
    pieces: Pieces<'_>,
    want: &str,
    status: Status,
) -> Result<u64, AllocError>
    requires { 0 < pieces.piece }
{
    let got = run_over::<M>(alloc, &[], script.as_bytes(), pieces)?;
    let (piece, failing) = (pieces.piece, pieces.failing);
    assert_eq!(rt;
        got.written.as_slice(),
        want.as_bytes(),
        "{script} in pieces of {piece}, read {failing}"
    );
    assert_eq!(rt; got.status, status, "{script}");
    Ok(got.triples)
}

#[test]
fn files_that_are_read(rt: HostRuntime) -> Result<(), Fail> {
    for (script, file, want) in READ {
        for piece in [1usize, 40, 65536] {
            let pieces = Pieces {
                file,
                piece,
                failing: 0,
            };
            ends::<SplitMix>(&rt, rt.alloc(), script, pieces, want, Status::Done)?;
            ends::<ConstMix>(&rt, rt.alloc(), script, pieces, want, Status::Done)?;
        }
    }
    Ok(())
}

#[test]
fn files_that_are_refused(rt: HostRuntime) -> Result<(), Fail> {
    for (script, file, want) in REFUSED {
        for piece in [1usize, 40, 65536] {
            let pieces = Pieces {
                file,
                piece,
                failing: 0,
            };
            let left = ends::<SplitMix>(
                &rt,
                rt.alloc(),
                script,
                pieces,
                want,
                Status::SomeRefused,
            )?;
            assert_eq!(rt; left, 0, "{script}");
        }
    }
    Ok(())
}

// Limits, a file under each of them, and the answer to its LOAD.
const LIMITED: [(&[&str], &[u8], &str); 7] = [
    (
        &["--max-bytes", "19"],
        b"<x:a> <x:p> <x:b> .\n",
        "refused 6 long\n",
    ),
    (
        &["--max-bytes", "20"],
        b"<x:a> <x:p> <x:b> .\n",
        "ok new 1 now 1\n",
    ),
    (
        &["--max-bytes", "19"],
        b"<x:a> <x:p> .\n<x:a> .\n",
        "refused 3 line 1\n",
    ),
    (
        &["--max-bytes", "13"],
        b"<x:a> <x:p> .\n<x:a> .\n",
        "refused 6 long\n",
    ),
    (
        &["--max-triples", "1"],
        b"<x:a> <x:p> <x:b> .\n\n<x:a> <x:p> <x:c> .\n<x:a> .\n",
        "refused 5 full 3\n",
    ),
    (
        &["--max-triples", "1"],
        b"<x:a> <x:p> <x:b> .\n<x:a> <x:p> <x:b> .\n",
        "ok new 1 now 1\n",
    ),
    (
        &["--max-triples", "1"],
        b"<x:a> <x:p> <x:b> .\n<x:a> .\n<x:a> <x:p> <x:c> .\n",
        "refused 3 line 2\n",
    ),
];

#[test]
fn files_under_limits(rt: HostRuntime) -> Result<(), Fail> {
    for (words, file, want) in LIMITED {
        for piece in [1usize, 65536] {
            let pieces = Pieces {
                file,
                piece,
                failing: 0,
            };
            let got = run_over::<SplitMix>(rt.alloc(), words, b"LOAD f\n", pieces)?;
            assert_eq!(rt;
                got.written.as_slice(),
                want.as_bytes(),
                "{want} in pieces of {piece}"
            );
        }
    }
    Ok(())
}

#[test]
fn one_file_under_two_scopes(rt: HostRuntime) -> Result<(), Fail> {
    let want =
        "ok new 5 now 5\nok new 5 now 10\n?n\t?m\n\"Alice\"@en\t\"Bob\"\n\"Alice\"@en\t\"Bob\"\nok rows 2\n";
    for piece in [7usize, 65536] {
        let pieces = Pieces {
            file: ALICE,
            piece,
            failing: 0,
        };
        let split = run_over::<SplitMix>(rt.alloc(), &["--sort"], KNOWS.as_bytes(), pieces)?;
        assert_eq!(rt; split.written.as_slice(), want.as_bytes());
        let constant = run_over::<ConstMix>(rt.alloc(), &["--sort"], KNOWS.as_bytes(), pieces)?;
        assert_eq!(rt; constant.written.as_slice(), want.as_bytes());
    }
    Ok(())
}

const FIGURES: &str = "LOAD f\nSTATS\n";

// The second read of a file in pieces of 40 bytes fails: what stands before it decides, and nothing is put in.
const CUT: [(&[u8], &str); 2] = [
    (LINES, NOTHING),
    (
        b"<x:a> <x:p> <x:b> .\n<x:a> <x:p> .\n<x:a> <x:p> <x:b> .\n",
        "refused 3 line 2\ntriples 0\nterms 0\ntwo 0\none 0\nok stats\n",
    ),
];

#[test]
fn a_failed_read_is_no_end(rt: HostRuntime) -> Result<(), Fail> {
    for (file, want) in CUT {
        let pieces = Pieces {
            file,
            piece: 40,
            failing: 2,
        };
        ends::<SplitMix>(&rt, rt.alloc(), FIGURES, pieces, want, Status::SomeRefused)?;
    }
    for failing in 1..=4u64 {
        let pieces = Pieces {
            file: LINES,
            piece: 20,
            failing,
        };
        ends::<SplitMix>(
            &rt,
            rt.alloc(),
            FIGURES,
            pieces,
            NOTHING,
            Status::SomeRefused,
        )?;
    }
    Ok(())
}

// The lengths of a file's one line, words, and the answer to its LOAD. A line of a mebibyte is read. One of a byte more is
// refused where it stands, unless the file is too long by then.
const LONGEST: [(usize, &[&str], &str); 4] = [
    (1_048_576, &[], "ok new 0 now 0\n"),
    (1_048_577, &[], "refused 3 line 1\n"),
    (1_048_577, &["--max-bytes", "1048577"], "refused 3 line 1\n"),
    (1_048_577, &["--max-bytes", "1048576"], "refused 6 long\n"),
];

#[test]
fn the_longest_line_of_a_file(rt: HostRuntime) -> Result<(), Fail> {
    for (length, words, want) in LONGEST {
        let mut file = b"#".to_vec(rt.alloc())?;
        file.resize(length, b' ')?;
        let pieces = Pieces {
            file: &file,
            piece: 65536,
            failing: 0,
        };
        let got = run_over::<SplitMix>(rt.alloc(), words, b"LOAD f\n", pieces)?;
        assert_eq!(rt;
            got.written.as_slice(),
            want.as_bytes(),
            "a line of {length}"
        );
    }
    Ok(())
}
