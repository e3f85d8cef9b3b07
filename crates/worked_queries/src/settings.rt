//! What some command lines set, and the help text.
use command_words::{Refused, Settings, read_words};
use std::alloc::AllocError;

#[test]
fn words(rt: HostRuntime) -> Result<(), AllocError> {
    let rows: [(&[&str], &str); 12] = [
        (&[], "false 10000000 1099511627776"),
        (&["--sort"], "true 10000000 1099511627776"),
        (
            &["--max-bytes", "7", "--sort", "--max-triples=500000000"],
            "true 500000000 7",
        ),
        (&["--help"], "help"),
        (&["-h", "--sort"], "help"),
        (&["--nonsense", "-h"], "bad"),
        (&["--sort", "--sort"], "bad"),
        (&["--max-triples", "0"], "bad"),
        (&["--max-triples", "500000001"], "bad"),
        (&["--max-bytes", "1099511627777"], "bad"),
        (&["script.txt"], "bad"),
        (&["-V"], "bad"),
    ];
    for (words, want) in rows {
        let told = match read_words(rt.alloc(), words) {
            Ok(
                Settings {
                    sort,
                    max_triples,
                    max_bytes,
                },
            ) => { format!(in rt.alloc(); "{sort} {max_triples} {max_bytes}")? }
            Err(Refused::Help(_)) => format!(in rt.alloc(); "help")?,
            Err(Refused::Bad) => format!(in rt.alloc(); "bad")?,
            Err(Refused::Memory) => format!(in rt.alloc(); "memory")?,
        };
        assert_eq!(rt; told.as_str(), want);
    }
    Ok(())
}

#[test]
fn help(rt: HostRuntime) -> Result<(), AllocError> {
    let text = match read_words(rt.alloc(), &["--help"]) {
        Err(Refused::Help(text)) => text,
        _ => format!(in rt.alloc(); "none")?,
    };
    for part in [
        "standard input",
        "--sort",
        "--max-triples <N>",
        "--max-bytes <N>",
        "| tentris",
    ] {
        assert!(rt; text.as_str().contains(part), "{part}");
    }
    Ok(())
}
