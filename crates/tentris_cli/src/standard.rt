//! Standard input and standard output as source and sink. They tell no bytes; each failure raises a count.
ghost use Rattle.std.specs.Prelude.{◌≡◌};

use std::io::{Read, Write};
use tn_io::{Failed, Sink, Source};

/// A reader as a source, or a writer as a sink. Each piece that is written is passed on at once.
#[derive(Drop)]
pub struct Counted<S> {
    stream: S,
    faults: u64,
}

impl<S> Counted<S> {
    ghost use Rattle.tentris_cli.specs.Standard.{stream_faults};

    pub fn new(stream: S) -> Counted<S>
        ensures { stream_faults result ≡ 0 }
    {
        Counted { stream, faults: 0 }
    }
}

impl<R: Read> Source for Counted<R> {
    ghost use Rattle.std.specs.Prelude.{None};
    ghost use Rattle.tentris_cli.specs.Standard.{stream_faults};

    ghost left = { λ _. None };

    ghost faults = { stream_faults };

    fn read(&mut self, buf: &mut [u8]) -> Result<usize, Failed> {
        match self.stream.read(buf) {
            Ok(count) => Ok(count),
            Err(_) => {
                self.faults = self.faults.saturating_add(1);
                Err(Failed)
            }
        }
    }
}

impl<W: Write> Sink for Counted<W> {
    ghost use Rattle.std.specs.Prelude.{None};
    ghost use Rattle.tentris_cli.specs.Standard.{stream_faults};

    ghost written = { λ _. None };

    ghost faults = { stream_faults };

    fn write(&mut self, piece: &[u8]) -> Result<usize, Failed> {
        let Ok(count) = self.stream.write(piece) else {
            self.faults = self.faults.saturating_add(1);
            return Err(Failed);
        };
        let Ok(()) = self.stream.flush() else {
            self.faults = self.faults.saturating_add(1);
            return Err(Failed);
        };
        if count == 0 {
            self.faults = self.faults.saturating_add(1);
        }
        Ok(count)
    }
}
