//! The file system. It tells no bytes; each failure raises one count, for all names and places.
ghost use Rattle.std.specs.Prelude.{◌≡◌};

use std::fs::File;
use std::os::unix::fs::FileExt;
use tn_io::{Failed, Files};

/// Files by their paths. Each read opens the file anew.
#[derive(Drop)]
pub struct Disk<'a> {
    rt: &'a HostRuntime,
    faults: u64,
}

impl<'a> Disk<'a> {
    ghost use Rattle.tentris_cli.specs.Standard.{disk_faults};

    pub fn new(rt: &'a HostRuntime) -> Disk<'a>
        ensures { disk_faults result ≡ 0 }
    {
        Disk { rt, faults: 0 }
    }
}

impl<'a> Files for Disk<'a> {
    ghost use Rattle.std.specs.Prelude.{None};
    ghost use Rattle.tentris_cli.specs.Standard.{disk_faults};

    ghost files = { λ _. None };

    ghost faults = { λ disk _ _. disk_faults disk };

    fn read_at(&mut self, name: &str, at: u64, buf: &mut [u8]) -> Result<usize, Failed> {
        match File::open(self.rt, name).and_then(|file| file.read_at(buf, at)) {
            Ok(count) => Ok(count),
            Err(_) => {
                self.faults = self.faults.saturating_add(1);
                Err(Failed)
            }
        }
    }
}
