//! Files that are read at places.
ghost use Rattle.std.specs.Prelude.{◌≡◌};
ghost use Rattle.std.specs.declared.option.Option.{Option};
ghost use Rattle.std.specs.Io.{ReadsAtMost};
ghost use Rattle.file_model.specs.FileMap.{FileMap, ReadsAt};
ghost use Rattle.tn_io.specs.FileFaults.{FaultCounts, HasCauseAt};

use crate::outside::Failed;

pub trait Files {
    /// The bytes of each file by its name, where they are told.
    ghost files: { Self → Option FileMap };

    /// How often a read of this name at this place failed.
    ghost faults: { Self → FaultCounts };

    /// Reads the file of this name from a place on.
    fn read_at(&mut self, name: &str, at: u64, buf: &mut [u8]) -> Result<usize, Failed>
        ensures bound { ReadsAtMost result buf.new }
        ensures bytes { ReadsAt (files self.old) name.now at result buf.new }
        ensures same { files self.new ≡ files self.old }
        ensures cause { HasCauseAt (faults self.old) (faults self.new) name.now at result };
}
