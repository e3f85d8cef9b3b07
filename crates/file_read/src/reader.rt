//! The lines of a file, which is read 65,536 bytes at a time.
//!
//! A `FileReader` holds all buffers of reading from its start on, and reads one file after another. The lines are those
//! of `text_lines`, and what a file that is too long has of them is in `file_model`'s `specs/FileLines.antt`.
ghost use Rattle.std.specs.Prelude.{◌≡◌, ◌≤◌, ◌<◌, ◌^◌, [], List, ℕ, length, true, false, None, Ok, IfOk, IfSome, OnOk, OnErr};
ghost use Rattle.tn_io.specs.Causes.{Rose};
ghost use Rattle.tn_io.specs.CutterState.{told, to_come, whole_to_come};
ghost use Rattle.file_read.specs.ReaderState.{at_start, to_go, to_read};

use std::alloc::Global;
use std::marker::Model;
use tn_io::{Cut, Cutter, Failed, Files};
use trie_depth::Memory;

const SIZE: usize = 65_536;

/// Why there is no next line.
#[derive(Clone, Copy, Debug, PartialEq, Eq)]
pub enum FileFault {
    /// A read of the file failed, at the place that `place` gives.
    Read,
    /// The file has more bytes than it may have.
    Long,
}

/// The lines of one file after another.
#[derive(Drop)]
pub struct FileReader {
    cutter: Cutter,
    buffer: Vec<u8>,
    at: usize,
    end: usize,
    max: u64,
    place: u64,
    ended: bool,
}

impl Model for FileReader {
    ghost use Rattle.std.specs.Prelude.{◌≡◌, ◌≤◌, ◌+◌, ◌-◌, ◌^◌, take, drop, vec_len};
    ghost use Rattle.file_read.specs.ReaderState.{ReaderState};

    ghost Value = { ReaderState };

    ghost view = { λ s. record { max = s.max; cutter = s.cutter; ahead = take (s.end - s.at) (drop s.at s.buffer.items); place = s.place; ended = s.ended } };

    ghost invariant = { λ s. (s.at ≤ s.end) × (s.end ≤ 65536) × (vec_len s.buffer ≡ 65536) × (s.max ≤ 2 ^ 40) × (s.place ≤ s.max + 65536) };
}

impl FileReader {
    ghost use Rattle.file_read.specs.ReaderCalls.{NextLine, Takes, TellsMore, EndsAt, RoseAt, IsCounted};

    /// For files of at most `max` bytes. Takes all buffers of reading.
    pub fn new(alloc: Global, max: u64) -> Result<FileReader, Memory>
        requires { max ≤ 2 ^ 40 }
        ensures { IfOk result (λ s. s ≡ at_start max) }
    {
        Ok(FileReader {
            cutter: Cutter::new(alloc)?,
            buffer: Vec::from_elem(alloc, 0, SIZE)?,
            at: 0,
            end: 0,
            max,
            place: 0,
            ended: false,
        })
    }

    /// Begins another file, whatever was read of the one before.
    pub fn begin(&mut self)
        ensures { self.new ≡ at_start self.old.max }
    {
        self.cutter.restart();
        self.at = 0;
        self.end = 0;
        self.place = 0;
        self.ended = false;
    }

    // Cuts the bytes ahead up to the next line end.
    fn cut(&mut self) -> Option<Cut>
        ensures still { TellsMore self.old self.new (told result self.new.cutter) }
        ensures all { result ≡ None → self.new.ahead ≡ [] }
        ensures none_left { whole_to_come self.new.cutter [] ≡ [] }
        ensures fewer { IfSome result (λ _. to_go self.new < to_go self.old) }
        ensures max { self.new.max ≡ self.old.max }
        ensures place { self.new.place ≡ self.old.place }
        ensures ended { self.new.ended ≡ self.old.ended }
    {
        let bytes = self.buffer.as_slice();
        let (count, cut) = self.cutter.take(&bytes[self.at..self.end]);
        self.at += count;
        cut
    }

    // Reads bytes ahead, where there are none, and says whether any came.
    fn refill<F: Files>(&mut self, files: &mut F, name: &str) -> Result<bool, Failed>
        requires empty { self.old.ahead ≡ [] }
        requires under { self.old.place ≤ self.old.max }
        ensures takes { Takes (F.files files.old) name.now self.old self.new }
        ensures none { result ≡ Ok false → self.new ≡ self.old }
        ensures at_end { result ≡ Ok false → EndsAt (F.files files.old) name.now self.old.place }
        ensures same { F.files files.new ≡ F.files files.old }
        ensures err { OnErr result (self.new ≡ self.old) }
        ensures later { (other : List ℕ) → (at : ℕ) → F.faults files.old other at ≤ F.faults files.new other at }
        ensures failed { OnErr result (RoseAt (F.faults files.old) (F.faults files.new) name.now self.old.place) }
        ensures unraised { OnOk result (F.faults files.new ≡ F.faults files.old) }
        ensures fewer { result ≡ Ok true → to_read self.new < to_read self.old }
        ensures no_more { to_go self.new ≤ to_go self.old }
        ensures max { self.new.max ≡ self.old.max }
        ensures ended { self.new.ended ≡ self.old.ended }
    {
        let count = files.read_at(name, self.place, self.buffer.as_mut_slice())?;
        if count == 0 {
            return Ok(false);
        }
        let left = self.max - self.place;
        self.at = 0;
        self.end = left.min(count as u64) as usize;
        self.place += count as u64;
        Ok(true)
    }

    // The last line, where bytes came behind the last line end.
    fn finish(&mut self) -> Option<Cut>
        ensures last { to_come self.old.cutter [] ≡ told result self.new.cutter }
        ensures ahead { self.new.ahead ≡ self.old.ahead }
        ensures max { self.new.max ≡ self.old.max }
        ensures place { self.new.place ≡ self.old.place }
        ensures ended { self.new.ended ≡ true }
    {
        self.ended = true;
        self.cutter.end()
    }

    /// Goes to the next line of the file of this name, which `line` then gives. After a fault the file has to be begun anew.
    pub fn next_line<F: Files>(
        &mut self,
        files: &mut F,
        name: &str,
    ) -> Result<Option<Cut>, FileFault>
        ensures next { NextLine (F.files files.old) name.now self.old self.new result }
        ensures cause { IsCounted (F.faults files.old) (F.faults files.new) name.now self.new.place result }
        ensures fewer { IfOk result (λ o. IfSome o (λ _. to_go self.new < to_go self.old)) }
        ensures same { F.files files.new ≡ F.files files.old }
        ensures max { self.new.max ≡ self.old.max }
    {
        if self.ended {
            return Ok(None);
        }
        'reads: loop {
            if let Some(cut) = self.cut() {
                return Ok(Some(cut));
            }
            if self.max < self.place {
                return Err(FileFault::Long);
            }
            let Ok(more) = self.refill(files, name) else {
                return Err(FileFault::Read);
            };
            if !more {
                return Ok(self.finish());
            }
        }
    }

    /// The line that was told last, without its end.
    pub fn line(&self) -> &[u8]
        ensures line { result.now ≡ self.now.cutter.line }
        ensures short { length result.now ≤ 1048576 }
    {
        self.cutter.line()
    }

    /// How many bytes of the file were read: the place of the next read, or of one that failed.
    pub fn place(&self) -> u64
        ensures { result ≡ self.now.place }
    {
        self.place
    }
}
