//! Files over memory. The first entry of a name counts. The number of a call, from 1, stays at 2^64 - 1 once it has reached it.
ghost use Rattle.std.specs.Prelude.{◌≡◌, ◌≤◌, ◌<◌, ◌↔◌, ℕ, List, drop, length, None, Some, IfOk, OnOk, OnErr};
ghost use Rattle.std.specs.Result.{IsErr};
ghost use Rattle.std.specs.Option.{option_map};
ghost use Rattle.std.specs.FinMap as map;
ghost use Rattle.std.specs.Io.{ReadsAtMost};
ghost use Rattle.tn_io.specs.Causes.{one_more};
ghost use Rattle.tn_io.specs.FileFaults.{HasCauseAt};
ghost use Rattle.file_model.specs.FileMap.{files_of, GivesAt, ReadsAt};

use crate::bytes::Bytes;
use crate::files::Files;
use crate::memory::copy_front;
use crate::outside::Failed;
use crate::text::Text;

// The bytes of the first entry of a name.
fn bytes_of<'a>(files: &'a [(Text, Bytes)], name: &str) -> Option<&'a [u8]>
    ensures { option_map (λ bytes. bytes.now) result ≡ map.get (files_of files.now) name.now }
{
    for (text, bytes) in files {
        if name == text.as_str() {
            return Some(bytes.as_slice());
        }
    }
    None
}

// The bytes from a place on.
fn from_place(bytes: &[u8], at: u64) -> &[u8]
    ensures { result.now ≡ drop at bytes.now }
{
    let start = bytes.len().min(at as usize);
    &bytes[start..]
}

// Copies as many of the bytes at a place as are there, fit, and are allowed.
fn copy_at(from: &[u8], at: u64, most: usize, to: &mut [u8]) -> usize
    requires { 0 < most }
    ensures gives { GivesAt from.now at result to.new }
    ensures fits { result ≤ length to.old }
    ensures most { result ≤ most }
{
    copy_front(from_place(from, at), most, to)
}

/// Files in pieces. The calls whose numbers are in `fails` fail. One count of faults serves all names and places.
#[derive(Drop)]
pub struct MemFiles {
    files: Vec<(Text, Bytes)>,
    piece: usize,
    fails: Vec<u64>,
    calls: u64,
    faults: u64,
    ghost some: { 0 < piece },
}

impl MemFiles {
    ghost use Rattle.tn_io.specs.MemoryFiles.{mem_files, mem_faults, mem_fails, mem_calls, mem_piece};

    /// A call gives at most `piece` bytes.
    pub fn new(files: Vec<(Text, Bytes)>, piece: usize, fails: Vec<u64>) -> MemFiles
        requires { 0 < piece }
        ensures files { mem_files result ≡ files_of files.items }
        ensures faults { mem_faults result ≡ 0 }
        ensures calls { mem_calls result ≡ 0 }
        ensures piece { mem_piece result ≡ piece }
        ensures fails { mem_fails result ≡ fails.items }
    {
        MemFiles {
            files,
            piece,
            fails,
            calls: 0,
            faults: 0,
        }
    }
}

impl Files for MemFiles {
    ghost use Rattle.tn_io.specs.MemoryFiles.{mem_files, mem_faults, mem_fails, mem_calls, mem_piece, IsToFail};

    ghost files = { λ s. Some (mem_files s) };

    ghost faults = { λ s _ _. mem_faults s };

    fn read_at(&mut self, name: &str, at: u64, buf: &mut [u8]) -> Result<usize, Failed>
        ensures bound { ReadsAtMost result buf.new }
        ensures bytes { ReadsAt (Some (mem_files self.old)) name.now at result buf.new }
        ensures same { mem_files self.new ≡ mem_files self.old }
        ensures cause { HasCauseAt (λ _ _. mem_faults self.old) (λ _ _. mem_faults self.new) name.now at result }
        ensures piece { IfOk result (λ n. n ≤ mem_piece self.old) }
        ensures calls { mem_calls self.new ≡ one_more (mem_calls self.old) }
        ensures fails { IsErr result ↔ IsToFail self.old (mem_calls self.new) name.now }
        ensures counted { OnErr result (mem_faults self.new ≡ one_more (mem_faults self.old)) }
        ensures uncounted { OnOk result (mem_faults self.new ≡ mem_faults self.old) }
        ensures same_plan { (mem_fails self.new ≡ mem_fails self.old) × (mem_piece self.new ≡ mem_piece self.old) }
    {
        self.calls = self.calls.saturating_add(1);
        if !self.fails.contains(&self.calls) {
            if let Some(bytes) = bytes_of(&self.files, name) {
                return Ok(copy_at(bytes, at, self.piece, buf));
            }
        }
        self.faults = self.faults.saturating_add(1);
        Err(Failed)
    }
}

/// Files whose reads never fail. Only the count of a name that is no file ever rises.
#[derive(Drop)]
pub struct PureFiles {
    files: Vec<(Text, Bytes)>,
    missing: u64,
}

impl PureFiles {
    ghost use Rattle.tn_io.specs.MemoryFiles.{pure_files, pure_faults};

    pub fn new(files: Vec<(Text, Bytes)>) -> PureFiles
        ensures files { pure_files result ≡ files_of files.items }
        ensures faults { (name : List ℕ) → (at : ℕ) → pure_faults result name at ≡ 0 }
    {
        PureFiles { files, missing: 0 }
    }
}

impl Files for PureFiles {
    ghost use Rattle.tn_io.specs.MemoryFiles.{pure_files, pure_faults, NoFileFailed};

    ghost files = { λ s. Some (pure_files s) };

    ghost faults = { pure_faults };

    fn read_at(&mut self, name: &str, at: u64, buf: &mut [u8]) -> Result<usize, Failed>
        ensures bound { ReadsAtMost result buf.new }
        ensures bytes { ReadsAt (Some (pure_files self.old)) name.now at result buf.new }
        ensures same { pure_files self.new ≡ pure_files self.old }
        ensures cause { HasCauseAt (pure_faults self.old) (pure_faults self.new) name.now at result }
        ensures fails { IsErr result ↔ (map.get (pure_files self.old) name.now ≡ None) }
        ensures never { NoFileFailed self.new }
    {
        let Some(bytes) = bytes_of(&self.files, name) else {
            self.missing = self.missing.saturating_add(1);
            return Err(Failed);
        };
        Ok(copy_at(bytes, at, usize::MAX, buf))
    }
}
