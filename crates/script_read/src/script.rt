//! The lines of a script, in whatever pieces its source gives the bytes.
//!
//! A `Script` holds all buffers of reading from its start on. The lines are those of `text_lines`.
ghost use Rattle.std.specs.Prelude.{◌≡◌, ◌≤◌, ◌<◌, ◌+◌, ◌++◌, [], List, ℕ, length, true, false, None, Some, Ok, Err, IfOk, IfSome, OnErr};
ghost use Rattle.std.specs.Io.KnownBytes.{IsAtEnd};
ghost use Rattle.tn_io.specs.Causes.{HasCause, Rose};
ghost use Rattle.tn_io.specs.CutterState.{told, to_come, whole_to_come};
ghost use Rattle.text_lines.specs.Lines.{Line};
ghost use Rattle.script_read.specs.ScriptState.{at_start, to_go, to_read, IsOpen};

use std::alloc::Global;
use std::marker::Model;
use tn_io::{Cut, Cutter, Source};
use trie_depth::Memory;

const SIZE: usize = 8192;

/// Why there is no next line.
#[derive(Clone, Copy, Debug, PartialEq, Eq)]
pub enum ScriptFault {
    /// A read of the source failed.
    Read,
    /// The script has more bytes than it may have.
    TooLong,
}

/// The lines of a script.
#[derive(Drop)]
pub struct Script {
    cutter: Cutter,
    buffer: [u8; SIZE],
    at: usize,
    end: usize,
    left: u64,
    over: bool,
    ended: bool,
}

impl Model for Script {
    ghost use Rattle.std.specs.Prelude.{◌≤◌, ◌-◌, take, drop};
    ghost use Rattle.script_read.specs.ScriptState.{ScriptState};

    ghost Value = { ScriptState };

    ghost view = { λ s. record { cutter = s.cutter; ahead = take (s.end - s.at) (drop s.at s.buffer); left = s.left; over = s.over; ended = s.ended } };

    ghost invariant = { λ s. (s.at ≤ s.end) × (s.end ≤ 8192) };
}

impl Script {
    ghost use Rattle.script_read.specs.ScriptCalls.{NextLine, Takes, TellsMore};

    /// A script of at most `max` bytes. Takes all buffers of reading.
    pub fn new(alloc: Global, max: u64) -> Result<Script, Memory>
        ensures { IfOk result (λ s. s ≡ at_start max) }
    {
        Ok(Script {
            cutter: Cutter::new(alloc)?,
            buffer: [0; SIZE],
            at: 0,
            end: 0,
            left: max,
            over: false,
            ended: false,
        })
    }

    // Cuts the bytes ahead up to the next line end.
    fn cut(&mut self) -> Option<Cut>
        ensures still { TellsMore self.old self.new (told result self.new.cutter) }
        ensures all { result ≡ None → self.new.ahead ≡ [] }
        ensures none_left { whole_to_come self.new.cutter [] ≡ [] }
        ensures fewer { IfSome result (λ _. to_go self.new < to_go self.old) }
        ensures left { self.new.left ≡ self.old.left }
        ensures over { self.new.over ≡ self.old.over }
        ensures ended { self.new.ended ≡ self.old.ended }
    {
        let bytes: &[u8] = &self.buffer;
        let (count, cut) = self.cutter.take(&bytes[self.at..self.end]);
        self.at += count;
        cut
    }

    // Reads bytes ahead, where there are none, and says whether any came.
    fn refill<S: Source>(&mut self, source: &mut S) -> Result<bool, ScriptFault>
        requires empty { self.old.ahead ≡ [] }
        requires under { self.old.over ≡ false }
        ensures takes { Takes (S.left source.old) (S.left source.new) self.old self.new }
        ensures none { result ≡ Ok false → (self.new ≡ self.old) × IsAtEnd (S.left source.new) }
        ensures err { OnErr result (self.new ≡ self.old) }
        ensures cause { HasCause (S.faults source.old) (S.faults source.new) result }
        ensures fewer { result ≡ Ok true → to_read self.new < to_read self.old }
        ensures no_more { to_go self.new ≤ to_go self.old }
        ensures ended { self.new.ended ≡ self.old.ended }
    {
        let room = self.left.saturating_add(1).min(SIZE as u64) as usize;
        let Ok(count) = source.read(&mut self.buffer[..room]) else {
            return Err(ScriptFault::Read);
        };
        if count == 0 {
            return Ok(false);
        }
        self.at = 0;
        if count as u64 > self.left {
            self.over = true;
            self.end = self.left as usize;
            self.left = 0;
        } else {
            self.end = count;
            self.left -= count as u64;
        }
        Ok(true)
    }

    // The last line, where bytes came behind the last line end.
    fn finish(&mut self) -> Option<Cut>
        ensures last { to_come self.old.cutter [] ≡ told result self.new.cutter }
        ensures ahead { self.new.ahead ≡ self.old.ahead }
        ensures left { self.new.left ≡ self.old.left }
        ensures ended { self.new.ended ≡ true }
    {
        self.ended = true;
        self.cutter.end()
    }

    /// Goes to the next line, which `line` then gives. A source that was read to its end isn't read again.
    pub fn next_line<S: Source>(&mut self, source: &mut S) -> Result<Option<Cut>, ScriptFault>
        ensures next { NextLine (S.left source.old) (S.left source.new) self.old self.new result }
        ensures fewer { IfOk result (λ o. IfSome o (λ _. to_go self.new < to_go self.old)) }
        ensures later { S.faults source.old ≤ S.faults source.new }
        ensures fault { result ≡ Err ScriptFault.Read → Rose (S.faults source.old) (S.faults source.new) }
    {
        if self.ended {
            return Ok(None);
        }
        'reads: loop {
            if let Some(cut) = self.cut() {
                return Ok(Some(cut));
            }
            if self.over {
                return Err(ScriptFault::TooLong);
            }
            let Ok(more) = self.refill(source) else {
                return Err(ScriptFault::Read);
            };
            if !more {
                return Ok(self.finish());
            }
        }
    }

    /// The line that was told last, without its end.
    pub fn line(&self) -> &[u8]
        ensures line { result.now ≡ self.now.cutter.line }
        ensures short { length result.now ≤ 1048576 }
    {
        self.cutter.line()
    }
}
