//! The line that ends an answer, and the line of a refused command.
ghost use Rattle.std.specs.Prelude.{◌≡◌, ◌++◌, codes, decimal};
ghost use Rattle.run_model.specs.Answers.{refusal_text, reply_text, figures_text};
ghost use Rattle.tn_io.specs.OutText.{Puts};
ghost use Rattle.answer_text.specs.Fields.{change_text};
ghost use Rattle.answer_text.specs.Seen.{refusal_of, reply_of, figures_of};

use crate::pieces::put_pieces;
use itoa::Buffer;
use tn_io::{Failed, Out, Sink};

/// Why a command was refused (docs/SCRIPT.md, "Refusals").
#[derive(Clone, Copy, Debug, PartialEq, Eq)]
pub enum Refusal {
    /// The line is no command form.
    Command,
    /// The text is no query.
    Query,
    /// The line with this number, from 1, is no line of N-Triples.
    Line(u64),
    /// A read of the file failed.
    File,
    /// With the line of this number, from 1, the graph has more triples than it may have.
    Full(u64),
    /// The file or the query has too many bytes.
    Long,
    /// The query uses a prefix that isn't declared.
    Prefix,
    /// The query has too many patterns or columns, or too large a number.
    Size,
    /// Memory ran out.
    Memory,
    /// The script ends inside the block.
    Unended,
}

/// What a command that isn't refused ends its answer with. Numbers of triples are those that changed, and those that there
/// are now.
#[derive(Clone, Copy, Debug, PartialEq, Eq)]
pub enum Reply {
    New(u64, u64),
    Gone(u64, u64),
    Rows(u64),
    Stats,
    Shape,
    Dump(u64),
}

/// The figures of a graph: its triples, their terms, and the rows of pairs and of single terms of its shape.
#[derive(Clone, Copy, Debug, PartialEq, Eq)]
pub struct Figures {
    pub triples: u64,
    pub terms: u64,
    pub two: u64,
    pub one: u64,
}

// Puts a text, a number and the end of the line.
fn put_number<K: Sink>(out: &mut Out<'_, K>, before: &[u8], number: u64) -> Result<(), Failed>
    ensures same_sink { out.new.sink.ghost_name ≡ out.old.sink.ghost_name }
    ensures put { Puts K.written K.faults out.old out.new result (before.now ++ decimal number ++ codes "\n") }
{
    let mut buffer = Buffer::new();
    let number = buffer.format(number).as_bytes();
    put_pieces(out, &[before, number, b"\n"])
}

// Puts what was done, how many triples it was, and how many there are now.
fn put_changed<K: Sink>(
    out: &mut Out<'_, K>,
    done: &[u8],
    changed: u64,
    now: u64,
) -> Result<(), Failed>
    ensures same_sink { out.new.sink.ghost_name ≡ out.old.sink.ghost_name }
    ensures put { Puts K.written K.faults out.old out.new result (change_text done.now changed now) }
{
    let mut first = Buffer::new();
    let mut second = Buffer::new();
    let changed = first.format(changed).as_bytes();
    let now = second.format(now).as_bytes();
    put_pieces(out, &[done, changed, b" now ", now, b"\n"])
}

/// Puts the last line of an answer.
pub fn ok<K: Sink>(reply: Reply, out: &mut Out<'_, K>) -> Result<(), Failed>
    ensures same_sink { out.new.sink.ghost_name ≡ out.old.sink.ghost_name }
    ensures put { Puts K.written K.faults out.old out.new result (reply_text (reply_of reply)) }
{
    match reply {
        Reply::New(changed, now) => put_changed(out, b"ok new ", changed, now),
        Reply::Gone(changed, now) => put_changed(out, b"ok gone ", changed, now),
        Reply::Rows(rows) => put_number(out, b"ok rows ", rows),
        Reply::Stats => put_pieces(out, &[b"ok stats\n"]),
        Reply::Shape => put_pieces(out, &[b"ok shape\n"]),
        Reply::Dump(lines) => put_number(out, b"ok dump ", lines),
    }
}

/// Puts the line of a refused command.
pub fn refused<K: Sink>(refusal: Refusal, out: &mut Out<'_, K>) -> Result<(), Failed>
    ensures same_sink { out.new.sink.ghost_name ≡ out.old.sink.ghost_name }
    ensures put { Puts K.written K.faults out.old out.new result (refusal_text (refusal_of refusal)) }
{
    match refusal {
        Refusal::Command => put_pieces(out, &[b"refused 1 command\n"]),
        Refusal::Query => put_pieces(out, &[b"refused 2 query\n"]),
        Refusal::Line(number) => put_number(out, b"refused 3 line ", number),
        Refusal::File => put_pieces(out, &[b"refused 4 file\n"]),
        Refusal::Full(number) => put_number(out, b"refused 5 full ", number),
        Refusal::Long => put_pieces(out, &[b"refused 6 long\n"]),
        Refusal::Prefix => put_pieces(out, &[b"refused 7 prefix\n"]),
        Refusal::Size => put_pieces(out, &[b"refused 8 size\n"]),
        Refusal::Memory => put_pieces(out, &[b"refused 9 memory\n"]),
        Refusal::Unended => put_pieces(out, &[b"refused 10 unended\n"]),
    }
}

/// Puts the figures of a graph, each on its line.
pub fn put_figures<K: Sink>(figures: Figures, out: &mut Out<'_, K>) -> Result<(), Failed>
    ensures same_sink { out.new.sink.ghost_name ≡ out.old.sink.ghost_name }
    ensures put { Puts K.written K.faults out.old out.new result (figures_text (figures_of figures)) }
{
    let mut triples = Buffer::new();
    let mut terms = Buffer::new();
    let mut two = Buffer::new();
    let mut one = Buffer::new();
    let triples = triples.format(figures.triples).as_bytes();
    let terms = terms.format(figures.terms).as_bytes();
    let two = two.format(figures.two).as_bytes();
    let one = one.format(figures.one).as_bytes();
    put_pieces(
        out,
        &[
            b"triples ",
            triples,
            b"\nterms ",
            terms,
            b"\ntwo ",
            two,
            b"\none ",
            one,
            b"\n",
        ],
    )
}
