//! The answers of commands, put as the texts of docs/SCRIPT.md, "Answers" and "Refusals".
ghost use Rattle.std.specs.Prelude.{◌≡◌};
ghost use Rattle.tn_io.specs.OutText.{Puts};
ghost use Rattle.run_model.specs.Answers.{answer_text as text_of_answer, Dumped, Counted, Shaped};
ghost use Rattle.line_batch.specs.Seen.{figures_seen};

use answer_text::{Figures, Refusal, Reply, ok, put_figures, put_lines, refused};
use graph_store::{Changed, Stats};
use tn_io::{Failed, Lines, Out, Sink};

/// What a command answers.
#[derive(Debug, Drop)]
pub enum Answer {
    New(Changed),
    Gone(Changed),
    Dumped(Lines),
    Counted(Stats),
    Shaped(Lines),
    Refused(Refusal),
}

impl Answer {
    ghost use Rattle.line_batch.specs.Seen.{answer_of};

    /// Puts the whole text of an answer.
    pub fn put<K: Sink>(&self, out: &mut Out<'_, K>) -> Result<(), Failed>
        ensures same_sink { out.new.sink.ghost_name ≡ out.old.sink.ghost_name }
        ensures put { Puts K.written K.faults out.old out.new result (text_of_answer (answer_of self.now)) }
    {
        match self {
            Answer::New(change) => ok(Reply::New(change.changed, change.now), out),
            Answer::Gone(change) => ok(Reply::Gone(change.changed, change.now), out),
            Answer::Dumped(lines) => put_dump(out, lines),
            Answer::Counted(stats) => put_stats(out, *stats),
            Answer::Shaped(lines) => put_shape(out, lines),
            Answer::Refused(cause) => refused(*cause, out),
        }
    }
}

// Puts the lines of a dump, and how many they are.
fn put_dump<K: Sink>(out: &mut Out<'_, K>, lines: &Lines) -> Result<(), Failed>
    ensures same_sink { out.new.sink.ghost_name ≡ out.old.sink.ghost_name }
    ensures put { Puts K.written K.faults out.old out.new result (text_of_answer (Dumped lines.now)) }
{
    put_lines(lines, out)?;
    ok(Reply::Dump(lines.len() as u64), out)
}

// Puts the lines of a shape.
fn put_shape<K: Sink>(out: &mut Out<'_, K>, lines: &Lines) -> Result<(), Failed>
    ensures same_sink { out.new.sink.ghost_name ≡ out.old.sink.ghost_name }
    ensures put { Puts K.written K.faults out.old out.new result (text_of_answer (Shaped lines.now)) }
{
    put_lines(lines, out)?;
    ok(Reply::Shape, out)
}

// Puts the figures of a graph.
fn put_stats<K: Sink>(out: &mut Out<'_, K>, stats: Stats) -> Result<(), Failed>
    ensures same_sink { out.new.sink.ghost_name ≡ out.old.sink.ghost_name }
    ensures put { Puts K.written K.faults out.old out.new result (text_of_answer (Counted (figures_seen stats))) }
{
    let figures = Figures {
        triples: stats.triples,
        terms: stats.terms,
        two: stats.two,
        one: stats.one,
    };
    put_figures(figures, out)?;
    ok(Reply::Stats, out)
}
