//! What a line of a script leads to, once its answer was written.
ghost use Rattle.std.specs.Prelude.{◌≡◌, []};
ghost use Rattle.run_model.specs.Answers.{answer_text, is_refused};
ghost use Rattle.line_batch.specs.Seen.{answer_of};
ghost use Rattle.tentris_core.specs.Puts.{PassesOn, WritesAnswer, IsPassedOn, HasOutcome};

use line_batch::Answer;
use tn_io::{Failed, Out, Sink};

/// What a line leads to.
#[derive(Clone, Copy, Debug, PartialEq, Eq)]
pub enum Outcome {
    /// It ends no command.
    GoesOn,
    /// It ends a command, whose answer was passed on whole. Says whether the command was refused.
    Answered(bool),
    /// It ends a command, and a write of its answer failed.
    Cut,
}

// Puts an answer and passes it on whole.
fn put_whole<K: Sink>(out: &mut Out<'_, K>, answer: &Answer) -> Result<(), Failed>
    requires { out.old.buffer ≡ [] }
    ensures same_sink { out.new.sink.ghost_name ≡ out.old.sink.ghost_name }
    ensures text { PassesOn K.written K.faults out.old out.new result (answer_text (answer_of answer.now)) }
{
    answer.put(out)?;
    out.flush()
}

fn is_refusal(answer: &Answer) -> bool
    ensures { result ≡ is_refused (answer_of answer.now) }
{
    matches!(answer, Answer::Refused(_))
}

/// Passes an answer on whole.
pub fn pass_on<K: Sink>(out: &mut Out<'_, K>, answer: &Answer) -> Outcome
    requires { out.old.buffer ≡ [] }
    ensures same_sink { out.new.sink.ghost_name ≡ out.old.sink.ghost_name }
    ensures text { WritesAnswer (K.written out.old.sink.now) (K.written out.new.sink.now) result (answer_of answer.now) }
    ensures empty { IsPassedOn result out.new }
    ensures cause { HasOutcome (K.faults out.old.sink.now) (K.faults out.new.sink.now) result }
{
    match put_whole(out, answer) {
        Ok(()) => Outcome::Answered(is_refusal(answer)),
        Err(_) => Outcome::Cut,
    }
}
