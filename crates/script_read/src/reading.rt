//! What a line outside a block commands. The forms of lines are defined in `script_model`.
ghost use Rattle.std.specs.Prelude.{◌≡◌, Some};
ghost use Rattle.std.specs.Option.{option_map};
ghost use Rattle.script_model.specs.Commands as spec;
ghost use Rattle.script_model.specs.Commands.{Change, Generate, Whole, behind_word, form_behind, form_of, generate_form, load_form, word_of};
ghost use Rattle.script_read.specs.Forms.{form_meant, loads};

use crate::blanks::{split_word, trim};
use crate::form::Command;
use crate::words::{name, number, scope};

const INSERT: &[u8] = b"INSERT";

const DELETE: &[u8] = b"DELETE";

const QUERY: &[u8] = b"QUERY";

const DUMP: &[u8] = b"DUMP";

const STATS: &[u8] = b"STATS";

const SHAPE: &[u8] = b"SHAPE";

const LOAD: &[u8] = b"LOAD";

const UNLOAD: &[u8] = b"UNLOAD";

const SCOPE: &[u8] = b"SCOPE";

const GENERATE: &[u8] = b"GENERATE";

// How many triples may be generated.
const MOST_GENERATED: u64 = 500_000_000;

// The scope, empty where there is none, and the name behind the first word of a load.
fn scope_and_name(text: &[u8]) -> Option<(&str, &str)>
    ensures { (change : Change) → loads change result ≡ load_form change text.now }
{
    let (word, rest) = split_word(text);
    if word != SCOPE {
        return Some(("", name(text)?));
    }
    let (word, rest) = split_word(rest);
    Some((scope(word)?, name(rest)?))
}

// The two numbers behind the first word of a GENERATE.
fn count_and_salt(text: &[u8]) -> Option<(u64, u64)>
    ensures { option_map (λ found. Whole (Generate found.0 found.1)) result ≡ generate_form text.now }
{
    let (count, salt) = split_word(text);
    Some((number(count, MOST_GENERATED)?, number(salt, u64::MAX)?))
}

// The command that begins with this word, where it has words behind it.
fn command_behind<'a>(word: &[u8], text: &'a [u8]) -> Option<Command<'a>>
    ensures { option_map form_meant result ≡ form_behind word.now text.now }
{
    if word == LOAD {
        let (scope, name) = scope_and_name(text)?;
        Some(Command::Load(scope, name))
    } else if word == UNLOAD {
        let (scope, name) = scope_and_name(text)?;
        Some(Command::Unload(scope, name))
    } else if word == GENERATE {
        let (count, salt) = count_and_salt(text)?;
        Some(Command::Generate(count, salt))
    } else {
        None
    }
}

/// What the line commands, if it has a command form. Blanks at its ends don't count.
pub fn command(line: &[u8]) -> Option<Command<'_>>
    ensures { option_map form_meant result ≡ form_of (Some line.now) }
{
    let text = trim(line);
    if text == INSERT {
        Some(Command::Insert)
    } else if text == DELETE {
        Some(Command::Delete)
    } else if text == QUERY {
        Some(Command::Query)
    } else if text == DUMP {
        Some(Command::Dump)
    } else if text == STATS {
        Some(Command::Stats)
    } else if text == SHAPE {
        Some(Command::Shape)
    } else {
        let (word, rest) = split_word(text);
        command_behind(word, rest)
    }
}

/// Whether the line is blank or a comment.
pub fn skipped(line: &[u8]) -> bool
    ensures { result ≡ spec.skipped (Some line.now) }
{
    match trim(line) {
        [] | [b'#', ..] => true,
        _ => false,
    }
}
