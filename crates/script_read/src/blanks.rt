//! The blanks of a line: at its ends, and between its words.
ghost use Rattle.std.specs.Prelude.{◌≡◌, ◌≤◌, drop, length, take};
ghost use Rattle.text_lines.specs.Blanks.{after_blanks};
ghost use Rattle.script_model.specs.Commands.{behind_word, trimmed, word_of};
ghost use Rattle.script_read.specs.Forms.{without_blanks_behind};

use bstr::ByteSlice;

const BLANKS: &[u8] = b" \t";

// Where the blanks that begin the line end.
fn blanks_before(line: &[u8]) -> usize
    ensures within { result ≤ length line.now }
    ensures rest { after_blanks line.now ≡ drop result line.now }
{
    match line.find_not_byteset(BLANKS) {
        Some(place) => place,
        None => line.len(),
    }
}

// Where the blanks that end the line begin.
fn end_before_blanks(line: &[u8]) -> usize
    ensures within { result ≤ length line.now }
    ensures rest { without_blanks_behind line.now ≡ take result line.now }
{
    match line.rfind_not_byteset(BLANKS) {
        Some(place) => place + 1,
        None => 0,
    }
}

// Where the first word ends.
fn word_end(text: &[u8]) -> usize
    ensures within { result ≤ length text.now }
    ensures word { word_of text.now ≡ take result text.now }
    ensures rest { behind_word text.now ≡ after_blanks (drop result text.now) }
{
    match text.find_byteset(BLANKS) {
        Some(place) => place,
        None => text.len(),
    }
}

/// The line without the blanks at both ends.
pub(crate) fn trim(line: &[u8]) -> &[u8]
    ensures { result.now ≡ trimmed line.now }
{
    let begun = &line[blanks_before(line)..];
    &begun[..end_before_blanks(begun)]
}

/// The first word, and what stands behind the blanks after it.
pub(crate) fn split_word(text: &[u8]) -> (&[u8], &[u8])
    ensures word { result.0.now ≡ word_of text.now }
    ensures rest { result.1.now ≡ behind_word text.now }
{
    let end = word_end(text);
    let behind = &text[end..];
    (&text[..end], &behind[blanks_before(behind)..])
}
