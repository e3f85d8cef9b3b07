//! The body of an IRI or a string: runs of bytes that stand for themselves, and escapes between them.
ghost use Rattle.std.specs.Prelude.{◌≡◌, ◌≢◌, ◌<◌, ◌≤◌, ℕ, List, ◌∷◌, length, Option, MatchOption};
ghost use Rattle.std.specs.List.{list_all, prefix_len};
ghost use Rattle.rdf_term.specs.Body.{fits_of, close_of, escape_of, RunsTo, StopsAt, ReadsBody};
ghost use Rattle.rdf_term.specs.Room.{room_of};

use crate::classes::{all_fit_iri, all_fit_string, fits_iri, fits_string};
use crate::escape::{iri_escape, string_escape};
use crate::scratch::Scratch;
use memchr::memchr2;
use std::str;

/// What is behind the first byte, where it is this one.
pub(crate) fn behind(first: u8, bytes: &[u8]) -> Option<&[u8]>
    ensures { MatchOption result ((rest : List ℕ) → bytes.now ≢ first ∷ rest) (λ rest. bytes.now ≡ first ∷ rest.now) }
{
    let (b, rest) = bytes.split_first()?;
    if *b == first { Some(rest) } else { None }
}

/// Which of the two it is.
#[derive(Clone, Copy)]
pub(crate) enum Form {
    Iri,
    Quoted,
}

impl Form {
    /// Whether a byte stands for itself.
    fn fits(self, b: u8) -> bool
        ensures { result ≡ fits_of self b }
    {
        match self {
            Form::Iri => fits_iri(b),
            Form::Quoted => fits_string(b),
        }
    }

    /// Whether each byte stands for itself.
    fn all_fit(self, run: &[u8]) -> bool
        ensures { result ≡ list_all (fits_of self) run.now }
    {
        match self {
            Form::Iri => all_fit_iri(run),
            Form::Quoted => all_fit_string(run),
        }
    }

    /// The byte that ends the body.
    fn close(self) -> u8
        ensures { result ≡ close_of self }
    {
        match self {
            Form::Iri => b'>',
            Form::Quoted => b'"',
        }
    }

    /// The escape behind a backslash.
    fn escape(self, bytes: &[u8]) -> Option<(char, usize)>
        ensures { result ≡ escape_of self bytes.now }
    {
        match self {
            Form::Iri => iri_escape(bytes),
            Form::Quoted => string_escape(bytes),
        }
    }
}

/// So many bytes are tested one after another before all others are tested at once.
const SHORT: usize = 24;

/// What stands where nothing stands for itself.
enum Stop {
    Closed,
    /// The character, and how many bytes stand for it.
    Escape(char, usize),
    Bad,
}

/// How many bytes stand for themselves, up to the first that doesn't, one after another.
fn run_len_by_bytes(form: Form, bytes: &[u8]) -> usize
    ensures { result ≡ prefix_len (fits_of form) bytes.now }
{
    for (i, b) in bytes.iter().enumerate() {
        if !form.fits(*b) {
            return i;
        }
    }
    bytes.len()
}

/// The same, with a test of all at once where the first that doesn't is a backslash or ends the body, as in each body
/// that is read.
fn long_run_len(form: Form, bytes: &[u8]) -> usize
    ensures { result ≡ prefix_len (fits_of form) bytes.now }
{
    let end = memchr2(form.close(), b'\\', bytes).unwrap_or(bytes.len());
    if form.all_fit(&bytes[..end]) {
        return end;
    }
    run_len_by_bytes(form, bytes)
}

/// The same. The first bytes are tested one after another, since a short run costs no more.
fn run_len(form: Form, bytes: &[u8]) -> usize
    ensures { result ≡ prefix_len (fits_of form) bytes.now }
{
    let (front, rest) = bytes.split_at(bytes.len().min(SHORT));
    let len = run_len_by_bytes(form, front);
    if len < front.len() {
        return len;
    }
    len + long_run_len(form, rest)
}

/// The run at the front; none where it isn't UTF-8.
fn run_at(form: Form, bytes: &[u8]) -> Option<&str>
    ensures { RunsTo form bytes.now result }
{
    let end = run_len(form, bytes);
    match str::from_utf8(&bytes[..end]) {
        Ok(run) => Some(run),
        Err(_) => None,
    }
}

fn stop_at(form: Form, bytes: &[u8]) -> Stop
    requires { prefix_len (fits_of form) bytes.now ≡ 0 }
    ensures { StopsAt form bytes.now result }
{
    let Some((first, behind)) = bytes.split_first() else {
        return Stop::Bad;
    };
    if *first == form.close() {
        return Stop::Closed;
    }
    if *first != b'\\' {
        return Stop::Bad;
    }
    match form.escape(behind) {
        Some((c, size)) => Stop::Escape(c, size + 1),
        None => Stop::Bad,
    }
}

/// Adds the text of a body to the last text, and says how many bytes it has with the one that ends it. Where no body in
/// UTF-8 begins the bytes, the last text may have grown.
pub(crate) fn read_body(form: Form, bytes: &[u8], to: &mut Scratch) -> Option<usize>
    requires some { 0 < length to.old }
    requires room { length bytes.now ≤ room_of to.old }
    ensures { ReadsBody form bytes.now to.old to.new result }
{
    let mut at = 0;
    loop {
        let run = run_at(form, &bytes[at..])?;
        to.join(run);
        at += run.len();
        match stop_at(form, &bytes[at..]) {
            Stop::Closed => return Some(at + 1),
            Stop::Escape(c, size) => {
                to.join(c.encode_utf8(&mut [0; 4]));
                at += size;
            }
            Stop::Bad => return None,
        }
    }
}
