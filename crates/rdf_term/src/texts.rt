//! The texts of terms: `canon`, in N-Triples, and `tsv`, in an answer (`rdf_model`'s `specs/Texts.antt`).
ghost use Rattle.std.specs.Prelude.{◌≡◌, ◌++◌, codes, OnOk, OnErr};
ghost use Rattle.tn_io.specs.OutText.{Puts};
ghost use Rattle.rdf_model.specs.Texts.{canon, tsv, kind_text};
ghost use Rattle.rdf_term.specs.Escapes.{form_text, term_text};
ghost use Rattle.rdf_term.specs.Seen.{lent_kind, lent_term};

use crate::escaped::{Escapes, all_stay, cut};
use crate::term::{KindRef, TermRef};
use std::alloc::Global;
use tn_io::{Failed, Out, Sink, Text};
use trie_depth::Memory;

/// The datatype of a literal that names none.
pub const XSD_STRING: &str = "http://www.w3.org/2001/XMLSchema#string";

/// Puts a text behind another.
fn put_behind<K: Sink>(out: &mut Out<'_, K>, before: &str, text: &str) -> Result<(), Failed>
    ensures same_sink { out.new.sink.ghost_name ≡ out.old.sink.ghost_name }
    ensures put { Puts K.written K.faults out.old out.new result (before.now ++ text.now) }
{
    out.put(before.as_bytes())?;
    out.put(text.as_bytes())
}

/// Puts an IRI in its brackets.
fn put_iri<K: Sink>(out: &mut Out<'_, K>, iri: &str) -> Result<(), Failed>
    ensures same_sink { out.new.sink.ghost_name ≡ out.old.sink.ghost_name }
    ensures put { Puts K.written K.faults out.old out.new result (codes "<" ++ iri.now ++ codes ">") }
{
    out.put_byte(b'<')?;
    out.put(iri.as_bytes())?;
    out.put_byte(b'>')
}

/// Puts a datatype behind the string of its literal.
fn put_datatype<K: Sink>(out: &mut Out<'_, K>, datatype: &str) -> Result<(), Failed>
    ensures same_sink { out.new.sink.ghost_name ≡ out.old.sink.ghost_name }
    ensures put { Puts K.written K.faults out.old out.new result (codes "^^<" ++ datatype.now ++ codes ">") }
{
    put_behind(out, "^^<", datatype)?;
    out.put_byte(b'>')
}

/// Puts a lexical form with its escapes, run by run.
fn put_runs<K: Sink>(out: &mut Out<'_, K>, escapes: Escapes, form: &str) -> Result<(), Failed>
    ensures same_sink { out.new.sink.ghost_name ≡ out.old.sink.ghost_name }
    ensures put { Puts K.written K.faults out.old out.new result (form_text escapes form.now) }
{
    let mut left = form;
    loop {
        let (run, behind) = cut(escapes, left);
        out.put(run.as_bytes())?;
        let Some((escape, rest)) = behind else {
            return Ok(());
        };
        out.put(escape.as_bytes())?;
        left = rest;
    }
}

/// Puts a lexical form with its escapes; where it has none, as it is.
fn put_form<K: Sink>(out: &mut Out<'_, K>, escapes: Escapes, form: &str) -> Result<(), Failed>
    ensures same_sink { out.new.sink.ghost_name ≡ out.old.sink.ghost_name }
    ensures put { Puts K.written K.faults out.old out.new result (form_text escapes form.now) }
{
    if all_stay(escapes, form.as_bytes()) {
        return out.put(form.as_bytes());
    }
    put_runs(out, escapes, form)
}

/// Puts what stands behind the string of a literal.
fn put_kind<K: Sink>(out: &mut Out<'_, K>, kind: KindRef<'_>) -> Result<(), Failed>
    ensures same_sink { out.new.sink.ghost_name ≡ out.old.sink.ghost_name }
    ensures put { Puts K.written K.faults out.old out.new result (kind_text (lent_kind kind.entry)) }
{
    match kind {
        KindRef::Typed(datatype) => {
            if datatype == XSD_STRING {
                return Ok(());
            }
            put_datatype(out, datatype)
        }
        KindRef::Tagged(tag) => put_behind(out, "@", tag),
    }
}

fn put_term<K: Sink>(out: &mut Out<'_, K>, escapes: Escapes, t: TermRef<'_>) -> Result<(), Failed>
    ensures same_sink { out.new.sink.ghost_name ≡ out.old.sink.ghost_name }
    ensures put { Puts K.written K.faults out.old out.new result (term_text escapes (lent_term t.entry)) }
{
    match t {
        TermRef::Iri(text) => put_iri(out, text),
        TermRef::Blank(label) => put_behind(out, "_:", label),
        TermRef::Literal(form, kind) => {
            out.put_byte(b'"')?;
            put_form(out, escapes, form)?;
            out.put_byte(b'"')?;
            put_kind(out, kind)
        }
    }
}

/// Puts the N-Triples text of a term.
pub fn canon_to<K: Sink>(t: TermRef<'_>, out: &mut Out<'_, K>) -> Result<(), Failed>
    ensures same_sink { out.new.sink.ghost_name ≡ out.old.sink.ghost_name }
    ensures put { Puts K.written K.faults out.old out.new result (canon (lent_term t.entry)) }
{
    put_term(out, Escapes::Canon, t)
}

/// Puts the text of a term in an answer.
pub fn tsv_to<K: Sink>(t: TermRef<'_>, out: &mut Out<'_, K>) -> Result<(), Failed>
    ensures same_sink { out.new.sink.ghost_name ≡ out.old.sink.ghost_name }
    ensures put { Puts K.written K.faults out.old out.new result (tsv (lent_term t.entry)) }
{
    put_term(out, Escapes::Tsv, t)
}

/// Adds a lexical form with its escapes.
fn push_form(to: &mut Text, escapes: Escapes, form: &str) -> Result<(), Memory>
    ensures { OnOk result (to.new ≡ to.old ++ form_text escapes form.now) }
{
    let mut left = form;
    loop {
        let (run, behind) = cut(escapes, left);
        to.push(run)?;
        let Some((escape, rest)) = behind else {
            return Ok(());
        };
        to.push(escape)?;
        left = rest;
    }
}

/// Adds a text between two others.
fn push_between(to: &mut Text, before: &str, text: &str, behind: &str) -> Result<(), Memory>
    ensures { OnOk result (to.new ≡ to.old ++ (before.now ++ text.now ++ behind.now)) }
{
    to.push(before)?;
    to.push(text)?;
    to.push(behind)
}

/// Adds what stands behind the string of a literal.
fn push_kind(to: &mut Text, kind: KindRef<'_>) -> Result<(), Memory>
    ensures { OnOk result (to.new ≡ to.old ++ kind_text (lent_kind kind.entry)) }
{
    match kind {
        KindRef::Typed(datatype) => {
            if datatype == XSD_STRING {
                return Ok(());
            }
            push_between(to, "^^<", datatype, ">")
        }
        KindRef::Tagged(tag) => push_between(to, "@", tag, ""),
    }
}

fn push_term(to: &mut Text, escapes: Escapes, t: TermRef<'_>) -> Result<(), Memory>
    ensures { OnOk result (to.new ≡ to.old ++ term_text escapes (lent_term t.entry)) }
{
    match t {
        TermRef::Iri(text) => push_between(to, "<", text, ">"),
        TermRef::Blank(label) => push_between(to, "_:", label, ""),
        TermRef::Literal(form, kind) => {
            to.push("\"")?;
            push_form(to, escapes, form)?;
            to.push("\"")?;
            push_kind(to, kind)
        }
    }
}

/// Adds the N-Triples text of a term. On `Memory` the text is as before.
pub fn canon_text(alloc: Global, t: TermRef<'_>, to: &mut Text) -> Result<(), Memory>
    ensures ok { OnOk result (to.new ≡ to.old ++ canon (lent_term t.entry)) }
    ensures err { OnErr result (to.new ≡ to.old) }
{
    let mut whole = Text::new(alloc);
    push_term(&mut whole, Escapes::Canon, t)?;
    to.push(whole.as_str())
}

/// Adds the text of a term in an answer. On `Memory` the text is as before.
pub fn tsv_text(alloc: Global, t: TermRef<'_>, to: &mut Text) -> Result<(), Memory>
    ensures ok { OnOk result (to.new ≡ to.old ++ tsv (lent_term t.entry)) }
    ensures err { OnErr result (to.new ≡ to.old) }
{
    let mut whole = Text::new(alloc);
    push_term(&mut whole, Escapes::Tsv, t)?;
    to.push(whole.as_str())
}
