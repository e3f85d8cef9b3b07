//! The triples between the braces, from the front of their tokens (SPARQL 1.1, section 19.8, rules 52 and 75 to 88): what
//! may come next, one token after the other.
ghost use Rattle.std.specs.Prelude.{◌≡◌, ◌+◌, ◌-◌, ◌≤◌, ℕ, List, [], ◌∷◌, None, IfOk, OnOk, ◌++◌, map, take, drop, length};
ghost use Rattle.std.specs.Option.{option_map};
ghost use Rattle.query_grammar.specs.Block as model;
ghost use Rattle.query_grammar.specs.BlockFront as front;
ghost use Rattle.query_read.specs.Reads.{triples_within, Steps, StepsPastDatatype};
ghost use Rattle.query_read.specs.Seen.{role_seen, expect_seen, frame_seen, next_seen, ended_seen, triples_seen};

use crate::brackets::{Brackets, Frame};
use crate::role::Role;
use query_text::Lexeme;
use std::alloc::Global;
use trie_depth::Memory;

/// The places of a subject, a verb and an object. A pair of brackets has the place of its opening.
#[derive(Clone, Copy)]
pub(crate) struct Triple {
    pub(crate) s: usize,
    pub(crate) p: usize,
    pub(crate) o: usize,
}

/// What may come next.
#[derive(Clone, Copy)]
pub(crate) enum Expect {
    /// A statement, or nothing more.
    Statement,
    /// What stands in the pair of brackets that was opened.
    Bracket(usize),
    /// A verb of the subject.
    Verb(usize),
    /// The same, or what belongs to the text that is the subject.
    TextSubject(usize),
    DatatypeSubject(usize),
    /// An object of the subject and the verb.
    ObjectOf(usize, usize),
    /// What follows an object.
    Behind(usize, usize),
    /// The same, or what belongs to the text that is the object.
    TextObject(usize, usize),
    DatatypeObject(usize, usize),
    /// What follows a semicolon.
    Semi(usize),
    /// What follows the brackets that are a subject.
    BehindSubject(usize),
}

/// What may come next, and the triple that has ended.
#[derive(Clone, Copy)]
struct Next {
    expect: Expect,
    ended: Option<Triple>,
}

fn expecting(expect: Expect) -> Option<Next>
    ensures { (stack : List front.Frame) → next_seen result stack ≡ front.next (expect_seen expect) stack }
{
    Some(Next {
        expect,
        ended: None,
    })
}

/// The triple of a subject, a verb and an object has ended.
fn ends(expect: Expect, s: usize, p: usize, o: usize) -> Option<Next>
    ensures { (stack : List front.Frame) → next_seen result stack ≡ front.ends (expect_seen expect) stack s p o }
{
    Some(Next {
        expect,
        ended: Some(Triple { s, p, o }),
    })
}

/// A verb of the subject.
fn verb(s: usize, role: Role, i: usize) -> Option<Next>
    ensures { (stack : List front.Frame) → next_seen result stack ≡ front.verb_step s stack (role_seen role) i None }
{
    if role.is_verb() {
        return expecting(Expect::ObjectOf(s, i));
    }
    None
}

/// The inner pair of brackets ends, behind what stands in it.
fn closed(brackets: &mut Brackets) -> Option<Next>
    ensures { next_seen result brackets.new ≡ front.close_step brackets.old model.Close }
{
    match brackets.pop()? {
        Frame::Subject(i) => expecting(Expect::BehindSubject(i)),
        Frame::Object(s, v, i) => ends(Expect::Behind(s, v), s, v, i),
    }
}

/// What ends the properties of a subject.
fn close(role: Role, brackets: &mut Brackets) -> Option<Next>
    ensures { next_seen result brackets.new ≡ front.close_step brackets.old (role_seen role) }
{
    match role {
        Role::Stop => {
            if brackets.is_empty() {
                expecting(Expect::Statement)
            } else {
                None
            }
        }
        Role::Close => closed(brackets),
        _ => None,
    }
}

/// What follows an object.
fn behind(s: usize, v: usize, role: Role, brackets: &mut Brackets) -> Option<Next>
    ensures { next_seen result brackets.new ≡ front.behind_step s v brackets.old (role_seen role) }
{
    match role {
        Role::Comma => expecting(Expect::ObjectOf(s, v)),
        Role::Semicolon => expecting(Expect::Semi(s)),
        _ => close(role, brackets),
    }
}

/// A pair of brackets with nothing in it.
fn blank(brackets: &mut Brackets) -> Option<Next>
    ensures { next_seen result brackets.new ≡ front.blank_step brackets.old }
{
    match brackets.pop()? {
        Frame::Subject(i) => expecting(Expect::Verb(i)),
        Frame::Object(s, v, i) => ends(Expect::Behind(s, v), s, v, i),
    }
}

/// What begins a statement.
fn statement(role: Role, i: usize, brackets: &mut Brackets) -> Result<Option<Next>, Memory>
    ensures { IfOk result (λ n. Steps front.Statement role i brackets.old n brackets.new) }
{
    match role {
        Role::Text => Ok(expecting(Expect::TextSubject(i))),
        Role::Open => {
            brackets.push(Frame::Subject(i))?;
            Ok(expecting(Expect::Bracket(i)))
        }
        Role::Term | Role::Name | Role::Variable => Ok(expecting(Expect::Verb(i))),
        _ => Ok(None),
    }
}

/// What stands first in a pair of brackets.
fn bracket(s: usize, role: Role, i: usize, brackets: &mut Brackets) -> Option<Next>
    ensures { Steps (front.Bracket s) role i brackets.old result brackets.new }
{
    match role {
        Role::Close => blank(brackets),
        _ => verb(s, role, i),
    }
}

/// What follows a text that is a subject.
fn text_subject(s: usize, role: Role, i: usize) -> Option<Next>
    ensures { (stack : List front.Frame) → Steps (front.TextSubject s) role i stack result stack }
{
    match role {
        Role::LangTag => expecting(Expect::Verb(s)),
        Role::Carets => expecting(Expect::DatatypeSubject(s)),
        _ => verb(s, role, i),
    }
}

/// An object of the subject and the verb.
fn object(
    s: usize,
    v: usize,
    role: Role,
    i: usize,
    brackets: &mut Brackets,
) -> Result<Option<Next>, Memory>
    ensures { IfOk result (λ n. Steps (front.ObjectOf s v) role i brackets.old n brackets.new) }
{
    match role {
        Role::Text => Ok(ends(Expect::TextObject(s, v), s, v, i)),
        Role::Open => {
            brackets.push(Frame::Object(s, v, i))?;
            Ok(expecting(Expect::Bracket(i)))
        }
        Role::Term | Role::Name | Role::Variable => Ok(ends(Expect::Behind(s, v), s, v, i)),
        _ => Ok(None),
    }
}

/// What follows a text that is an object.
fn text_object(s: usize, v: usize, role: Role, i: usize, brackets: &mut Brackets) -> Option<Next>
    ensures { Steps (front.TextObject s v) role i brackets.old result brackets.new }
{
    match role {
        Role::LangTag => expecting(Expect::Behind(s, v)),
        Role::Carets => expecting(Expect::DatatypeObject(s, v)),
        _ => behind(s, v, role, brackets),
    }
}

/// The name of a datatype.
fn datatype(behind: Expect, role: Role) -> Option<Next>
    ensures { (stack : List front.Frame) → StepsPastDatatype behind role stack result }
{
    match role {
        Role::Name => expecting(behind),
        _ => None,
    }
}

/// What follows a semicolon.
fn semi(s: usize, role: Role, i: usize, brackets: &mut Brackets) -> Option<Next>
    ensures { Steps (front.Semi s) role i brackets.old result brackets.new }
{
    match role {
        Role::Name | Role::Variable | Role::TypeOf => expecting(Expect::ObjectOf(s, i)),
        Role::Semicolon => expecting(Expect::Semi(s)),
        _ => close(role, brackets),
    }
}

/// What follows the brackets that are a subject.
fn behind_subject(s: usize, role: Role, i: usize, brackets: &mut Brackets) -> Option<Next>
    ensures { Steps (front.BehindSubject s) role i brackets.old result brackets.new }
{
    match role {
        Role::Name | Role::Variable | Role::TypeOf => expecting(Expect::ObjectOf(s, i)),
        _ => close(role, brackets),
    }
}

/// What a token leads to.
fn step(
    expect: Expect,
    role: Role,
    i: usize,
    brackets: &mut Brackets,
) -> Result<Option<Next>, Memory>
    ensures { IfOk result (λ n. Steps (expect_seen expect) role i brackets.old n brackets.new) }
{
    match expect {
        Expect::Statement => statement(role, i, brackets),
        Expect::Bracket(s) => Ok(bracket(s, role, i, brackets)),
        Expect::Verb(s) => Ok(verb(s, role, i)),
        Expect::TextSubject(s) => Ok(text_subject(s, role, i)),
        Expect::DatatypeSubject(s) => Ok(datatype(Expect::Verb(s), role)),
        Expect::ObjectOf(s, v) => object(s, v, role, i, brackets),
        Expect::Behind(s, v) => Ok(behind(s, v, role, brackets)),
        Expect::TextObject(s, v) => Ok(text_object(s, v, role, i, brackets)),
        Expect::DatatypeObject(s, v) => Ok(datatype(Expect::Behind(s, v), role)),
        Expect::Semi(s) => Ok(semi(s, role, i, brackets)),
        Expect::BehindSubject(s) => Ok(behind_subject(s, role, i, brackets)),
    }
}

/// Whether nothing more need come.
fn may_end(expect: Expect, brackets: &Brackets) -> bool
    ensures { result ≡ front.may_end (expect_seen expect) brackets.now }
{
    brackets.is_empty()
        && matches!(
            expect,
            Expect::Statement
                | Expect::Behind(_, _)
                | Expect::TextObject(_, _)
                | Expect::Semi(_)
                | Expect::BehindSubject(_)
        )
}

/// The triples of the tokens from one place up to another; none where they are no triples.
pub(crate) fn triples(
    alloc: Global,
    all: &[Lexeme<'_>],
    from: usize,
    to: usize,
) -> Result<Option<Vec<Triple>>, Memory>
    requires { to ≤ length all.now }
    ensures { IfOk result (λ r. option_map (λ v. triples_seen v.items) r ≡ triples_within from to all.now) }
{
    let mut expect = Expect::Statement;
    let mut brackets = Brackets::new(alloc);
    let mut found = Vec::new(alloc);
    for i in from..to {
        let Some(next) = step(expect, Role::of(all[i].sign()), i, &mut brackets)? else {
            return Ok(None);
        };
        expect = next.expect;
        push_some(&mut found, next.ended)?;
    }
    if may_end(expect, &brackets) {
        return Ok(Some(found));
    }
    Ok(None)
}

/// Adds a triple, where one has ended.
fn push_some(found: &mut Vec<Triple>, ended: Option<Triple>) -> Result<(), Memory>
    ensures { OnOk result (triples_seen found.new.items ≡ triples_seen found.old.items ++ ended_seen ended) }
{
    if let Some(triple) = ended {
        found.push(triple)?;
    }
    Ok(())
}
