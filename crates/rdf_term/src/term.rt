//! Terms and triples (RDF 1.1 Concepts, section 3), owned and lent. Both are seen as the terms of the definitions by
//! `term_of`, `lent_term` and `lent_triple` (`specs/Seen.antt`). The order is by kind, in the order written here, then by
//! the bytes of the texts; two terms are equal where kinds and texts are.
ghost use Rattle.std.specs.Prelude.{◌≡◌, ◌↔◌, IsTrue, IfOk};
ghost use Rattle.rdf_model.specs.Graph.{term_cmp};
ghost use Rattle.rdf_term.specs.Seen.{kind_of, term_of, lent_kind, lent_term};

use std::alloc::Global;
use std::cmp::Ordering;
use tn_io::Text;
use trie_depth::Memory;

/// What a literal has beside its lexical form.
#[derive(Clone, Debug, PartialEq, Eq, PartialOrd, Ord, Drop)]
pub enum Kind {
    /// The IRI of the datatype.
    Typed(Text),
    /// The language tag, in lower case.
    Tagged(Text),
}

/// A term that owns its texts.
#[derive(Clone, Debug, PartialEq, Eq, PartialOrd, Ord, Drop)]
pub enum Term {
    Iri(Text),
    Blank(Text),
    Literal(Text, Kind),
}

/// A lent `Kind`.
#[derive(Clone, Copy, Debug, PartialEq, Eq, PartialOrd, Ord)]
pub enum KindRef<'a> {
    Typed(&'a str),
    Tagged(&'a str),
}

/// A lent `Term`.
#[derive(Clone, Copy, Debug, PartialEq, Eq, PartialOrd, Ord)]
pub enum TermRef<'a> {
    Iri(&'a str),
    Blank(&'a str),
    Literal(&'a str, KindRef<'a>),
}

/// Subject, predicate and object, lent.
#[derive(Clone, Copy, Debug)]
pub struct TripleRef<'a> {
    pub s: TermRef<'a>,
    pub p: TermRef<'a>,
    pub o: TermRef<'a>,
}

impl<'a> KindRef<'a> {
    /// An equal kind with texts of its own.
    pub fn own(self, alloc: Global) -> Result<Kind, Memory>
        ensures { IfOk result (λ k. kind_of k ≡ lent_kind self.entry) }
    {
        match self {
            KindRef::Typed(datatype) => Ok(Kind::Typed(Text::of(alloc, datatype)?)),
            KindRef::Tagged(tag) => Ok(Kind::Tagged(Text::of(alloc, tag)?)),
        }
    }
}

impl<'a> TermRef<'a> {
    /// An equal term with texts of its own.
    pub fn own(self, alloc: Global) -> Result<Term, Memory>
        ensures { IfOk result (λ t. term_of t ≡ lent_term self.entry) }
    {
        match self {
            TermRef::Iri(text) => Ok(Term::Iri(Text::of(alloc, text)?)),
            TermRef::Blank(label) => Ok(Term::Blank(Text::of(alloc, label)?)),
            TermRef::Literal(form, kind) => {
                let form = Text::of(alloc, form)?;
                Ok(Term::Literal(form, kind.own(alloc)?))
            }
        }
    }
}

impl Kind {
    /// The same kind, lent.
    pub fn lent(&self) -> KindRef<'_>
        ensures { lent_kind result ≡ kind_of self.now }
    {
        match self {
            Kind::Typed(datatype) => KindRef::Typed(datatype.as_str()),
            Kind::Tagged(tag) => KindRef::Tagged(tag.as_str()),
        }
    }
}

impl Term {
    /// The same term, lent.
    pub fn lent(&self) -> TermRef<'_>
        ensures { lent_term result ≡ term_of self.now }
    {
        match self {
            Term::Iri(text) => TermRef::Iri(text.as_str()),
            Term::Blank(label) => TermRef::Blank(label.as_str()),
            Term::Literal(form, kind) => TermRef::Literal(form.as_str(), kind.lent()),
        }
    }
}

/// Whether two lent terms are one.
pub fn is_same_ref(a: TermRef<'_>, b: TermRef<'_>) -> bool
    ensures { IsTrue result ↔ (lent_term a.entry ≡ lent_term b.entry) }
{
    a == b
}

/// Whether two terms are one.
pub fn is_same(a: &Term, b: &Term) -> bool
    ensures { IsTrue result ↔ (a.now ≡ b.now) }
{
    a == b
}

/// The order of two terms.
pub fn order_of(a: &Term, b: &Term) -> Ordering
    ensures { result ≡ term_cmp (term_of a.now) (term_of b.now) }
{
    a.cmp(b)
}
