//! Where the texts of a term stand in a Scratch.
ghost use Rattle.std.specs.Prelude.{◌≡◌, length};
ghost use Rattle.rdf_term.specs.Seen.{lent_term};
ghost use Rattle.ntriples.specs.Places.{IsWithin, term_at};

use rdf_term::{KindRef, Scratch, TermRef, XSD_STRING};

/// A term by the places of its texts.
#[derive(Clone, Copy, Debug)]
pub enum TermPlace {
    Iri(usize),
    Blank(usize),
    /// A literal of xsd:string.
    Plain(usize),
    /// A lexical form and a datatype.
    Typed(usize, usize),
    /// A lexical form and a tag.
    Tagged(usize, usize),
}

impl TermPlace {
    /// The term, with its texts lent.
    pub fn term(self, texts: &Scratch) -> TermRef<'_>
        requires { IsWithin (length texts.now) self }
        ensures { lent_term result ≡ term_at texts.now self }
    {
        match self {
            TermPlace::Iri(text) => TermRef::Iri(texts.text(text)),
            TermPlace::Blank(label) => TermRef::Blank(texts.text(label)),
            TermPlace::Plain(form) => {
                TermRef::Literal(texts.text(form), KindRef::Typed(XSD_STRING))
            }
            TermPlace::Typed(form, datatype) => {
                TermRef::Literal(texts.text(form), KindRef::Typed(texts.text(datatype)))
            }
            TermPlace::Tagged(form, tag) => {
                TermRef::Literal(texts.text(form), KindRef::Tagged(texts.text(tag)))
            }
        }
    }
}

/// A triple by the places of its terms.
#[derive(Clone, Copy, Debug)]
pub struct TriplePlaces {
    pub s: TermPlace,
    pub p: TermPlace,
    pub o: TermPlace,
}
