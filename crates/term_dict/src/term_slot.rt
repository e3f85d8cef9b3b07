//! A place of the dictionary: a term in one allocation, or none.
ghost use Rattle.std.specs.Prelude.{◌≡◌, IfOk, None, Some, MatchOption};
ghost use Rattle.rdf_term.specs.Seen.{lent_term};
ghost use Rattle.term_dict.specs.Places.{term_in, IsParted};

use crate::joined::{joined, parted};
use rdf_term::{KindRef, TermRef, XSD_STRING};
use std::alloc::Global;
use std::mem::size_of;
use tn_io::Text;
use trie_depth::Memory;

#[derive(Drop)]
pub enum TermSlot {
    /// No term; the next place without one, or the number of places.
    Vacant(usize),
    Iri(Text),
    Blank(Text),
    /// A literal of xsd:string.
    Plain(Text),
    /// A form and a datatype in one text, and where the datatype begins.
    Typed(u32, String),
    /// A form and a language tag in one text, and where the tag begins.
    Tagged(u32, String),
}

const _: () = prove!(size_of::<TermSlot>() == 32);

impl TermSlot {
    /// A place that holds the term.
    pub(crate) fn of(alloc: Global, term: TermRef<'_>) -> Result<TermSlot, Memory>
        ensures term { IfOk result (λ p. term_in p ≡ Some (lent_term term.entry)) }
        ensures parted { IfOk result IsParted }
    {
        match term {
            TermRef::Iri(text) => Ok(TermSlot::Iri(Text::of(alloc, text)?)),
            TermRef::Blank(label) => Ok(TermSlot::Blank(Text::of(alloc, label)?)),
            TermRef::Literal(form, KindRef::Typed(datatype)) => {
                if datatype == XSD_STRING {
                    return Ok(TermSlot::Plain(Text::of(alloc, form)?));
                }
                let (parting, text) = joined(alloc, form, datatype)?;
                Ok(TermSlot::Typed(parting, text))
            }
            TermRef::Literal(form, KindRef::Tagged(tag)) => {
                let (parting, text) = joined(alloc, form, tag)?;
                Ok(TermSlot::Tagged(parting, text))
            }
        }
    }

    /// The term in this place, lent.
    pub(crate) fn lent(&self) -> Option<TermRef<'_>>
        requires { IsParted self.now }
        ensures { MatchOption result (term_in self.now ≡ None) (λ t. term_in self.now ≡ Some (lent_term t)) }
    {
        match self {
            TermSlot::Vacant(_) => None,
            TermSlot::Iri(text) => Some(TermRef::Iri(text.as_str())),
            TermSlot::Blank(label) => Some(TermRef::Blank(label.as_str())),
            TermSlot::Plain(form) => Some(TermRef::Literal(
                form.as_str(),
                KindRef::Typed(XSD_STRING),
            )),
            TermSlot::Typed(parting, text) => {
                let (form, datatype) = parted(*parting, text);
                Some(TermRef::Literal(form, KindRef::Typed(datatype)))
            }
            TermSlot::Tagged(parting, text) => {
                let (form, tag) = parted(*parting, text);
                Some(TermRef::Literal(form, KindRef::Tagged(tag)))
            }
        }
    }
}
