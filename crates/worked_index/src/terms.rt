use rdf_term::{KindRef, TermRef, XSD_STRING};
use std::alloc::Global;
use term_dict::Dict;
use trie_depth::{Id, Memory};

/// `intern`, where there is an Id left.
fn put(dict: &mut Dict, term: TermRef<'_>) -> Result<Id, Memory> {
    if dict.len() < 2_147_483_648 {
        return dict.intern(term);
    }
    Err(Memory)
}

fn take_out(dict: &mut Dict, term: TermRef<'_>) {
    if let Some(id) = dict.find(term) {
        dict.remove(id);
    }
}

/// Whether a term's Id stands for the term again.
fn is_held(dict: &Dict, term: TermRef<'_>) -> bool {
    match dict.find(term) {
        Some(id) => dict.term(id) == term,
        None => false,
    }
}

#[test]
fn one_id_for_one_term(rt: HostRuntime) -> Result<(), Memory> {
    let mut dict = Dict::new(rt.alloc());
    let a = TermRef::Literal("a", KindRef::Typed(XSD_STRING));
    let iri = TermRef::Iri("x:a");
    let first = put(&mut dict, a)?;
    let again = put(&mut dict, a)?;
    assert_eq!(rt; (again, dict.len()), (first, 1));
    let second = put(&mut dict, iri)?;
    assert_eq!(rt;
        (second == first, dict.find(a), dict.find(iri)),
        (false, Some(first), Some(second))
    );
    take_out(&mut dict, a);
    assert_eq!(rt;
        (dict.len(), dict.find(a), is_held(&dict, iri)),
        (1, None, true)
    );
    assert_eq!(rt; put(&mut dict, TermRef::Blank("a"))?, first);
    Ok(())
}

fn terms_with<'a>(text: &'a str) -> [TermRef<'a>; 5] {
    [
        TermRef::Iri(text),
        TermRef::Blank(text),
        TermRef::Literal(text, KindRef::Typed(XSD_STRING)),
        TermRef::Literal(text, KindRef::Typed("x:d")),
        TermRef::Literal(text, KindRef::Tagged("x:d")),
    ]
}

/// It passes whichever allocation is refused.
#[test]
fn a_refused_intern_is_made_again(rt: HostRuntime) -> Result<(), Memory> {
    let mut dict = Dict::new(rt.alloc());
    for text in ["", "a", "b", "c", "d", "e"] {
        for term in terms_with(text) {
            let before = dict.len();
            if let Err(Memory) = put(&mut dict, term) {
                assert_eq!(rt; (dict.len(), dict.find(term)), (before, None));
                let _ = put(&mut dict, term)?;
            }
        }
    }
    assert_eq!(rt; dict.len(), 30);
    for text in ["", "a", "b", "c", "d", "e"] {
        for term in terms_with(text) {
            assert!(rt; is_held(&dict, term), "not held: {text}");
        }
    }
    Ok(())
}

/// Puts terms with these numbers in.
fn put_numbers(dict: &mut Dict, alloc: Global, most: u32) -> Result<(), Memory> {
    for number in 0..most {
        let text = format!(in alloc; "x:{number}")?;
        let _ = put(dict, TermRef::Iri(&text))?;
    }
    Ok(())
}

fn take_out_numbers(dict: &mut Dict, alloc: Global, most: u32) -> Result<(), Memory> {
    for number in 0..most {
        let text = format!(in alloc; "x:{number}")?;
        take_out(dict, TermRef::Iri(&text));
    }
    Ok(())
}

/// Whether each of these numbers has a term, or none of them.
fn are_held(dict: &Dict, alloc: Global, numbers: (u32, u32), wanted: bool) -> Result<bool, Memory> {
    for number in numbers.0..numbers.1 {
        let text = format!(in alloc; "x:{number}")?;
        if is_held(dict, TermRef::Iri(&text)) != wanted {
            return Ok(false);
        }
    }
    Ok(true)
}

/// So many that the index parts its buckets again and again.
#[test]
fn a_thousand_terms(rt: HostRuntime) -> Result<(), Memory> {
    let alloc = rt.alloc();
    let mut dict = Dict::new(alloc);
    put_numbers(&mut dict, alloc, 1000)?;
    assert!(rt; are_held(&dict, alloc, (0, 1000), true)? && dict.len() == 1000);
    take_out_numbers(&mut dict, alloc, 400)?;
    assert!(rt; are_held(&dict, alloc, (0, 400), false)? && dict.len() == 600);
    assert!(rt; are_held(&dict, alloc, (400, 1000), true)?);
    Ok(())
}
