//! The choice of the next label, and the lists of a query.
use query_plan::{Column, Columns, Pattern, Patterns, Place, choose};
use rdf_term::Term;
use std::test::Fail;
use tn_io::Text;

#[test]
fn first_least_of_the_allowed(rt: HostRuntime) {
    assert_eq!(rt; choose(&[], &[]), None);
    assert_eq!(rt; choose(&[5, 3, 3, 1], &[true, true, true, false]), Some(1));
    assert_eq!(rt; choose(&[5, 3, 3, 1], &[true, false, true, true]), Some(3));
    assert_eq!(rt; choose(&[0, 0], &[false, true]), Some(1));
    assert_eq!(rt; choose(&[4, 2], &[false, false]), None);
}

#[test]
fn lists_of_columns_and_patterns(rt: HostRuntime) -> Result<(), Fail> {
    let mut columns = Columns::new(rt.alloc());
    columns.push(Column {
        name: Text::of(rt.alloc(), "x")?,
        label: Some(0),
    })?;
    columns.push(Column {
        name: Text::of(rt.alloc(), "z")?,
        label: None,
    })?;
    assert_eq!(rt; columns.len(), 2);
    assert_eq!(rt; columns.at(0).name.as_str(), "x");
    assert_eq!(rt; columns.at(0).label, Some(0));
    assert_eq!(rt; columns.at(1).label, None);
    let mut patterns = Patterns::new(rt.alloc());
    patterns.push(Pattern {
        s: Place::Label(0),
        p: Place::Const(Term::Iri(Text::of(rt.alloc(), "x:p")?)),
        o: Place::Label(1),
    })?;
    assert_eq!(rt; patterns.len(), 1);
    assert!(rt; matches!(patterns.at(0).s, Place::Label(0)));
    assert!(rt; matches!(patterns.at(0).p, Place::Const(Term::Iri(_))));
    assert!(rt; matches!(patterns.at(0).o, Place::Label(1)));
    Ok(())
}
