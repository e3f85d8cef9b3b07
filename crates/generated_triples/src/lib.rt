//! The generated triples, one by one. The list is defined in `generated_model`'s `specs/Generated.antt`.
#![tactic(auto)]

ghost use Rattle.std.specs.Prelude.{◌≡◌, ◌∷◌, [], ◌++◌, ◌+◌, ◌*◌, ◌/◌, ◌%◌, ◌≤◌, ◌<◌, ◌^◌, length, decimal, slice_get, Some};
ghost use Rattle.generated_model.specs.Generated.{generated, names, subject_at, predicate_at, object_at};
ghost use Rattle.rdf_term.specs.Room.{room_of};
ghost use Rattle.rdf_term.specs.Seen.{lent_triple};

use itoa::Buffer;
use rdf_term::{Scratch, TermRef, TripleRef};

/// The numbers in the names of a triple's subject, predicate and object.
#[derive(Clone, Copy, Debug)]
struct Names {
    s: u64,
    p: u64,
    o: u64,
}

// The numbers of triple number `k` of `n`, from 0.
fn names_of(n: u64, salt: u64, k: u64) -> Names
    requires most { n ≤ 500000000 }
    requires within { k < n }
    ensures s { result.s ≡ subject_at n salt k }
    ensures p { result.p ≡ predicate_at k }
    ensures o { result.o ≡ object_at n salt k }
{
    let names = u128::from(n / 4 + 2);
    let salt = u128::from(salt);
    let k = u128::from(k);
    Names {
        s: ((7 * k + salt) % names) as u64,
        p: (k % 3) as u64,
        o: ((k * k * k + salt * k + 5) / 8 % names) as u64,
    }
}

// Adds a text: a name's front, and a number.
fn add_name(to: &mut Scratch, front: &str, number: u64)
    requires few { length to.old < 3 }
    requires short { length front.now ≤ 6 }
    requires room { 46 ≤ room_of to.old }
    ensures text { to.new ≡ to.old ++ (front.now ++ decimal number) ∷ [] }
    ensures room { room_of to.old ≤ room_of to.new + 46 }
{
    to.add();
    to.join(front);
    to.join(Buffer::new().format(number));
}

/// Triple number `k` of the `n` that are generated with this salt, from 0. Its texts stand in the scratch; no memory is
/// taken.
pub fn generated_triple<'a>(n: u64, salt: u64, k: u64, to: &'a mut Scratch) -> TripleRef<'a>
    requires most { n ≤ 500000000 }
    requires within { k < n }
    ensures { slice_get (generated n salt) k ≡ Some (lent_triple result) }
{
    let numbers = names_of(n, salt, k);
    to.clear();
    add_name(to, "urn:n:", numbers.s);
    add_name(to, "urn:p:", numbers.p);
    add_name(to, "urn:n:", numbers.o);
    TripleRef {
        s: TermRef::Iri(to.text(0)),
        p: TermRef::Iri(to.text(1)),
        o: TermRef::Iri(to.text(2)),
    }
}
