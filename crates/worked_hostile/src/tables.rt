//! The scripts that are tried, each with what it must answer.
use tentris_core::Status;

/// A file of five triples with two labels of blank nodes.
pub const PEOPLE: &str = "# FOAF extract\r\n\
    _:me <http://www.w3.org/1999/02/22-rdf-syntax-ns#type> <http://xmlns.com/foaf/0.1/Person> .\r\n\
    _:me <http://xmlns.com/foaf/0.1/name> \"Alice\"@EN .\r\n\
    _:me <http://xmlns.com/foaf/0.1/knows> _:b .   # a friend\r\n\
    _:b <http://www.w3.org/1999/02/22-rdf-syntax-ns#type> <http://xmlns.com/foaf/0.1/Person> .\r\n\
    _:b <http://xmlns.com/foaf/0.1/name> \"Bob\" .\r\n";

/// It is loaded under two scopes.
pub const LOADS: &str =
    "LOAD SCOPE one f\nLOAD SCOPE two f\nQUERY\nPREFIX foaf: <http://xmlns.com/foaf/0.1/>\n\
    SELECT ?n ?m\nWHERE { ?x a foaf:Person ; foaf:name ?n ; foaf:knows ?y .\n?y foaf:name ?m . }\nGO\n";

/// The answers where a read of the first LOAD fails, of the second, and of none.
pub const LOADED: [&str; 3] = [
    "refused 4 file\nok new 5 now 5\n?n\t?m\n\"Alice\"@en\t\"Bob\"\nok rows 1\n",
    "ok new 5 now 5\nrefused 4 file\n?n\t?m\n\"Alice\"@en\t\"Bob\"\nok rows 1\n",
    "ok new 5 now 5\nok new 5 now 10\n?n\t?m\n\"Alice\"@en\t\"Bob\"\n\"Alice\"@en\t\"Bob\"\nok rows 2\n",
];

/// Words, a script over the one file, how it ends where nobody reads its answers, and how many triples it leaves.
pub const DRY: [(&[&str], &str, Status, u64); 4] = [
    (&[], LOADS, Status::Done, 10),
    (&[], "LOAD f\nLOAD none.nt\n", Status::SomeRefused, 5),
    (&["--max-triples", "0"], "LOAD f\n", Status::BadWords, 0),
    (&["--max-bytes", "6"], "STATS\nSTATS\n", Status::TooLong, 0),
];

/// Texts that are repeated within a script, and what the script answers.
#[derive(Clone, Copy)]
pub struct Repeats {
    pub front: &'static str,
    pub repeated: &'static str,
    pub times: usize,
    pub middle: &'static str,
    pub closing: &'static str,
    pub end: &'static str,
    pub answer: &'static str,
}

/// Deep brackets, in a query that is closed and in one that isn't, and a literal that fills a line, or is too long for it.
pub const HOSTILE: [Repeats; 4] = [
    Repeats {
        front: "QUERY\nSELECT * { ?s ?p ",
        repeated: "[ <x:p> ",
        times: 40,
        middle: "?o",
        closing: " ]",
        end: " }\nGO\n",
        answer: "refused 8 size\n",
    },
    Repeats {
        front: "QUERY\nSELECT * { ?s ?p ",
        repeated: "[",
        times: 500_000,
        middle: "",
        closing: "",
        end: "\nGO\n",
        answer: "refused 2 query\n",
    },
    Repeats {
        front: "INSERT\n<x:a> <x:p> \"",
        repeated: "a",
        times: 1_048_560,
        middle: "",
        closing: "",
        end: "\" .\nGO\n",
        answer: "ok new 1 now 1\n",
    },
    Repeats {
        front: "INSERT\n<x:a> <x:p> \"",
        repeated: "a",
        times: 1_048_561,
        middle: "",
        closing: "",
        end: "\" .\nGO\n",
        answer: "refused 3 line 1\n",
    },
];
