//! The forms of commands.
/// What a line outside a block commands. Texts are those of the line.
#[derive(Clone, Copy, Debug, PartialEq, Eq)]
pub enum Command<'a> {
    /// Begins a block of triples that are added.
    Insert,
    /// Begins a block of triples that are taken away.
    Delete,
    /// Begins a block that is a query.
    Query,
    /// Adds the triples of a file: a scope for its labels, empty where there is none, and the file's name.
    Load(&'a str, &'a str),
    /// Takes the triples of a file away: a scope, as in `Load`, and the file's name.
    Unload(&'a str, &'a str),
    /// Prints how many triples, terms and rows there are.
    Stats,
    /// Prints the rows of the graph's shape.
    Shape,
    /// Prints the graph.
    Dump,
    /// Adds generated triples: how many, and the salt.
    Generate(u64, u64),
}
