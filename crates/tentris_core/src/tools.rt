//! What commands work with.
use file_read::FileReader;
use line_batch::Counts;
use rdf_term::Scratch;
use std::sync::ledger::Ledger;

/// Whether the rows of an answer are sorted, the buffers of reading, and the counters.
#[derive(Drop)]
pub struct Tools<W: Ledger, V: Ledger, U: Ledger> {
    pub sorted: bool,
    pub scratch: Scratch,
    pub reader: FileReader,
    pub counts: Counts<W, V, U>,
}
