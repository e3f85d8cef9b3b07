//! The lines of files, as batches.
ghost use Rattle.std.specs.Prelude.{◌≡◌, ◌≤◌, length, IfSome};
ghost use Rattle.tn_io.specs.CutterState.{line_told};
ghost use Rattle.script_model.specs.Commands as script;
ghost use Rattle.line_batch.specs.Sound.{IsBetweenCommands};
ghost use Rattle.line_batch.specs.Seen.{answer_of};
ghost use Rattle.line_batch.specs.Batches.{lent_line, MayBeScope, IsNone, IsReady};
ghost use Rattle.line_batch.specs.Carrying.{Around};
ghost use Rattle.line_batch.specs.Loading.{Has, Gathers, IsCounted, failed_read, IsReadyGathered, CarriesReads, file_command};

use crate::answer::Answer;
use crate::batch::Batch;
use crate::counts::Counts;
use answer_text::Refusal;
use file_read::{FileFault, FileReader};
use graph_store::Store;
use rdf_term::Scratch;
use std::alloc::Global;
use std::sync::ledger::Ledger;
use tn_io::{Cut, Files};
use trie_depth::Mix;

// How the lines of a file were gathered. It must be spent.
enum Gathered {
    // All lines are in the batch.
    Whole(Batch),
    // A line can't be carried out, or the file is too long.
    Refused(Refusal),
    // A read of the file failed.
    Failed,
}

// The line that a cut told.
fn told_line(cut: Cut, reader: &FileReader) -> Option<&[u8]>
    ensures line { lent_line result ≡ line_told cut reader.now.cutter }
    ensures short { IfSome result (λ l. length l.now ≤ 1048576) }
{
    match cut {
        Cut::Whole => Some(reader.line()),
        Cut::TooLong => None,
    }
}

// The lines of a file behind those of the batch. None is judged behind one that can't be carried out.
fn gather<M: Mix, F: Files>(
    mut batch: Batch,
    store: &mut Store<M>,
    files: &mut F,
    reader: &mut FileReader,
    scope: &str,
    name: &str,
    scratch: &mut Scratch,
) -> Gathered
    requires ready { IsReady store.old batch }
    requires scope { MayBeScope scope.now }
    requires few { reader.old.max ≤ 1099511627776 }
    ensures ready { IsReadyGathered store.new result }
    ensures gathers { (A : Around) (change : script.Change) → Has A M.mixed reader.old.max (F.files files.old)
        → IsNone store.old change batch
        → Gathers A store.old change scope.now name.now store.new reader.new.place result }
    ensures counted { IsCounted (F.faults files.old) (F.faults files.new)
        (failed_read name.now reader.new.place result) }
    ensures same { F.files files.new ≡ F.files files.old }
    ensures max { reader.new.max ≡ reader.old.max }
{
    reader.begin();
    let mut number = 0;
    'lines: loop {
        let cut = match reader.next_line(files, name) {
            Ok(Some(cut)) => cut,
            Ok(None) => return Gathered::Whole(batch),
            Err(FileFault::Read) => {
                batch.abandon(store);
                return Gathered::Failed;
            }
            Err(FileFault::Long) => {
                batch.abandon(store);
                return Gathered::Refused(Refusal::Long);
            }
        };
        let line = told_line(cut, reader);
        number += 1;
        match batch.with_line(store, line, scope, number, scratch) {
            Batch::Refused(cause) => return Gathered::Refused(cause),
            next => batch = next,
        }
    }
}

/// Puts in the triples of the lines of a file, or takes them out, as the empty batch says: all of them or none. The lines
/// are read under the scope, and the file is never held whole.
pub fn load<M: Mix, F: Files, W: Ledger, V: Ledger, U: Ledger>(
    alloc: Global,
    batch: Batch,
    store: &mut Store<M>,
    files: &mut F,
    reader: &mut FileReader,
    scope: &str,
    name: &str,
    scratch: &mut Scratch,
    counts: &mut Counts<W, V, U>,
) -> Answer
    requires ready { IsReady store.old batch }
    requires scope { MayBeScope scope.now }
    requires few { reader.old.max ≤ 1099511627776 }
    ensures carries { (A : Around) (change : script.Change) → Has A M.mixed reader.old.max (F.files files.old)
        → IsBetweenCommands M.mixed store.old → IsNone store.old change batch
        → CarriesReads A store.old (file_command change scope.now name.now) store.new (answer_of result)
        (F.faults files.old) (F.faults files.new) }
    ensures same { F.files files.new ≡ F.files files.old }
    ensures max { reader.new.max ≡ reader.old.max }
{
    match gather(batch, store, files, reader, scope, name, scratch) {
        Gathered::Whole(batch) => batch.carry_out(alloc, store, counts),
        Gathered::Refused(cause) => Answer::Refused(cause),
        Gathered::Failed => Answer::Refused(Refusal::File),
    }
}
