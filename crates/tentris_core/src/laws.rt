//! What follows from the definitions of a run.
ghost use Rattle.tentris_core.specs.Complete.{RunsAreComplete};
ghost use Rattle.tentris_core.specs.Sorted.{CallsCarryOut, SortedCallsAgree};

/// A run carries out every command that nothing refuses and whose file could be read, but for want of memory.
pub fn law_of_complete_runs()
    ensures { RunsAreComplete }
{}

/// With sorted rows, what a call writes and leaves is a function of the words, the script, the files and the graph, unless
/// memory ran out, or a read or a write failed.
pub fn law_of_sorted_calls()
    ensures agree { SortedCallsAgree }
    ensures calls { CallsCarryOut }
{}
