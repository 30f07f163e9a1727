// Networks, walks, rows and sweeps: what a solve computes, and what its rows mean.
//
// The definitions stand in specs/. The functions here compute nothing: each one's contract is a theorem, for every measure.
#![tactic(auto)]

ghost use Rattle.walks.specs.Theorems.{MethodInWords, SettledExact, RefusedExactly, FewPasses, JoinsPresent, RowsBegin, SolvesBegin, FirstsRest};
ghost use Rattle.walks.specs.Nulls.{NullsTold};
ghost use Rattle.walks.specs.Paths.{PathsOrdered, PathsInRows};
ghost use Rattle.walks.specs.Labels.{NextPaths};
ghost use Rattle.walks.specs.Tracing.{TracedInOrder};
ghost use Rattle.walks.specs.Cases.{SmallNetworks};

use measure::Measure;

// The sweeps as computed are those in plain words, and these determine every row and the outcome.
pub fn method_in_words<M: Measure>()
    ensures { MethodInWords M.Measure.algebra }
{}

// A settled row has the first K distinct lengths of walks to its node.
pub fn settled_rows_are_exact<M: Measure>()
    ensures { SettledExact M.Measure.algebra }
{}

// A solve is refused exactly when a walk from the source reaches a circuit before null.
pub fn refused_exactly<M: Measure>()
    ensures { RefusedExactly M.Measure.algebra }
{}

// A settled solve took at least 2 passes and at most N × K + 1.
pub fn passes_are_few<M: Measure>()
    ensures { FewPasses M.Measure.algebra }
{}

// No join is absent during a solve.
pub fn joins_are_present<M: Measure>()
    ensures { JoinsPresent M.Measure.algebra }
{}

// The row of a smaller K is the beginning of the row of a larger K.
pub fn rows_begin_alike<M: Measure>()
    ensures { RowsBegin M.Measure.algebra × SolvesBegin M.Measure.algebra }
{}

// The first lengths are at rest after pass N, unless a circuit before null is reached.
pub fn first_lengths_rest<M: Measure>()
    ensures { FirstsRest M.Measure.algebra }
{}

// Whether a null circuit is reached: by rings of tight arcs, by ranks, by marks.
pub fn null_circuits_are_told<M: Measure>()
    ensures { NullsTold M.Measure.algebra }
{}

// The order of paths is total.
pub fn paths_are_ordered<M: Measure>()
    ensures { PathsOrdered M.Measure.algebra }
{}

// A path runs through the rows, and has fewer than N × K arcs where no null circuit is reached.
pub fn paths_run_through_rows<M: Measure>()
    ensures { PathsInRows M.Measure.algebra }
{}

// Which path comes first, and which comes next after one, by a search backward over labels.
pub fn next_path_is_found_by_labels<M: Measure>()
    ensures { NextPaths M.Measure.algebra }
{}

// The computed list of paths has all of them, each the next after the one before it.
pub fn paths_are_traced_in_order<M: Measure>()
    ensures { TracedInOrder M.Measure.algebra }
{}

// Small networks: rows, passes, refusal, null circuits and paths.
pub fn small_networks()
    ensures { SmallNetworks }
{}
