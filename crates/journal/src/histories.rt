// What the network and the rows are after a log, in terms of what was done last: theorems, for every measure and every log that
// keeps the promise.
ghost use Rattle.journal.specs.Histories.{EndsAsPut, LastLengths, ClosedExactly, RowsStayExact};

use measure::Measure;

// An arc leads from the start to the end of the accepted put that gave it its number.
pub fn arcs_lead_as_put<M: Measure>()
    ensures { EndsAsPut M.Measure.algebra }
{}

// An arc has the last length that an accepted put or relength gave it.
pub fn arcs_have_their_last_lengths<M: Measure>()
    ensures { LastLengths M.Measure.algebra }
{}

// An arc is closed exactly if an accepted close of it has no accepted open of it after.
pub fn arcs_are_closed_exactly<M: Measure>()
    ensures { ClosedExactly M.Measure.algebra }
{}

// From an accepted solve to the next reopen the rows are exact for the network of the log.
pub fn rows_stay_exact<M: Measure>()
    ensures { RowsStayExact M.Measure.algebra }
{}
