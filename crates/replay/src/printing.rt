// The entries of a log as lines.
use columns::{Columns, column_text};
use failure::Failure;
use journal::{Answer, Call, Entry};
use report::row_line;
use std::alloc::{AllocError, Global};

// A call as it is written. A `Display` would need a wrapper of its own, since calls are another crate's.
fn call_text<M: Columns>(heap: Global, call: &Call<M>) -> Result<String, AllocError> {
    match call {
        Call::Put { start, end, length } => {
            format!(in heap; "put {start} {end} {}", column_text(heap, length)?)
        }
        Call::Relength { arc, length } => {
            format!(in heap; "relength {arc} {}", column_text(heap, length)?)
        }
        Call::Close { arc } => format!(in heap; "close {arc}"),
        Call::Open { arc } => format!(in heap; "open {arc}"),
        Call::Solve { order, .. } => format!(in heap; "solve {} {}", order.k, order.source),
        Call::Length { node, place } => format!(in heap; "length {node} {place}"),
        Call::Trace { target, .. } => format!(in heap; "trace {target}"),
        Call::Next => "next".to_string(heap),
        Call::Finish => "finish".to_string(heap),
        Call::Reopen => "reopen".to_string(heap),
    }
}

// An answer in words; no `Display`, as for calls.
fn answer_text<M: Columns>(heap: Global, answer: &Answer<M>) -> Result<String, AllocError> {
    match answer {
        Answer::Refused(why) => format!(in heap; "refused {}", why.number()),
        Answer::Done => "done".to_string(heap),
        Answer::Numbered(arc) => format!(in heap; "arc {arc}"),
        Answer::Solved { passes, null } => {
            let reached = if *null {
                ", a null circuit is reached"
            } else {
                ""
            };
            format!(in heap; "settled after {passes} passes{reached}")
        }
        Answer::Value(None) => "none".to_string(heap),
        Answer::Value(Some(length)) | Answer::Path { length, .. } => column_text(heap, length),
        Answer::NoPath => "no path is left".to_string(heap),
    }
}

// An entry: the call, its answer, the arcs of a path and the rows of a solve.
pub fn print_entry<M: Columns>(rt: &HostRuntime, entry: &Entry<M>) -> Result<(), Failure> {
    let heap = rt.alloc();
    let call = call_text(heap, &entry.call)?;
    let answer = answer_text(heap, &entry.answer)?;
    let mut line = format!(in heap; "{call}: {answer}")?;
    if let Answer::Path { .. } = entry.answer {
        line.push_str(" by arcs")?;
        for arc in entry.path.iter() {
            write!(line, " {arc}")?;
        }
    }
    rt.println(line)?;
    if let Call::Solve { order, .. } = entry.call {
        // each row has K cells, and as many lengths as its count says
        let rows = entry.values.chunks(order.k).zip(entry.counts.iter());
        for (node, (cells, count)) in (1..).zip(rows) {
            println!(rt;
                "  {}",
                row_line(heap, node, &cells[..cells.len().min(*count)])?
            )?;
        }
    }
    Ok(())
}
