// What is printed of an answer.
ghost use Rattle.std.specs.Prelude.{◌≡◌, ◌^◌, ◌<◌, ◌++◌, IfOk, if◌then◌else◌, string_bytes, codes, decimal, nat_lt};
ghost use Rattle.report.specs.Lists.{length_text, row_listed, nodes_listed};

use columns::{Columns, column_text};
use std::alloc::{AllocError, Global};

// The head of a solve, as `solve K 3 from 1 passes 7`.
pub fn solve_line(
    heap: Global,
    k: usize,
    source: usize,
    passes: usize,
) -> Result<String, AllocError>
    ensures { IfOk result (λ t. string_bytes t ≡ codes "solve K " ++ (decimal k ++ (codes " from " ++ (decimal source ++ (codes " passes " ++ decimal passes))))) }
{
    format!(in heap; "solve K {k} from {source} passes {passes}")
}

// The row of a node, as `node 2 lengths 3 4 5` or `node 2 lengths none`.
pub fn row_line<M: Columns>(heap: Global, node: usize, row: &[M]) -> Result<String, AllocError>
    ensures { M.Columns.columnar.width < 2 ^ 64 → IfOk result (λ t. string_bytes t ≡ codes "node " ++ (decimal node ++ (codes " lengths" ++ row_listed M.Columns.columnar row.now))) }
{
    let mut line = format!(in heap; "node {node} lengths")?;
    if row.is_empty() {
        line.push_str(" none")?;
    }
    for value in row {
        let shown = column_text(heap, value)?;
        write!(line, " {shown}")?;
    }
    Ok(line)
}

// The head of a trace, as `trace to 4`.
pub fn trace_line(heap: Global, target: usize) -> Result<String, AllocError>
    ensures { IfOk result (λ t. string_bytes t ≡ codes "trace to " ++ decimal target) }
{
    format!(in heap; "trace to {target}")
}

// A path by its length and its nodes, as `8 : 1 3 2 4`.
pub fn path_line<M: Columns>(
    heap: Global,
    length: &M,
    nodes: &[usize],
) -> Result<String, AllocError>
    ensures { M.Columns.columnar.width < 2 ^ 64 → IfOk result (λ t. string_bytes t ≡ length_text M.Columns.columnar length.now ++ (codes " :" ++ nodes_listed nodes.now)) }
{
    let shown = column_text(heap, length)?;
    let mut line = format!(in heap; "{shown} :")?;
    for node in nodes {
        write!(line, " {node}")?;
    }
    Ok(line)
}

// Whether a trace goes on after so many paths.
pub fn goes_on(count: usize, most: usize) -> bool
    ensures { result ≡ nat_lt count most }
{
    count < most
}

// The end of a trace after so many paths: `stopped 3` if a path is left, else `all 3`.
pub fn end_line(heap: Global, count: usize, left: bool) -> Result<String, AllocError>
    ensures { IfOk result (λ t. string_bytes t ≡ (if left then codes "stopped " else codes "all ") ++ decimal count) }
{
    if left {
        format!(in heap; "stopped {count}")
    } else {
        format!(in heap; "all {count}")
    }
}
