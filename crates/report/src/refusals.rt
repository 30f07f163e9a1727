// What is printed in place of an answer. Reasons come as numbers: those of files and of sessions are types of other crates.
ghost use Rattle.std.specs.Prelude.{◌≡◌, ◌++◌, IfOk, string_bytes, codes, decimal};

use std::alloc::{AllocError, Global};

// A file that is refused, as `file refused 3 at 25`.
pub fn file_refused_line(heap: Global, number: u8, at: usize) -> Result<String, AllocError>
    ensures { IfOk result (λ t. string_bytes t ≡ codes "file refused " ++ (decimal number ++ (codes " at " ++ decimal at))) }
{
    format!(in heap; "file refused {number} at {at}")
}

// A solve that is refused, as `solve refused 11`. A line each, as its bytes are the contract.
pub fn solve_refused_line(heap: Global, number: u8) -> Result<String, AllocError>
    ensures { IfOk result (λ t. string_bytes t ≡ codes "solve refused " ++ decimal number) }
{
    format!(in heap; "solve refused {number}")
}

// A trace that is refused, as `trace refused 13`.
pub fn trace_refused_line(heap: Global, number: u8) -> Result<String, AllocError>
    ensures { IfOk result (λ t. string_bytes t ≡ codes "trace refused " ++ decimal number) }
{
    format!(in heap; "trace refused {number}")
}

// A trace after a refused solve.
pub fn trace_skipped_line(heap: Global) -> Result<String, AllocError>
    ensures { IfOk result (λ t. string_bytes t ≡ codes "trace skipped") }
{
    String::from_str(heap, "trace skipped")
}
