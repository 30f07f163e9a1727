ghost use Rattle.std.specs.Prelude.{◌≡◌, ◌++◌, IfOk, string_bytes, codes, decimal};

use std::alloc::{AllocError, Global};

// The line of a route that has a length, as `route 2: 900/4320`.
pub fn route_line(heap: Global, number: usize, length: &str) -> Result<String, AllocError>
    ensures { IfOk result (λ t. string_bytes t ≡ codes "route " ++ (decimal number ++ (codes ": " ++ length.now))) }
{
    format!(in heap; "route {number}: {length}")
}

// The line of a place in the ranking, as `1. route 2: 900/4320`.
pub fn place_line(
    heap: Global,
    place: usize,
    number: usize,
    length: &str,
) -> Result<String, AllocError>
    ensures { IfOk result (λ t. string_bytes t ≡ decimal place ++ (codes ". route " ++ (decimal number ++ (codes ": " ++ length.now)))) }
{
    format!(in heap; "{place}. route {number}: {length}")
}

// The same for a route as long as the one before it, which shares its place. One format with a mark would be no shorter.
pub fn equal_line(
    heap: Global,
    place: usize,
    number: usize,
    length: &str,
) -> Result<String, AllocError>
    ensures { IfOk result (λ t. string_bytes t ≡ decimal place ++ (codes ". route " ++ (decimal number ++ (codes ": " ++ (length.now ++ codes " (equal)"))))) }
{
    format!(in heap; "{place}. route {number}: {length} (equal)")
}
