// The fields of a record's body. Numbers have their highest byte first; past the end of a body a byte counts as 0.
ghost use Rattle.std.specs.Prelude.{◌≡◌, ◌≤◌, slice_index};
ghost use Rattle.netfile.specs.Fields.{pair, word, columns_of};

use columns::{Columns, Kind};

fn byte_at(body: &[u8], at: usize) -> u8
    ensures { result ≡ slice_index body.now at }
{
    body.get(at).copied().unwrap_or(0)
}

// Two bytes. For this and the next, bytes by a const parameter were tried: what they return stayed open.
fn pair_at(body: &[u8], at: usize) -> usize
    requires { at ≤ 1000 }
    ensures { result ≡ pair body.now at }
{
    usize::from(u16::from_be_bytes([byte_at(body, at), byte_at(body, at + 1)]))
}

// Four bytes in two's complement.
fn word_at(body: &[u8], at: usize) -> i64
    requires { at ≤ 1000 }
    ensures { result ≡ word body.now at }
{
    i64::from(i32::from_be_bytes([
        byte_at(body, at),
        byte_at(body, at + 1),
        byte_at(body, at + 2),
        byte_at(body, at + 3),
    ]))
}

// The nodes and the number of the kind in a network record. As below, a pair that is taken apart by name where it is read: a struct
// for each would be longer.
pub fn network_fields(body: &[u8]) -> (usize, u8)
    ensures nodes { result.0 ≡ pair body.now 0 }
    ensures kind { result.1 ≡ slice_index body.now 2 }
{
    (pair_at(body, 0), byte_at(body, 2))
}

// The start and the end of an arc.
pub fn arc_ends(body: &[u8]) -> (usize, usize)
    ensures start { result.0 ≡ pair body.now 0 }
    ensures end { result.1 ≡ pair body.now 2 }
{
    (pair_at(body, 0), pair_at(body, 2))
}

// The length of an arc, from its columns; none where they make no length of this measure.
pub fn arc_length<M: Columns>(body: &[u8], kind: Kind) -> Option<M>
    ensures { result ≡ M.Columns.columnar.build (columns_of kind body.now) }
{
    if kind.width() == 1 {
        M::build(&[word_at(body, 4)])
    } else {
        M::build(&[word_at(body, 4), word_at(body, 8)])
    }
}

// K and the source of a query.
pub fn query_fields(body: &[u8]) -> (usize, usize)
    ensures width { result.0 ≡ slice_index body.now 0 }
    ensures source { result.1 ≡ pair body.now 1 }
{
    (usize::from(byte_at(body, 0)), pair_at(body, 1))
}

// The target and the most paths of a target record. They stand where an arc's ends do: a function for both would be longer.
pub fn target_fields(body: &[u8]) -> (usize, usize)
    ensures target { result.0 ≡ pair body.now 0 }
    ensures most { result.1 ≡ pair body.now 2 }
{
    (pair_at(body, 0), pair_at(body, 2))
}
