// Placing lengths in rows.
ghost use Rattle.std.specs.Prelude.{◌≡◌, ◌≤◌, length};
ghost use Rattle.std.specs.Ordering.{is_eq, is_gt};
ghost use Rattle.sweeps.specs.Places.{first_cell, RowPlaced};

use measure::Measure;
use std::mem;

// Whether a comes after b. A function with this promise, as the next: where the test is written out in `place`, a wrong one is refused
// by its name alone.
fn after<M: Measure>(a: &M, b: &M) -> bool
    ensures { result ≡ is_gt (M.Measure.algebra.compare a.now b.now) }
{
    a.compare(b).is_gt()
}

// Whether a is the same as b.
fn same<M: Measure>(a: &M, b: &M) -> bool
    ensures { result ≡ is_eq (M.Measure.algebra.compare a.now b.now) }
{
    a.compare(b).is_eq()
}

// A row in which one length after another is placed: how many of its first cells hold lengths, whether it has changed, and the cell
// from which to look for the place of the next length. Any will do, but a length that comes after the last one placed is found at once.
#[derive(Drop)]
pub struct Filling {
    pub held: usize,
    pub changed: bool,
    pub from: usize,
    ghost within: { from ≤ held },
}

// The cell from which to look for the place of x among ascending cells.
fn first_cell<M: Measure>(row: &[M], from: usize, x: &M) -> usize
    requires { from ≤ length row.now }
    ensures { result ≡ first_cell M.Measure.algebra row.now from x.now }
{
    if from > 0 && after(x, &row[from - 1]) {
        from
    } else {
        0
    }
}

impl Filling {
    // Places x in the row.
    pub fn place<M: Measure>(&mut self, row: &mut [M], x: M)
        requires { self.old.held ≤ length row.old }
        ensures { RowPlaced M.Measure.algebra row.old self.old.held self.old.changed x row.new self.new.held self.new.changed self.new.from }
    {
        let mut at = first_cell(row, self.from, &x);
        // a counted search, since with `position` or `take_while` the whole solve takes a tenth longer
        while at < self.held && after(&x, &row[at]) {
            at += 1;
        }
        if at < self.held && same(&x, &row[at]) {
            self.from = at + 1;
            return;
        }
        let mut carry = x;
        for cell in &mut row[at..self.held] {
            carry = mem::replace(cell, carry);
        }
        if self.held < row.len() {
            row[self.held] = carry;
            self.held += 1;
            self.changed = true;
            self.from = at + 1;
        } else {
            self.changed |= at < self.held;
            self.from = at;
        }
    }
}
