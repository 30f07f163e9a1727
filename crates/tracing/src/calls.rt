// The call that hands out the next path.
ghost use Rattle.std.specs.Prelude.{◌≡◌, length};
ghost use Rattle.tracing.specs.Tables.{tables};
ghost use Rattle.tracing.specs.Standing.{new_cursor, Nexted};

use super::labels::Label;
use super::lent::Lent;
use super::nexts::write_path;
use super::{Cursor, Step};
use measure::Measure;
use sweeps::{Arc, Order};

impl Cursor {
    // A trace to a node, of which no path is handed out yet.
    pub fn new(target: usize) -> Cursor
        ensures { result ≡ new_cursor target }
    {
        Cursor { target, last: None }
    }

    // Hands out the next path: writes its arcs from the source on into the first cells of the path table, and tells how many there are and its length.
    // Each table is lent anew at each call, as a slice of its own. The work table is to be as the last call on this cursor left it.
    pub fn next<'a, M: Measure>(
        &mut self,
        nodes: usize,
        order: Order,
        arcs: &'a [Arc],
        lengths: &'a [M],
        values: &'a [M],
        counts: &'a [usize],
        work: &mut [Step],
        path: &mut [usize],
    ) -> Option<(usize, M)>
        ensures { Nexted M.Measure.algebra (tables nodes order.k order.source arcs.now lengths.now values.now counts.now) self.old work.old path.old self.new work.new path.new result }
    {
        let lent = Lent::new(nodes, order, arcs, lengths, values, counts)?;
        let found = lent.advance(self.target, self.last, work)?;
        if found.depth > path.len() {
            return None;
        }
        let length = lent.value(Label {
            node: self.target,
            place: found.place,
        })?;
        write_path(&work[..found.depth], path);
        self.last = Some(found);
        Some((found.depth, length))
    }
}
