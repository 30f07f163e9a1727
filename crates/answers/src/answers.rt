// What each record of a file does and prints.
ghost use Rattle.std.specs.Prelude.{◌≤◌, IfSome, vec_len};

use super::LIMITS;
use super::paths::path_nodes;
use super::sessions::Session;
use super::tables::Tables;
use columns::Columns;
use failure::Failure;
use netfile::{Kind, Reader, Record, arc_ends, arc_length, query_fields, target_fields};
use report::{
    end_line, goes_on, path_line, row_line, solve_line, solve_refused_line, trace_line,
    trace_refused_line, trace_skipped_line,
};
use session::{Draft, Order, Trace};

impl<M: Columns> Tables<M> {
    // Takes the arc of this body into a draft.
    fn put(&mut self, draft: &mut Draft, kind: Kind, body: &[u8]) {
        let (start, end) = arc_ends(body);
        // the arcs of a checked file have a length and are taken
        if let Some(length) = arc_length::<M>(body, kind) {
            let _ = draft.put(&mut self.arcs, &mut self.lengths, start, end, length);
        }
    }

    // Solves for the query of this body, over so many nodes, and prints the rows.
    fn query(
        &mut self,
        rt: &HostRuntime,
        session: Session,
        nodes: usize,
        body: &[u8],
    ) -> Result<Session, Failure> {
        let heap = rt.alloc();
        let draft = match session {
            Session::Draft(draft) => draft,
            Session::Solved(settled, _) => settled.reopen(&mut self.values, &mut self.counts),
        };
        let (k, source) = query_fields(body);
        // a checked file asks for no other orders
        let Ok(order) = Order::new(k, source) else {
            return Ok(Session::Draft(draft));
        };
        match draft.solve(
            order,
            &self.arcs,
            &self.lengths,
            &mut self.values,
            &mut self.counts,
        ) {
            Ok((settled, solved)) => {
                rt.println(solve_line(heap, k, source, solved.passes)?)?;
                for node in 1..=nodes {
                    let row = self.row(heap, &settled, node)?;
                    rt.println(row_line(heap, node, row.as_slice())?)?;
                }
                Ok(Session::Solved(settled, source))
            }
            Err((draft, why)) => {
                rt.println(solve_refused_line(heap, why.number())?)?;
                Ok(Session::Draft(draft))
            }
        }
    }

    // The next path of a trace: how many arcs it has in the path table, and its length.
    fn next(&mut self, trace: &mut Trace) -> Option<(usize, M)>
        ensures { IfSome result (λ found. found.0 ≤ vec_len self.new.path) }
    {
        trace.next(
            &self.arcs,
            &self.lengths,
            &self.values,
            &self.counts,
            &mut self.work,
            &mut self.path,
        )
    }

    // Prints the next path of a trace, and answers whether there was one.
    fn print_next(
        &mut self,
        rt: &HostRuntime,
        trace: &mut Trace,
        source: usize,
    ) -> Result<bool, Failure> {
        let heap = rt.alloc();
        let Some((size, length)) = self.next(trace) else {
            return Ok(false);
        };
        let nodes = path_nodes(heap, source, &self.arcs, &self.path[0..size])?;
        rt.println(path_line(heap, &length, nodes.as_slice())?)?;
        Ok(true)
    }

    // Prints the paths to the target of this body, as many as it asks for.
    fn trace(
        &mut self,
        rt: &HostRuntime,
        session: Session,
        body: &[u8],
    ) -> Result<Session, Failure> {
        let heap = rt.alloc();
        let (target, most) = target_fields(body);
        let Session::Solved(settled, source) = session else {
            rt.println(trace_skipped_line(heap)?)?;
            return Ok(session);
        };
        let mut trace = match settled.trace(target, &self.work, &self.path) {
            Ok(trace) => trace,
            Err((settled, why)) => {
                rt.println(trace_refused_line(heap, why.number())?)?;
                return Ok(Session::Solved(settled, source));
            }
        };
        rt.println(trace_line(heap, target)?)?;
        // counted by hand, since the number printed is told at the end
        let mut count = 0;
        while goes_on(count, most) && self.print_next(rt, &mut trace, source)? {
            count += 1;
        }
        let left = self.next(&mut trace);
        rt.println(end_line(heap, count, left.is_some())?)?;
        Ok(Session::Solved(trace.finish(), source))
    }
}

// Prints the answers to the queries of a file that was checked, over a network of so many nodes.
pub(crate) fn answer<M: Columns>(
    rt: &HostRuntime,
    file: &[u8],
    nodes: usize,
) -> Result<(), Failure> {
    let mut tables = Tables::<M>::new(rt.alloc())?;
    let Ok(draft) = Draft::new(nodes) else {
        return Ok(());
    };
    let mut session = Session::Draft(draft);
    let mut reader = Reader::new(file, LIMITS);
    // a checked file has no fault
    while let Ok(Some(item)) = reader.next() {
        match item {
            Record::Arc(body) => {
                if let Session::Draft(draft) = &mut session {
                    tables.put(draft, reader.progress.kind, body);
                }
            }
            Record::Query(body) => session = tables.query(rt, session, nodes, body)?,
            Record::Target(body) => session = tables.trace(rt, session, body)?,
            Record::Network(_) | Record::End => {}
        }
    }
    Ok(())
}
