// The second solver: first lengths by rounds over the arcs, and then label setting.
use super::cost::{Cost, NULL};
use super::networks::{Network, PlainArc};
use std::alloc::{AllocError, Global};
use std::collections::{BTreeMap, BTreeSet};

// The first length of each node of a network that is reached.
#[derive(Drop)]
pub struct Firsts<'a> {
    pub network: &'a Network,
    lengths: BTreeMap<usize, Cost>,
}

// A length at a node, less the node's first length.
#[derive(Clone, Copy, PartialEq, Eq, PartialOrd, Ord)]
struct Label {
    reduced: Cost,
    node: usize,
}

impl<'a> Firsts<'a> {
    // None where some walk from the source reaches a negative circuit.
    pub fn found(heap: Global, network: &'a Network) -> Result<Option<Firsts<'a>>, AllocError> {
        let mut lengths = BTreeMap::new(heap);
        lengths.insert(network.source, NULL)?;
        let mut firsts = Firsts { network, lengths };
        let mut lower = false;
        for _ in 0..network.nodes {
            lower = firsts.lower()?;
        }
        Ok(if lower { None } else { Some(firsts) })
    }

    // One round over the open arcs; tells whether it changed a length.
    fn lower(&mut self) -> Result<bool, AllocError> {
        let mut changed = false;
        for arc in &self.network.arcs {
            if arc.open
                && let Some(start) = self.of(arc.start)
            {
                let length = start + arc.cost;
                if self.of(arc.end).is_none_or(|old| length < old) {
                    self.lengths.insert(arc.end, length)?;
                    changed = true;
                }
            }
        }
        Ok(changed)
    }

    pub fn of(&self, node: usize) -> Option<Cost> {
        self.lengths.get(&node).copied()
    }

    // What an arc adds to a reduced length, which is never before null; none for an arc that no walk takes.
    fn reduced(&self, arc: &PlainArc) -> Option<Cost> {
        if !arc.open {
            return None;
        }
        let start = self.of(arc.start)?;
        let end = self.of(arc.end)?;
        Some(start + arc.cost - end)
    }

    // Whether a null circuit is reached: whether arcs that add null lead from some node back to it.
    pub fn null_circuit(&self, heap: Global) -> Result<bool, AllocError> {
        let mut joined = BTreeSet::new(heap);
        for arc in &self.network.arcs {
            if self.reduced(arc) == Some(NULL) {
                joined.insert((arc.start, arc.end))?;
            }
        }
        let nodes = self.network.nodes;
        for via in 1..=nodes {
            for start in 1..=nodes {
                for end in 1..=nodes {
                    if joined.contains(&(start, via)) && joined.contains(&(via, end)) {
                        joined.insert((start, end))?;
                    }
                }
            }
        }
        Ok((1..=nodes).any(|node| joined.contains(&(node, node))))
    }

    // The rows of all nodes, by node; number 0, no node, stays empty. Labels are taken from the lowest on, so a row comes in order.
    pub fn rows(&self, heap: Global) -> Result<Vec<Vec<Cost>>, AllocError> {
        let mut rows = Vec::new(heap);
        for _ in 0..=self.network.nodes {
            rows.push(Vec::new(heap))?;
        }
        let mut labels = BTreeSet::new(heap);
        labels.insert(Label {
            reduced: NULL,
            node: self.network.source,
        })?;
        for _ in 0..=self.network.k.saturating_mul(self.network.arcs.len()) {
            let Some(label) = labels.pop_first() else {
                break;
            };
            if self.enter(label, &mut rows)? {
                for arc in &self.network.arcs {
                    if arc.start == label.node
                        && let Some(more) = self.reduced(arc)
                    {
                        labels.insert(Label {
                            reduced: label.reduced + more,
                            node: arc.end,
                        })?;
                    }
                }
            }
        }
        Ok(rows)
    }

    // Puts a label's length at the end of its row, and tells whether it is new there and has a place.
    fn enter(&self, label: Label, rows: &mut Vec<Vec<Cost>>) -> Result<bool, AllocError> {
        let (Some(first), Some(row)) = (self.of(label.node), rows.get_mut(label.node)) else {
            return Ok(false);
        };
        let length = label.reduced + first;
        if row.len() >= self.network.k || row.last().copied() == Some(length) {
            return Ok(false);
        }
        row.push(length)?;
        Ok(true)
    }
}
