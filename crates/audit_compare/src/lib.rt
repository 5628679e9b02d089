// The comparison of the lengths with one N, and of each node with its code and its tally.
#![tactic(auto)]

ghost use Rattle.std.specs.Prelude.{◌≡◌, ℕ, ◌+◌, ◌≤◌, length, get_or};
ghost use Rattle.meaning.specs.Limits.{max_nodes, node_cells};
ghost use Rattle.meaning.specs.Lent.{cell_of};
ghost use Rattle.audit_model.specs.Records.{all_to};
ghost use Rattle.audit_model.specs.Audit.{lengths_ok, spare_ok, node_ok};
ghost use Rattle.audit_reads.specs.Slices.{nodes_in};

use audit_reads::{Nodes, at};
use limits::{ALL_NUMBERS, FREE, MAX_NODES, NODE_CELLS, PLACES};

// How many elements each slice has, but for the version table.
#[derive(Clone, Copy)]
pub struct Lengths {
    pub kinds: usize,
    pub used: usize,
    pub cells: usize,
    pub counts: usize,
    pub order: usize,
    pub walk_numbers: usize,
    pub walk_nodes: usize,
    pub walk_indices: usize,
}

impl Lengths {
    // Whether they fit one N in range.
    #[tactic(auto, unfolding(audit_model::specs::Audit::lengths_ok))]
    pub fn fit(self) -> bool
        ensures { result ≡ lengths_ok self.kinds self.used self.cells self.counts self.order self.walk_numbers self.walk_nodes self.walk_indices }
    {
        let n = self.kinds;
        if n > MAX_NODES {
            return false;
        }
        (1 <= n)
            & (self.used == n)
            & (self.cells == NODE_CELLS * n)
            & (self.counts == n)
            & (self.order == n)
            & (self.walk_numbers == ALL_NUMBERS)
            & (self.walk_nodes == PLACES)
            & (self.walk_indices == PLACES)
    }
}

// Whether the cells of a node from u upwards are 0, each looked at: with no way out of the loop, the compiler takes several at a time.
pub fn row_spare_ok(cells: &[u32], at: usize, u: u32) -> bool
    requires { at + node_cells ≤ length cells.now }
    ensures { result ≡ spare_ok u (λ (i : ℕ). get_or cells.now (at + i) 0) }
{
    let mut ok = true;
    for i in u as usize..NODE_CELLS {
        ok &= cells[at + i] == 0;
    }
    ok
}

// The same cell by cell, of a node whose cells are not all there: what is not there reads 0.
pub fn part_spare_ok(nodes: Nodes, n: u32, u: u32) -> bool
    ensures { result ≡ spare_ok u (cell_of (nodes_in nodes.entry) n) }
{
    for i in u..NODE_CELLS as u32 {
        if nodes.cell(n, i) != 0 {
            return false;
        }
    }
    true
}

pub fn spare_ok(nodes: Nodes, n: u32, u: u32) -> bool
    ensures { result ≡ spare_ok u (cell_of (nodes_in nodes.entry) n) }
{
    let at = NODE_CELLS * n as usize;
    if at + NODE_CELLS <= nodes.cells.len() {
        return row_spare_ok(nodes.cells, at, u);
    }
    part_spare_ok(nodes, n, u)
}

// A free node stands in the order once, is linked by none and is 0; any other was reached, and its count is the links to it.
#[tactic(auto, unfolding(audit_model::specs::Audit::node_ok))]
pub fn node_ok(nodes: Nodes, counts: &[u32], codes: &[u32], tallies: &[u32], n: u32) -> bool
    ensures { result ≡ node_ok (nodes_in nodes.entry) counts.now codes.now tallies.now n }
{
    let i = n as usize;
    let u = nodes.used(n);
    let count = at(counts, i, 0);
    let tally = at(tallies, i, 0);
    if nodes.kind(n) == FREE {
        return (tally == 1) & (u == 0) & (count == 0);
    }
    let code = at(codes, i, 0);
    let same = (code != 0) & (tally == count);
    same && spare_ok(nodes, n, u as u32)
}

pub fn nodes_ok(nodes: Nodes, counts: &[u32], codes: &[u32], tallies: &[u32]) -> bool
    requires { length nodes.kinds.now ≤ max_nodes }
    ensures { result ≡ all_to (length nodes.entry.kinds.now) (node_ok (nodes_in nodes.entry) counts.now codes.now tallies.now) }
{
    (0..nodes.kinds.len() as u32).all(|n| node_ok(nodes, counts, codes, tallies, n))
}
