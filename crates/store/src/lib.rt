// Module 2: a store of nodes in slices that the caller lends.
#![tactic(auto)]

ghost use Rattle.std.specs.Prelude.{◌≡◌, ◌+◌, ◌-◌, ◌*◌, ◌≤◌, ◌<◌, length, get_or};
ghost use Rattle.meaning.specs.Limits.{node_cells};
ghost use Rattle.cells.specs.Cells.{cells_of};
ghost use Rattle.store.specs.Store.{raise, raises};
ghost use Rattle.store.specs.Ready.{Sized, FreeOnTop, HasPlace, Room, AllBelow};
ghost use Rattle.store.specs.Answers.{Written, Makes, others};
ghost use Rattle.store.specs.Lent.{nodes_with, held, SameSlices, kind_byte};

use limits::{BRANCH, LEAF, NODE_CELLS};
use records::NodeNo;

// What a node is made as. A lent slice holds the kind's byte, as C reads it.
#[derive(Clone, Copy)]
pub enum NodeKind {
    Leaf = LEAF as isize,
    Branch = BRANCH as isize,
}

impl NodeKind {
    fn byte(self) -> u8
        ensures { result ≡ kind_byte self }
    {
        self as u8
    }
}

// The lent slices, one entry a node in each, and how many nodes are free. The cells, 32 a node, and the free order, whose first `free` are the numbers of free nodes, are lent beside it: making nodes only reads the order, giving them back only reads the cells.
#[derive(Drop)]
pub struct Store<'a> {
    pub kinds: &'a mut [u8],
    pub used: &'a mut [u8],
    pub counts: &'a mut [u32],
    pub free: usize,
}

// The free node that is taken next.
pub fn top(order: &[u32], free: usize) -> NodeNo
    requires { (0 < free) × (free ≤ length order.now) }
    ensures { result.0 ≡ get_or order.now (free - 1) 0 }
{
    NodeNo(order[free - 1])
}

// The cells of a node, copied out whole.
pub fn cells_of(cells: &[u32], n: NodeNo) -> [u32; NODE_CELLS]
    requires { node_cells * n.0 + node_cells ≤ length cells.now }
    ensures { result ≡ cells_of cells.now n.0 }
{
    cells::cells_of(cells, n.0 as usize)
}

impl Store<'_> {
    // Writes a node whole, with a count of 1. Its kind may be any byte, as in what is lent.
    #[tactic(auto, unfolding(crate::specs::Store::write_node))]
    pub fn write(
        &mut self,
        cells: &mut [u32],
        n: NodeNo,
        kind: u8,
        used: u8,
        contents: [u32; NODE_CELLS],
    )
        requires { HasPlace (nodes_with self.old cells.old) self.old.counts.now n.0 }
        ensures same_slices { SameSlices self.old self.new }
        ensures written { Written (nodes_with self.old cells.old) self.old.counts.now n.0 kind used contents
            (nodes_with self.new cells.new) self.new.counts.now }
        ensures free { self.new.free ≡ self.old.free }
    {
        let i = n.0 as usize;
        self.kinds[i] = kind;
        self.used[i] = used;
        self.counts[i] = 1;
        cells::put_cells(cells, i, contents);
    }

    // Takes the node on top of the free order and writes it. The counts of its children are the caller's to raise.
    pub fn make(
        &mut self,
        cells: &mut [u32],
        order: &[u32],
        kind: NodeKind,
        used: u8,
        contents: [u32; NODE_CELLS],
    ) -> NodeNo
        requires sized { Sized (held self.old cells.old order.now) }
        requires free_on_top { FreeOnTop (held self.old cells.old order.now) }
        ensures same_slices { SameSlices self.old self.new }
        ensures makes { Makes (held self.old cells.old order.now) (kind_byte kind) used contents (held self.new cells.new order.now) result.0 }
    {
        let node = top(order, self.free);
        self.write(cells, node, kind.byte(), used, contents);
        self.free -= 1;
        node
    }
}

// A node gets one link more.
#[tactic(auto, using(crate::proofs::Raising::room_at), unfolding(crate::specs::Store::raise))]
pub fn raise(counts: &mut [u32], n: NodeNo)
    requires n_in_bounds { n.0 < length counts.old }
    requires room { Room 1 counts.old }
    ensures { counts.new ≡ raise counts.old n.0 }
{
    counts[n.0 as usize] += 1;
}

// Each of these nodes gets one link more.
pub fn raise_all(counts: &mut [u32], nodes: &[u32])
    requires all_below { AllBelow (length counts.old) nodes.now }
    requires room { Room (length nodes.now) counts.old }
    ensures { counts.new ≡ raises counts.old nodes.now }
{
    for &n in nodes {
        raise(counts, NodeNo(n));
    }
}

// Each of these nodes but the one at `but`, which may be the next, gets one link more.
pub fn raise_others(counts: &mut [u32], nodes: &[u32], but: usize)
    requires but_le_len { but ≤ length nodes.now }
    requires all_below { AllBelow (length counts.old) nodes.now }
    requires room { Room (length nodes.now) counts.old }
    ensures { counts.new ≡ raises counts.old (others nodes.now (length nodes.now) but) }
{
    let next = nodes.len().min(but + 1);
    raise_all(counts, &nodes[..but]);
    raise_all(counts, &nodes[next..]);
}
