// Module 3: path copying. The nodes from a root to one leaf are made anew, bottom up, and everything beside them is shared.
#![tactic(auto)]

ghost use Rattle.std.specs.Prelude.{◌≡◌, true, None, is_some, List, ℕ, suc};
ghost use Rattle.store.specs.Store.{nodes_of};
ghost use Rattle.store.specs.Lent.{nodes_with, held, SameSlices};
ghost use Rattle.paths.specs.Paths.{source, leaf_with, branch_with, assoc, grow};
ghost use Rattle.paths.specs.Edits.{empty_leaf};
ghost use Rattle.paths.specs.Ready.{made_of, source_of, node_number, HasCells, CanMake, CanShare, Way, WayBeyond, Ready};

use limits::NODE_CELLS;
use records::NodeNo;
use shape::vector_utils;
use store::{NodeKind, Store};

// A node that is copied: its cells, and how many it uses.
#[derive(Clone, Copy)]
pub struct Source {
    pub cells: [u32; NODE_CELLS],
    pub used: u8,
}

// A node copied out whole, or a new one of which nothing is used yet. Its kind does not matter.
pub fn source_of(used: &[u8], cells: &[u32], node: Option<NodeNo>) -> Source
    requires { is_some node ≡ true → HasCells used.now cells.now (node_number node) }
    ensures { (kinds : List ℕ) → source_of result.cells result.used ≡ source (nodes_of kinds used.now cells.now) (is_some node) (node_number node) }
{
    match node {
        Some(n) => Source {
            cells: store::cells_of(cells, n),
            used: used[n.0 as usize],
        },
        None => Source {
            cells: [0; NODE_CELLS],
            used: 0,
        },
    }
}

// The same for those that hold the used numbers in a store.
pub fn source_in(store: &Store, cells: &[u32], node: Option<NodeNo>) -> Source
    requires { is_some node ≡ true → HasCells store.now.used.now cells.now (node_number node) }
    ensures { source_of result.cells result.used ≡ source (nodes_with store.now cells.now) (is_some node) (node_number node) }
{
    let used = &*store.used;
    source_of(used, cells, node)
}

pub fn new_empty_leaf(store: &mut Store, cells: &mut [u32], order: &[u32]) -> NodeNo
    requires { CanMake (held store.old cells.old order.now) 0 }
    ensures same_slices { SameSlices store.old store.new }
    ensures made { made_of (held store.new cells.new order.now) result.0 ≡ empty_leaf (held store.old cells.old order.now) }
{
    store.make(cells, order, NodeKind::Leaf, 0, [0; NODE_CELLS])
}

pub fn leaf_with(
    store: &mut Store,
    cells: &mut [u32],
    order: &[u32],
    c: Source,
    b: usize,
    value: u32,
) -> NodeNo
    requires { CanMake (held store.old cells.old order.now) b }
    ensures same_slices { SameSlices store.old store.new }
    ensures made { made_of (held store.new cells.new order.now) result.0
        ≡ leaf_with (held store.old cells.old order.now) (source_of c.cells c.used) b value }
{
    let mut contents = c.cells;
    contents[b] = value;
    store.make(
        cells,
        order,
        NodeKind::Leaf,
        c.used.max(b as u8 + 1),
        contents,
    )
}

// The other children are shared: each gets one link more.
pub fn branch_with(
    store: &mut Store,
    cells: &mut [u32],
    order: &[u32],
    c: Source,
    b: usize,
    child: NodeNo,
) -> NodeNo
    requires { CanShare (held store.old cells.old order.now) (source_of c.cells c.used) b }
    ensures same_slices { SameSlices store.old store.new }
    ensures made { made_of (held store.new cells.new order.now) result.0
        ≡ branch_with (source_of c.cells c.used) b (made_of (held store.old cells.old order.now) child.0) }
{
    let mut contents = c.cells;
    store::raise_others(store.counts, &c.cells[..c.used as usize], b);
    contents[b] = child.0;
    store.make(
        cells,
        order,
        NodeKind::Branch,
        c.used.max(b as u8 + 1),
        contents,
    )
}

// The way to an index below a node of that height, copied with a value there. A node that is not there is made.
pub fn assoc(
    store: &mut Store,
    cells: &mut [u32],
    order: &[u32],
    bits: u32,
    height: u32,
    node: Option<NodeNo>,
    index: u32,
    value: u32,
) -> NodeNo
    requires { Ready (held store.old cells.old order.now) bits height
        (Way (held store.old cells.old order.now) bits height (is_some node) (node_number node) index) }
    ensures same_slices { SameSlices store.old store.new }
    ensures made { made_of (held store.new cells.new order.now) result.0
        ≡ assoc (held store.old cells.old order.now) bits height (is_some node) (node_number node) index value }
{
    let c = source_in(store, cells, node);
    let b = vector_utils::bucket(bits, index, height) as usize;
    if height == 0 {
        return leaf_with(store, cells, order, c, b, value);
    }
    let child = (b < c.used as usize).then_some(NodeNo(c.cells[b]));
    let copy = assoc(store, cells, order, bits, height - 1, child, index, value);
    branch_with(store, cells, order, c, b, copy)
}

// A new root over a full one of that height, with the way to the first index beyond it.
pub fn grow(
    store: &mut Store,
    cells: &mut [u32],
    order: &[u32],
    bits: u32,
    height: u32,
    root: NodeNo,
    index: u32,
    value: u32,
) -> NodeNo
    requires { Ready (held store.old cells.old order.now) bits (suc height)
        (WayBeyond (held store.old cells.old order.now) bits height root.0 index) }
    ensures same_slices { SameSlices store.old store.new }
    ensures made { made_of (held store.new cells.new order.now) result.0
        ≡ grow (held store.old cells.old order.now) bits height root.0 index value }
{
    let copy = assoc(store, cells, order, bits, height, None, index, value);
    let mut over = [0; NODE_CELLS];
    over[0] = root.0;
    let source = Source {
        cells: over,
        used: 1,
    };
    branch_with(store, cells, order, source, 1, copy)
}
