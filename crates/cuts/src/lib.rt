// Module 3: a path copied without its last element. What would be empty is left out.
#![tactic(auto)]

ghost use Rattle.std.specs.Prelude.{◌≡◌, List, ℕ, ◌&&◌, ◌-◌, ◌*◌, ◌^◌, ◌≤◌, ◌<◌, leb, eqb, length, get_or};
ghost use Rattle.meaning.specs.Limits.{node_cells, word_width};
ghost use Rattle.meaning.specs.Counting.{divides};
ghost use Rattle.meaning.specs.Shape.{degree};
ghost use Rattle.cells.specs.Cells.{cells_of};
ghost use Rattle.store.specs.Ready.{Room};
ghost use Rattle.store.specs.Store.{store_of};
ghost use Rattle.store.specs.Lent.{held, SameSlices};
ghost use Rattle.paths.specs.Paths.{leaf_cut, branch_cut, drop_last};
ghost use Rattle.paths.specs.Edits.{first_child};
ghost use Rattle.paths.specs.Ready.{made_of, source_of, CanMake, CanShare, WayToLast, Ready};

use paths::Source;
use records::NodeNo;
use shape::vector_utils;
use store::{NodeKind, Store};

// Whether an index is the first below some child of a node of that height.
fn is_first(bits: u32, height: u32, index: u32) -> bool
    requires { height * bits < word_width }
    ensures { result ≡ divides (degree bits ^ height) index }
{
    index % (1 << (height * bits)) == 0
}

// A leaf of the first b values of another.
fn leaf_cut(store: &mut Store, cells: &mut [u32], order: &[u32], c: Source, b: usize) -> NodeNo
    requires { CanMake (held store.old cells.old order.now) b }
    ensures same_slices { SameSlices store.old store.new }
    ensures made { made_of (held store.new cells.new order.now) result.0
        ≡ leaf_cut (held store.old cells.old order.now) (source_of c.cells c.used) b }
{
    let mut contents = c.cells;
    contents[b] = 0;
    store.make(cells, order, NodeKind::Leaf, b as u8, contents)
}

// A branch over the first b children of another, which are shared.
fn branch_cut(store: &mut Store, cells: &mut [u32], order: &[u32], c: Source, b: usize) -> NodeNo
    requires { CanShare (held store.old cells.old order.now) (source_of c.cells c.used) b }
    ensures same_slices { SameSlices store.old store.new }
    ensures made { made_of (held store.new cells.new order.now) result.0
        ≡ branch_cut (held store.old cells.old order.now) (source_of c.cells c.used) b }
{
    store::raise_all(store.counts, &c.cells[..b]);
    let mut contents = c.cells;
    contents[b] = 0;
    store.make(cells, order, NodeKind::Branch, b as u8, contents)
}

// The way to the last index below a node of that height, copied without it.
pub fn drop_last(
    store: &mut Store,
    cells: &mut [u32],
    order: &[u32],
    bits: u32,
    height: u32,
    node: NodeNo,
    last: u32,
) -> NodeNo
    requires { Ready (held store.old cells.old order.now) bits height
        (WayToLast (held store.old cells.old order.now) bits height node.0 last) }
    ensures same_slices { SameSlices store.old store.new }
    ensures made { made_of (held store.new cells.new order.now) result.0
        ≡ drop_last (held store.old cells.old order.now) bits height node.0 last }
{
    let c = paths::source_in(store, cells, Some(node));
    let b = vector_utils::bucket(bits, last, height) as usize;
    if height == 0 {
        return leaf_cut(store, cells, order, c, b);
    }
    if is_first(bits, height, last) {
        return branch_cut(store, cells, order, c, b);
    }
    let child = NodeNo(c.cells[b]);
    let copy = drop_last(store, cells, order, bits, height - 1, child, last);
    paths::branch_with(store, cells, order, c, b, copy)
}

// Whether a drop leaves a root of that height with one child.
pub fn loses_root(bits: u32, height: u32, length: u32) -> bool
    requires { (1 ≤ length) × (height * bits < word_width) }
    ensures { result ≡ (leb 1 height && eqb (length - 1) (degree bits ^ height)) }
{
    (height >= 1) & (length - 1 == 1 << (height * bits))
}

#[tactic(auto, using(crate::proofs::Cutting::first_cell))]
fn first_child(cells: &[u32], root: NodeNo) -> NodeNo
    ensures { result.0 ≡ get_or (cells_of cells.now root.0) 0 0 }
{
    NodeNo(lookup::cell_at(cells, root, 0))
}

// The root's first child takes its place, shared.
pub fn compress_root(counts: &mut [u32], cells: &[u32], root: NodeNo) -> NodeNo
    requires { (get_or (cells_of cells.now root.0) 0 0 < length counts.old) × Room 1 counts.old }
    ensures { (kinds used order : List ℕ) (free : ℕ) → made_of (store_of kinds used counts.new cells.now order free) result.0
        ≡ first_child (store_of kinds used counts.old cells.now order free) root.0 }
{
    let child = first_child(cells, root);
    store::raise(counts, child);
    child
}
