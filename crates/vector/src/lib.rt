// Module 4: the calls on a version. Each refuses before it writes anything.
#![tactic(auto)]

ghost use Rattle.std.specs.Prelude.{◌≡◌, List, ℕ, ◌+◌, ◌-◌};
ghost use Rattle.meaning.specs.Lent.{Nodes};
ghost use Rattle.records.specs.Records.{record_of};
ghost use Rattle.store.specs.Lent.{held, SameSlices};
ghost use Rattle.sweep.specs.Sweep.{release};
ghost use Rattle.sweep.specs.Ready.{store_on, Releasable};
ghost use Rattle.paths.specs.Edits.{edit, share_edit, push_edit, drop_edit};
ghost use Rattle.paths.specs.Ready.{made_of};
ghost use Rattle.vector.specs.Calls.{edit_with, called_of, new_call, set_call, push_call, drop_call};
ghost use Rattle.vector.specs.Ready.{edit_of, Linkable, Steady, Editable, SetWay, PushWay, DropWay, CanPush, CanDrop, Fell};

use limits::{MAX_BITS, MAX_LENGTH};
use records::{NodeNo, Version};
use store::Store;

// A version, and how many nodes were copied for it.
#[derive(Clone, Copy)]
pub struct Edit {
    pub version: Version,
    pub copied: u32,
}

// Why a call makes no version.
#[derive(Clone, Copy, PartialEq, Eq, Debug)]
pub enum Refused {
    BadBits,
    NothingThere,
    Full,
    NoNodes,
}

fn edited(root: NodeNo, bits: u32, length: u32, free: usize, left: usize) -> Edit
    requires { Fell free left }
    ensures { result ≡ edit_with root.0 bits length free left }
{
    Edit {
        version: Version::new_with_bits(bits, root).with_length(length),
        copied: (free - left) as u32,
    }
}

pub fn new_with_bits(
    store: &mut Store,
    cells: &mut [u32],
    order: &[u32],
    bits: u32,
) -> Result<Edit, Refused>
    requires { Steady (held store.old cells.old order.now) }
    ensures same_slices { SameSlices store.old store.new }
    ensures called { called_of (held store.new cells.new order.now) result ≡ new_call (held store.old cells.old order.now) bits }
{
    // Two tests: that a range holds the bits was tried, and its proof stays open.
    let legal = (bits >= 1) & (bits <= MAX_BITS);
    if !legal {
        return Err(Refused::BadBits);
    }
    let free = store.free;
    if free < 1 {
        return Err(Refused::NoNodes);
    }
    let root = paths::new_empty_leaf(store, cells, order);
    Ok(edited(root, bits, 0, free, store.free))
}

// One link more to the root.
pub fn clone(counts: &mut [u32], v: Version) -> Version
    requires { Linkable counts.old v.root }
    ensures { (s : Nodes) (order : List ℕ) (free : ℕ) → edit_of (store_on s counts.new order free) (record_of result)
        ≡ share_edit (store_on s counts.old order free) (record_of v) }
{
    store::raise(counts, NodeNo(v.root));
    v
}

pub fn set(
    store: &mut Store,
    cells: &mut [u32],
    order: &[u32],
    v: Version,
    index: u32,
    value: u32,
) -> Result<Edit, Refused>
    requires { Editable (held store.old cells.old order.now) (record_of v) (SetWay (held store.old cells.old order.now) (record_of v) index) }
    ensures same_slices { SameSlices store.old store.new }
    ensures called { called_of (held store.new cells.new order.now) result ≡ set_call (held store.old cells.old order.now) (record_of v) index value }
{
    if v.length <= index {
        return Err(Refused::NothingThere);
    }
    let h = shape::height(v.bits, v.length);
    let free = store.free;
    if free < h as usize + 1 {
        return Err(Refused::NoNodes);
    }
    let root = paths::assoc(
        store,
        cells,
        order,
        v.bits,
        h,
        Some(NodeNo(v.root)),
        index,
        value,
    );
    Ok(edited(root, v.bits, v.length, free, store.free))
}

// The way to the next index, below a new root where the root is full.
fn pushed(
    store: &mut Store,
    cells: &mut [u32],
    order: &[u32],
    v: Version,
    h: u32,
    full: bool,
    value: u32,
) -> NodeNo
    requires { CanPush (held store.old cells.old order.now) (record_of v) h full }
    ensures same_slices { SameSlices store.old store.new }
    ensures pushed { edit (made_of (held store.new cells.new order.now) result.0) v.bits (v.length + 1) ≡ push_edit (held store.old cells.old order.now) (record_of v) value }
{
    let root = NodeNo(v.root);
    let index = v.length;
    if full {
        return paths::grow(store, cells, order, v.bits, h, root, index, value);
    }
    paths::assoc(store, cells, order, v.bits, h, Some(root), index, value)
}

pub fn push_back(
    store: &mut Store,
    cells: &mut [u32],
    order: &[u32],
    v: Version,
    value: u32,
) -> Result<Edit, Refused>
    requires { Editable (held store.old cells.old order.now) (record_of v) (PushWay (held store.old cells.old order.now) (record_of v)) }
    ensures same_slices { SameSlices store.old store.new }
    ensures called { called_of (held store.new cells.new order.now) result ≡ push_call (held store.old cells.old order.now) (record_of v) value }
{
    if v.length >= MAX_LENGTH {
        return Err(Refused::Full);
    }
    let length = v.length + 1;
    let h = shape::height(v.bits, v.length);
    let full = shape::is_root_full(v.bits, v.length);
    let new_height = h + full as u32;
    let free = store.free;
    if free < new_height as usize + 1 {
        return Err(Refused::NoNodes);
    }
    let root = pushed(store, cells, order, v, h, full, value);
    Ok(edited(root, v.bits, length, free, store.free))
}

// The way to the last index without it; an empty leaf for the only one; where the root would keep one child, that child.
fn dropped(store: &mut Store, cells: &mut [u32], order: &[u32], v: Version, h: u32) -> NodeNo
    requires { CanDrop (held store.old cells.old order.now) (record_of v) h }
    ensures same_slices { SameSlices store.old store.new }
    ensures dropped { edit (made_of (held store.new cells.new order.now) result.0) v.bits (v.length - 1) ≡ drop_edit (held store.old cells.old order.now) (record_of v) }
{
    let root = NodeNo(v.root);
    if v.length == 1 {
        return paths::new_empty_leaf(store, cells, order);
    }
    if cuts::loses_root(v.bits, h, v.length) {
        return cuts::compress_root(store.counts, cells, root);
    }
    cuts::drop_last(store, cells, order, v.bits, h, root, v.length - 1)
}

pub fn drop_last(
    store: &mut Store,
    cells: &mut [u32],
    order: &[u32],
    v: Version,
) -> Result<Edit, Refused>
    requires { Editable (held store.old cells.old order.now) (record_of v) (DropWay (held store.old cells.old order.now) (record_of v)) }
    ensures same_slices { SameSlices store.old store.new }
    ensures called { called_of (held store.new cells.new order.now) result ≡ drop_call (held store.old cells.old order.now) (record_of v) }
{
    if v.length == 0 {
        return Err(Refused::NothingThere);
    }
    let h = shape::height(v.bits, v.length);
    let free = store.free;
    if free < h as usize + 1 {
        return Err(Refused::NoNodes);
    }
    let root = dropped(store, cells, order, v, h);
    Ok(edited(root, v.bits, v.length - 1, free, store.free))
}

// The link to the root is given up.
pub fn release(store: &mut Store, cells: &[u32], order: &mut [u32], v: Version)
    requires { Releasable (held store.old cells.now order.old) v.root }
    ensures same_slices { SameSlices store.old store.new }
    ensures released { held store.new cells.now order.new ≡ release (held store.old cells.now order.old) v.root }
{
    sweep::release(store, cells, order, NodeNo(v.root));
}
