// Modules 3 and 4, what only reads: the element at an index, first, last, length.
#![tactic(auto)]

ghost use Rattle.std.specs.Prelude.{◌≡◌, ◌+◌, ◌-◌, ◌*◌, ◌^◌, ◌<◌, get_or};
ghost use Rattle.meaning.specs.Limits.{node_cells, word_width};
ghost use Rattle.shape.specs.Legal.{Legal};
ghost use Rattle.lookup.specs.Lookup.{leaf_in, element_in, got};

use records::{NodeNo, Version};
use shape::form::Form;
use shape::vector_utils;

// A cell of a node, or 0 where there is none: no caller has to show that a node is there.
pub fn cell_at(cells: &[u32], node: NodeNo, i: u32) -> u32
    ensures { result ≡ get_or cells.now (node_cells * node.0 + i) 0 }
{
    wide_cell_at(cells, node.0 as usize, i) as u32
}

// The same in the width of places, in which the way down goes from node to node: to widen each would cost a turn three instructions.
fn wide_cell_at(cells: &[u32], node: usize, i: u32) -> usize
    requires { node < 2 ^ word_width }
    ensures value { result ≡ get_or cells.now (node_cells * node + i) 0 }
    ensures word { result < 2 ^ word_width }
{
    let at = limits::NODE_CELLS * node + (i as usize);
    if at < cells.len() {
        return cells[at] as usize;
    }
    0
}

// The leaf of an index below a node of that form. The shift falls by the bits: a `for` over the heights would multiply at each.
pub fn leaf(cells: &[u32], form: Form, node: NodeNo, index: u32) -> NodeNo
    ensures { result.0 ≡ leaf_in cells.now form.bits form.height node.0 index }
{
    let mask = vector_utils::mask(form.bits);
    let mut n = node.0 as usize;
    let mut shift = form.height * form.bits;
    while shift > 0 {
        n = wide_cell_at(cells, n, (index >> shift) & mask);
        shift -= form.bits;
    }
    NodeNo(n as u32)
}

// The element at an index below a node of that form.
pub fn element(cells: &[u32], form: Form, node: NodeNo, index: u32) -> u32
    ensures { result ≡ element_in cells.now form.bits form.height node.0 index }
{
    let n = leaf(cells, form, node, index);
    let b = vector_utils::bucket(form.bits, index, 0);
    cell_at(cells, n, b)
}

pub fn len(v: Version) -> u32
    ensures { result ≡ v.length }
{
    v.length
}

#[tactic(auto, unfolding(crate::specs::Lookup::got))]
pub fn get(cells: &[u32], v: Version, index: u32) -> Option<u32>
    requires { Legal v.bits v.length }
    ensures { result ≡ got cells.now v index }
{
    if index < v.length {
        let form = Form::of(v.bits, v.length);
        return Some(element(cells, form, NodeNo(v.root), index));
    }
    None
}

pub fn first(cells: &[u32], v: Version) -> Option<u32>
    requires { Legal v.bits v.length }
    ensures { result ≡ got cells.now v 0 }
{
    get(cells, v, 0)
}

#[tactic(auto, unfolding(crate::specs::Lookup::got))]
pub fn last(cells: &[u32], v: Version) -> Option<u32>
    requires { Legal v.bits v.length }
    ensures { result ≡ got cells.now v (v.length - 1) }
{
    let end = v.length.checked_sub(1)?;
    get(cells, v, end)
}
