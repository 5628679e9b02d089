// One level of a walk, changed in place: a node and a signed index.
#![tactic(auto)]

ghost use Rattle.std.specs.Prelude.{◌≡◌, Bool, true, false, ◌+◌, ◌<◌, get_or};
ghost use Rattle.meaning.specs.Limits.{places};
ghost use Rattle.level.specs.Level.{levels, current_at, pushed, popped, dug, stepped_at, ended_at, place_at, StaysAt, passed_at};
ghost use Rattle.index.specs.Index.{Within};

use limits::PLACES;
use records::NodeNo;

// How many cells a node uses, or 0 where there is none: no caller has to show that a node is there.
fn used_of(used: &[u8], node: NodeNo) -> u8
    ensures { result ≡ get_or used.now node.0 0 }
{
    let n = node.0 as usize;
    if n < used.len() { used[n] } else { 0 }
}

// The levels of sixteen walks. A level is named by its place.
#[derive(Drop)]
pub struct Levels {
    pub nodes: [u32; PLACES],
    pub indices: [i32; PLACES],
}

impl Levels {
    // The cell that level k is at.
    pub fn current(&self, cells: &[u32], k: usize) -> u32
        requires { k < places }
        ensures { result ≡ current_at cells.now self.now k }
    {
        let i = self.indices[k];
        lookup::cell_at(cells, NodeNo(self.nodes[k]), index::place(i))
    }

    // Begins level k at a node.
    pub fn push(&mut self, used: &[u8], back: bool, k: usize, node: u32)
        requires { k < places }
        ensures { self.new ≡ pushed used.now back self.old k node }
    {
        self.nodes[k] = node;
        self.indices[k] = index::first(back, used_of(used, NodeNo(node)));
    }

    #[tactic(auto, unfolding(crate::specs::Level::popped))]
    pub fn pop(&mut self, k: usize)
        requires { k < places }
        ensures { self.new ≡ popped self.old k }
    {
        self.nodes[k] = 0;
        self.indices[k] = 0;
    }

    // Begins level k at the node that the level above it is at.
    #[tactic(auto, unfolding(crate::specs::Level::dug))]
    pub fn dig(&mut self, cells: &[u32], used: &[u8], back: bool, k: usize)
        requires { k + 1 < places }
        ensures { self.new ≡ dug cells.now used.now back self.old k }
    {
        let node = self.current(cells, k + 1);
        self.push(used, back, k, node);
    }
}

// Moves level k by one, and answers whether it has finished.
pub fn step(
    used: &[u8],
    nodes: &[u32; PLACES],
    indices: &mut [i32; PLACES],
    back: bool,
    k: usize,
) -> bool
    requires { k < places }
    ensures { (result ≡ ended_at used.now back (levels nodes.now indices.old) k)
        × (levels nodes.now indices.new ≡ stepped_at back (levels nodes.now indices.old) k) }
{
    let i = indices[k];
    let next = index::advance(back, i);
    indices[k] = next;
    index::finished(back, used_of(used, NodeNo(nodes[k])), next)
}

// ---- so many steps at once

// The cell of its node that level k is at.
pub fn place(indices: &[i32; PLACES], k: usize) -> u32
    requires { k < places }
    ensures { result ≡ place_at indices.now k }
{
    let i = indices[k];
    index::place(i)
}

// How many steps of level k stay in its node.
pub fn staying(
    used: &[u8],
    nodes: &[u32; PLACES],
    indices: &[i32; PLACES],
    back: bool,
    k: usize,
) -> u32
    requires { k < places }
    ensures { 0 < result → StaysAt used.now back (levels nodes.now indices.now) k result }
{
    let i = indices[k];
    index::staying(back, used_of(used, NodeNo(nodes[k])), i)
}

// Moves level k by m steps that stay in its node.
pub fn pass(indices: &mut [i32; PLACES], back: bool, k: usize, m: u32)
    requires place { k < places }
    requires stays { Within back (place_at indices.old k) m }
    ensures { indices.new ≡ passed_at back indices.old k m }
{
    indices[k] = index::at(index::along(back, place(indices, k), m));
}
