// How much a host lends, and why a batch is refused that lends too much or too little.
#![tactic(auto)]

ghost use Rattle.std.specs.Prelude.{◌≡◌};
ghost use Rattle.limits.specs.Refusals.{number_of};
ghost use Rattle.lending.specs.Lending.{RightSizes, refusal_of};

use limits::numbers::Refusal;
use limits::{ALL_NUMBERS, FRAME_SIZE, MAX_NODES, NODE_CELLS, PLACES, VERSIONS};

// How many elements each slice has.
#[repr(C)]
#[derive(Clone, Copy, Default)]
pub struct Sizes {
    pub nodes: usize,
    pub used: usize,
    pub cells: usize,
    pub counts: usize,
    pub order: usize,
    pub versions: usize,
    pub walk_numbers: usize,
    pub walk_nodes: usize,
    pub walk_indices: usize,
}

// Of a state of so many nodes; all 0 where there is none.
pub fn sizes_of(nodes: usize) -> Sizes
    ensures { RightSizes nodes result }
{
    if !(1..=MAX_NODES).contains(&nodes) {
        return Sizes::default();
    }
    Sizes {
        nodes: nodes,
        used: nodes,
        cells: NODE_CELLS * nodes,
        counts: nodes,
        order: nodes,
        versions: VERSIONS,
        walk_numbers: ALL_NUMBERS,
        walk_nodes: PLACES,
        walk_indices: PLACES,
    }
}

// Why a batch is refused whose table has another length.
pub fn refusal_of_sizes(asked: usize, room: usize) -> Refusal
    ensures { number_of result ≡ refusal_of asked room }
{
    if asked % FRAME_SIZE != 0 {
        return Refusal::Ragged;
    }
    if room < requests::answer_place(asked / FRAME_SIZE) {
        return Refusal::NoRoom;
    }
    Refusal::IllFormed
}
