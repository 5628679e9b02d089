// The signed index of a walk's level: all that is done with a signed number.
#![tactic(auto)]

ghost use Rattle.std.specs.Prelude.{◌≡◌, Bool, true, false, ◌<◌, pos};
ghost use Rattle.meaning.specs.Limits.{node_cells};
ghost use Rattle.index.specs.Index as spec;

use limits::words;

// The index past the last cell.
const PAST_LAST: i32 = limits::NODE_CELLS as i32;

// Where a level of so many cells begins: from the back below zero where there are none.
pub fn first(back: bool, used: u8) -> i32
    ensures { result ≡ spec.first back used }
{
    if back { used as i32 - 1 } else { 0 }
}

// Forward it is held past the last cell, backward it stops below zero.
pub fn advance(back: bool, index: i32) -> i32
    ensures { result ≡ spec.advanced back index }
{
    if back {
        if index < 0 { -1 } else { index - 1 }
    } else if index < PAST_LAST {
        index + 1
    } else {
        PAST_LAST
    }
}

pub fn finished(back: bool, used: u8, index: i32) -> bool
    ensures { result ≡ spec.finished back used index }
{
    if back {
        index < 0
    } else {
        used as i32 <= index
    }
}

// The cell that an index names, 0 for one below zero.
pub fn place(index: i32) -> u32
    ensures { result ≡ spec.place index }
{
    index.max(0) as u32
}

// ---- so many steps at once

// How many steps from an index stay among the cells in use: none where it names no cell, and none from 0, as what is not there reads.
pub fn staying(back: bool, used: u8, index: i32) -> u32
    ensures { 0 < result → spec.Stays back used index result }
{
    let i = place(index);
    let used = used as u32;
    if i == 0 {
        0
    } else if back {
        if i < words::NODE_CELLS { i } else { 0 }
    } else if used <= words::NODE_CELLS {
        used.saturating_sub(i).saturating_sub(1)
    } else {
        0
    }
}

// The cell that m steps from cell i lead to.
pub fn along(back: bool, i: u32, m: u32) -> u32
    requires { spec.Within back i m }
    ensures { (result ≡ spec.along back i m) × (result < node_cells) }
{
    if back { i - m } else { i + m }
}

// The index that names a cell.
pub fn at(i: u32) -> i32
    requires { i < node_cells }
    ensures { result ≡ pos i }
{
    i as i32
}
