// A stack of levels, changed in place: the leaf's level first, from its place upwards.
#![tactic(auto)]

ghost use Rattle.std.specs.Prelude.{◌≡◌, Bool, true, false, List, ℕ, suc, ◌+◌, ◌<◌, ◌≤◌, ltb};
ghost use Rattle.meaning.specs.Limits.{places};
ghost use Rattle.meaning.specs.Shape.{height};
ghost use Rattle.levels.specs.Levels.{out, advanced_by, renewed_down, dug_down, popped_down, initialised, took, one_taken, HasStack};

use level::Levels;
use records::Version;

// Steps the m levels from k, up to the first that has not finished, and answers how many have. What is left to do goes from there down.
fn step_up(levels: &mut Levels, used: &[u8], back: bool, k: usize, m: usize) -> usize
    requires { k + m ≤ places }
    ensures { (result ≤ m) × ((cells : List ℕ) → renewed_down cells used.now back result (out levels.new (ltb result m)) k
        ≡ advanced_by cells used.now back m levels.old k) }
{
    for n in 0..m {
        if !level::step(used, &levels.nodes, &mut levels.indices, back, k + n) {
            return n;
        }
    }
    m
}

// Digs the h levels below place k + h.
fn dig_down(levels: &mut Levels, cells: &[u32], used: &[u8], back: bool, k: usize, h: usize)
    requires { k + h < places }
    ensures { levels.new ≡ dug_down cells.now used.now back h levels.old k }
{
    for j in (0..h).rev() {
        levels.dig(cells, used, back, k + j);
    }
}

fn pop_down(levels: &mut Levels, k: usize, h: usize)
    requires { k + h ≤ places }
    ensures { levels.new ≡ popped_down h levels.old k }
{
    for j in (0..h).rev() {
        levels.pop(k + j);
    }
}

// One step of the m levels from k. A level that has finished gives way to the step of those above it, and begins anew below them; where all have finished, all are popped. Answers whether any is left.
fn advance(levels: &mut Levels, cells: &[u32], used: &[u8], back: bool, k: usize, m: usize) -> bool
    requires { k + m ≤ places }
    ensures { out levels.new result ≡ advanced_by cells.now used.now back m levels.old k }
{
    let n = step_up(levels, used, back, k, m);
    if n < m {
        dig_down(levels, cells, used, back, k, n);
        return true;
    }
    pop_down(levels, k, n);
    false
}

// Creates the stack from k at its first use.
fn init_if_needed(
    levels: &mut Levels,
    cells: &[u32],
    used: &[u8],
    back: bool,
    k: usize,
    taken: u32,
    v: Version,
)
    requires { HasStack v.bits v.length k }
    ensures { levels.new ≡ initialised cells.now used.now back taken v.root (height v.bits v.length) levels.old k }
{
    if taken == 0 {
        let h = shape::height(v.bits, v.length) as usize;
        levels.push(used, back, k + h, v.root);
        dig_down(levels, cells, used, back, k, h);
    }
}

// One step of a whole stack, its first level written out: a step that stays in its leaf touches that level alone, and needs no height.
fn advance_near(levels: &mut Levels, cells: &[u32], used: &[u8], back: bool, k: usize, v: Version)
    requires { HasStack v.bits v.length k }
    ensures { levels.new ≡ (advanced_by cells.now used.now back (suc (height v.bits v.length)) levels.old k).levels }
{
    if level::step(used, &levels.nodes, &mut levels.indices, back, k) {
        let h = shape::height(v.bits, v.length) as usize;
        if advance(levels, cells, used, back, k + 1, h) {
            levels.dig(cells, used, back, k);
            return;
        }
        levels.pop(k);
    }
}

// The element that comes next on the stack from k, of which so many were taken before.
pub fn take(
    levels: &mut Levels,
    cells: &[u32],
    used: &[u8],
    back: bool,
    k: usize,
    taken: u32,
    v: Version,
) -> u32
    requires { HasStack v.bits v.length k }
    ensures { took levels.new result ≡ one_taken cells.now used.now back taken v.root (height v.bits v.length) levels.old k }
{
    init_if_needed(levels, cells, used, back, k, taken, v);
    let x = levels.current(cells, k);
    advance_near(levels, cells, used, back, k, v);
    x
}
