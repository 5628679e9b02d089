// Module 5: sixteen walk records, changed in place. A walk takes the elements of a version from both ends.
#![tactic(auto)]

ghost use Rattle.std.specs.Prelude.{◌≡◌, List, ℕ, ◌+◌, ◌*◌, ◌<◌, ◌≤◌, IfSome};
ghost use Rattle.meaning.specs.Counting.{bit};
ghost use Rattle.meaning.specs.Limits.{walk_count, walk_levels, places};
ghost use Rattle.records.specs.Records.{record_of};
ghost use Rattle.walk.specs.Walk.{slices, walks_of, all_closed, stored, open_record, is_ended, version_of_walk, cleared_from, closed, Walkable, number_at, stepped, taken_by, passed_on, Passable, Staying};

use level::Levels;
use limits::{ALL_NUMBERS, PLACES, WALK_LEVELS, WALK_NUMBERS};
use records::Version;

// Six numbers a walk, and the levels of its two stacks: flat, as a host lends them.
#[derive(Drop)]
pub struct Walks {
    pub numbers: [u32; ALL_NUMBERS],
    pub levels: Levels,
}

// ---- opening and closing

// The numbers of walk n: a version of which nothing is taken.
fn store(numbers: &mut [u32; ALL_NUMBERS], n: usize, v: Version)
    requires { n < walk_count }
    ensures { numbers.new ≡ stored numbers.old n (record_of v) }
{
    let at = WALK_NUMBERS * n;
    numbers[at] = v.live;
    numbers[at + 1] = v.root;
    numbers[at + 2] = v.bits;
    numbers[at + 3] = v.length;
    numbers[at + 4] = 0;
    numbers[at + 5] = 0;
}

// Of a closed walk: its levels are 0 already.
pub fn open(numbers: &mut [u32; ALL_NUMBERS], n: usize, v: Version)
    requires { n < walk_count }
    ensures { numbers.new ≡ stored numbers.old n (open_record (record_of v)) }
{
    store(numbers, n, Version { live: 1, ..v });
}

// Both stacks of a walk.
fn clear(levels: &mut Levels, k: usize)
    requires { k + 2 * walk_levels ≤ places }
    ensures { levels.new ≡ cleared_from (2 * walk_levels) levels.old k }
{
    for j in k..k + 2 * WALK_LEVELS {
        levels.pop(j);
    }
}

impl Walks {
    pub fn all_closed() -> Walks
        ensures { walks_of result ≡ all_closed }
    {
        Walks {
            numbers: [0; ALL_NUMBERS],
            levels: Levels {
                nodes: [0; PLACES],
                indices: [0; PLACES],
            },
        }
    }

    pub fn close(&mut self, n: usize)
        requires { n < walk_count }
        ensures { walks_of self.new ≡ closed (walks_of self.old) n }
    {
        store(&mut self.numbers, n, Version::empty());
        clear(&mut self.levels, 2 * WALK_LEVELS * n);
    }
}

// ---- taking

pub fn version(numbers: &[u32; ALL_NUMBERS], n: usize) -> Version
    requires { n < walk_count }
    ensures { record_of result ≡ version_of_walk numbers.now n }
{
    let at = WALK_NUMBERS * n;
    Version {
        live: numbers[at],
        root: numbers[at + 1],
        bits: numbers[at + 2],
        length: numbers[at + 3],
    }
}

// All elements are taken, from one end and the other.
#[tactic(auto, unfolding(crate::specs::Walk::is_ended))]
fn ended(numbers: &[u32; ALL_NUMBERS], n: usize) -> bool
    requires { Walkable numbers.now n }
    ensures { result ≡ is_ended numbers.now n }
{
    let at = WALK_NUMBERS * n;
    numbers[at + 4] + numbers[at + 5] == numbers[at + 3]
}

// Which of a walk's stacks, and of its taken numbers.
fn side(back: bool) -> usize
    ensures { (result ≡ bit back) × (result ≤ 1) }
{
    back as usize
}

impl Walks {
    // The element that comes next from an end; of an ended walk nothing, and no stack is stored.
    pub fn take(&mut self, cells: &[u32], used: &[u8], n: usize, back: bool) -> Option<u32>
        requires { Walkable self.old.numbers n }
        ensures { stepped (walks_of self.new) result ≡ taken_by cells.now used.now back (walks_of self.old) n }
    {
        if ended(&self.numbers, n) {
            return None;
        }
        let v = version(&self.numbers, n);
        let s = side(back);
        let at = WALK_NUMBERS * n + 4 + s;
        let k = WALK_LEVELS * (2 * n + s);
        let taken = self.numbers[at];
        let x = levels::take(&mut self.levels, cells, used, back, k, taken, v);
        self.numbers[at] = taken + 1;
        Some(x)
    }
}

// ---- so many at once

// The cell of a leaf that comes next, and how many elements from there are cells of that leaf.
#[derive(Clone, Copy)]
pub struct Stretch {
    pub node: u32,
    pub place: u32,
    pub most: u32,
}

// How many elements are not taken yet; none where the stack of that end does not stand yet.
fn left(numbers: &[u32; ALL_NUMBERS], n: usize, s: usize) -> u32
    requires walk { Walkable numbers.now n }
    requires side { s ≤ 1 }
    ensures { (number_at numbers.now n 4 + number_at numbers.now n 5 + result ≤ number_at numbers.now n 3)
        × (0 < result → 0 < number_at numbers.now n (4 + s)) }
{
    let at = WALK_NUMBERS * n;
    if numbers[at + (4 + s)] == 0 {
        return 0;
    }
    numbers[at + 3] - (numbers[at + 4] + numbers[at + 5])
}

// How far the next elements from an end are cells of one leaf, if any is.
pub fn stretch_in_leaf(
    used: &[u8],
    numbers: &[u32; ALL_NUMBERS],
    nodes: &[u32; PLACES],
    indices: &[i32; PLACES],
    n: usize,
    back: bool,
) -> Option<Stretch>
    requires { Walkable numbers.now n }
    ensures { IfSome result (λ s. (0 < s.most) × Staying used.now back (slices numbers.now nodes.now indices.now) n s.node s.place s.most) }
{
    let s = side(back);
    let k = WALK_LEVELS * (2 * n + s);
    let most = level::staying(used, nodes, indices, back, k).min(left(numbers, n, s));
    if most == 0 {
        return None;
    }
    Some(Stretch {
        node: nodes[k],
        place: level::place(indices, k),
        most,
    })
}

// Takes m elements that are cells of one leaf.
pub fn pass_on(
    numbers: &mut [u32; ALL_NUMBERS],
    indices: &mut [i32; PLACES],
    n: usize,
    back: bool,
    m: u32,
)
    requires { Passable back numbers.old indices.old n m }
    ensures { (nodes : List ℕ) → slices numbers.new nodes indices.new ≡ passed_on back (slices numbers.old nodes indices.old) n m }
{
    let s = side(back);
    let at = WALK_NUMBERS * n + 4 + s;
    let taken = numbers[at] + m;
    numbers[at] = taken;
    level::pass(indices, back, WALK_LEVELS * (2 * n + s), m);
}
