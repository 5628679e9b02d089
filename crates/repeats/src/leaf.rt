// Steps of a walk that stay in one leaf: answered by its cells in a row, with the walk moved once.
ghost use Rattle.std.specs.Prelude.{◌≡◌, Bool, ◌+◌, ◌-◌, ◌*◌, ◌≤◌};
ghost use Rattle.index.specs.Index.{Within};
ghost use Rattle.walk.specs.Walk.{slices, Walkable};
ghost use Rattle.requests.specs.Requests.{frame_of};
ghost use Rattle.repeats.specs.InARow.{Roomy, is_step, walked, Steps, StepsInLeaf};

use limits::{ALL_NUMBERS, PLACES};
use records::NodeNo;
use requests::{Answer, Frame};
use walk::Stretch;

// From these bits on a leaf holds enough that to look for a stretch pays.
const WORTH: u32 = 3;

pub fn is_step(f: Frame, party: u8, operation: u8, walk: u8) -> bool
    ensures { result ≡ is_step party operation walk (frame_of f) }
{
    (f.party == party) & (f.operation == operation) & (f.slot == walk)
}

// The end of at most so many frames from frame k on.
fn end_of(k: usize, count: usize, most: u32) -> usize
    requires { k ≤ count }
    ensures { (k ≤ result) × (result ≤ count) × (result - k ≤ most) }
{
    k + (count - k).min(most as usize)
}

// The answers alone: no walk moves.
fn answer_cells(
    cells: &[u32],
    party: u8,
    operation: u8,
    walk: u8,
    back: bool,
    s: Stretch,
    requests: &[u8],
    room: &mut [u8],
    k: usize,
    count: usize,
) -> usize
    requires stay { Within back s.place s.most }
    requires room { Roomy requests.now room.old k count }
    ensures { StepsInLeaf cells.now party operation walk back s requests.now room.old room.new k count result }
{
    let end = end_of(k, count, s.most);
    for j in k..end {
        let f = requests::frame_at(requests, j);
        if !is_step(f, party, operation, walk) {
            return j;
        }
        let i = index::along(back, s.place, (j - k) as u32);
        let x = lookup::cell_at(cells, NodeNo(s.node), i);
        requests::put_answer(room, j, Answer::done(0, x));
    }
    end
}

// Answers steps of walk n from frame k on, no further than its leaf goes, and says at which frame that ends.
pub fn steps_in_leaf(
    cells: &[u32],
    used: &[u8],
    numbers: &mut [u32; ALL_NUMBERS],
    nodes: &[u32; PLACES],
    indices: &mut [i32; PLACES],
    party: u8,
    operation: u8,
    walk: u8,
    n: usize,
    back: bool,
    requests: &[u8],
    room: &mut [u8],
    k: usize,
    count: usize,
) -> usize
    requires walk { Walkable numbers.old n }
    requires room { Roomy requests.now room.old k count }
    ensures { Steps cells.now used.now party operation walk back n
        (walked (slices numbers.old nodes.now indices.old) room.old)
        (walked (slices numbers.new nodes.now indices.new) room.new)
        requests.now k count result }
{
    if walk::version(numbers, n).bits < WORTH {
        return k;
    }
    let Some(s) = walk::stretch_in_leaf(used, numbers, nodes, indices, n, back) else {
        return k;
    };
    let end = answer_cells(
        cells, party, operation, walk, back, s, requests, room, k, count,
    );
    walk::pass_on(numbers, indices, n, back, (end - k) as u32);
    end
}
