// Frames of one kind in a row, answered by loops that look nothing up again: gets from one slot, and steps of one walk.
#![tactic(auto)]

mod leaf;

ghost use Rattle.std.specs.Prelude.{◌≡◌, Bool, ◌+◌, ◌*◌, ◌/◌, ◌^◌, ◌<◌, eqb};
ghost use Rattle.meaning.specs.Limits.{word_width, next_back_code};
ghost use Rattle.shape.specs.Legal.{Legal};
ghost use Rattle.lookup.specs.Lookup.{leaf_in};
ghost use Rattle.walk.specs.Walk.{walks_of, Walkable};
ghost use Rattle.requests.specs.Requests.{frame_of, answer_of};
ghost use Rattle.calls.specs.Walks as calls;
ghost use Rattle.repeats.specs.InARow.{Roomy, is_get, Gets, walked, Steps, Stops, is_step};

use limits::numbers::Refusal;
use limits::operations;
use records::{NodeNo, Version};
use requests::{Answer, Frame};
use shape::form::Form;
use shape::vector_utils;
use walk::Walks;

// ---- gets

fn is_get(f: Frame, party: u8, slot: u8, length: u32) -> bool
    ensures { result ≡ is_get party slot length (frame_of f) }
{
    (f.party == party) & (f.operation == operations::GET) & (f.slot == slot) & (f.index < length)
}

// Indices that differ in nothing but their last bits have one leaf.
fn leaf_again(
    cells: &[u32],
    form: Form,
    root: NodeNo,
    before: u32,
    leaf: NodeNo,
    index: u32,
) -> NodeNo
    requires { leaf.0 ≡ leaf_in cells.now form.bits form.height root.0 before }
    ensures { result.0 ≡ leaf_in cells.now form.bits form.height root.0 index }
{
    if index ^ before <= vector_utils::mask(form.bits) {
        return leaf;
    }
    lookup::leaf(cells, form, root, index)
}

// Answers the gets from frame k on, up to the first frame that is none, and says which that is.
pub fn gets(
    cells: &[u32],
    party: u8,
    slot: u8,
    v: Version,
    requests: &[u8],
    room: &mut [u8],
    k: usize,
    count: usize,
) -> usize
    requires legal { Legal v.bits v.length }
    requires room { Roomy requests.now room.old k count }
    ensures gets { Gets cells.now party slot v requests.now room.old room.new k count result }
    ensures stops { Stops (is_get party slot v.length) requests.now count result }
{
    let form = Form::of(v.bits, v.length);
    let root = NodeNo(v.root);
    let mut before = 0;
    let mut leaf = lookup::leaf(cells, form, root, before);
    for j in k..count {
        let f = requests::frame_at(requests, j);
        if !is_get(f, party, slot, v.length) {
            return j;
        }
        leaf = leaf_again(cells, form, root, before, leaf, f.index);
        before = f.index;
        let b = vector_utils::bucket(v.bits, before, 0);
        let x = lookup::cell_at(cells, leaf, b);
        requests::put_answer(room, j, Answer::done(0, x));
    }
    count
}

// ---- steps

#[tactic(auto, unfolding(calls::specs::Walks::answer_of, meaning::specs::Serve::refused))]
fn answer_of(g: Option<u32>) -> Answer
    ensures { answer_of result ≡ calls.answer_of g }
{
    match g {
        Some(x) => Answer::done(0, x),
        None => Answer::refused(Refusal::NothingThere),
    }
}

// Answers the steps of walk n from frame k on, up to the first frame that is none, and says which that is.
pub fn steps(
    cells: &[u32],
    used: &[u8],
    walks: &mut Walks,
    party: u8,
    operation: u8,
    walk: u8,
    n: usize,
    requests: &[u8],
    room: &mut [u8],
    k: usize,
    count: usize,
) -> usize
    requires walk { Walkable walks.old.numbers n }
    requires room { Roomy requests.now room.old k count }
    ensures steps { Steps cells.now used.now party operation walk (eqb operation next_back_code) n
        (walked (walks_of walks.old) room.old)
        (walked (walks_of walks.new) room.new)
        requests.now k count result }
    ensures stops { Stops (is_step party operation walk) requests.now count result }
{
    let back = operation == operations::NEXT_BACK;
    let mut j = k;
    // No `for`: a turn answers as many steps as stay in a leaf.
    while j < count {
        let f = requests::frame_at(requests, j);
        if !leaf::is_step(f, party, operation, walk) {
            return j;
        }
        let g = walks.take(cells, used, n, back);
        let answer = answer_of(g);
        requests::put_answer(room, j, answer);
        j = leaf::steps_in_leaf(
            cells,
            used,
            &mut walks.numbers,
            &walks.levels.nodes,
            &mut walks.levels.indices,
            party,
            operation,
            walk,
            n,
            back,
            requests,
            room,
            j + 1,
            count,
        );
    }
    j
}
