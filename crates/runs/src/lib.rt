// Frames in order on a state that runs, each answered at its 6 bytes.
#![tactic(auto)]

ghost use Rattle.std.specs.Prelude.{◌≡◌};
ghost use Rattle.records.specs.Records.{record_of};
ghost use Rattle.store.specs.Lent.{SameSlices};
ghost use Rattle.walk.specs.Walk.{walks_of};
ghost use Rattle.requests.specs.Requests.{frame_of, answer_of};
ghost use Rattle.frames.specs.Serve.{serve};
ghost use Rattle.serving.specs.States.{Runs};
ghost use Rattle.runs.specs.Runs.{Placed, progress, CanRun, run_from, Repeatable, Repeats};
ghost use Rattle.runs.specs.States.{state_of};

use limits::{VERSIONS, operations};
use records::Version;
use requests::{Answer, Frame};
use store::Store;
use walk::Walks;

// Where the records of a frame's slots stand, and the one that it may change.
#[derive(Clone, Copy)]
pub struct Places {
    pub source: usize,
    pub target: usize,
    pub changed: usize,
}

fn places_of(f: Frame) -> Places
    ensures { Placed (frame_of f) result.source result.target result.changed }
{
    let source = turns::slot_place(refusals::giver(f), f.slot);
    let target = turns::slot_place(refusals::taker(f), f.destination);
    Places {
        source: source,
        target: target,
        changed: turns::changed_place(f, source, target),
    }
}

// ---- frames like the one before

// Answers the frames from the kth on that get from the slot, or step the walk, of the frame before; how far, it says. The version is what stands in that slot.
fn repeat(
    store: &Store,
    cells: &[u32],
    walks: &mut Walks,
    f: Frame,
    v: Version,
    requests: &[u8],
    room: &mut [u8],
    k: usize,
    count: usize,
) -> usize
    requires { Repeatable (walks_of walks.old) (frame_of f) (record_of v) requests.now room.old k count }
    ensures { Repeats cells.now store.now.used.now (walks_of walks.old)
        (walks_of walks.new) (frame_of f) (record_of v)
        requests.now room.old room.new k count result }
{
    let there = turns::is_slot(f.party as u32, f.slot);
    if (f.operation == operations::GET) & there & (v.live == 1) {
        return repeats::gets(cells, f.party, f.slot, v, requests, room, k, count);
    }
    let open = turns::is_open(&walks.numbers, f.party as u32, f.slot);
    if ((f.operation == operations::NEXT) | (f.operation == operations::NEXT_BACK)) & open {
        let n = turns::walk_place(f.party as u32, f.slot);
        let used = &*store.used;
        return repeats::steps(
            cells,
            used,
            walks,
            f.party,
            f.operation,
            f.slot,
            n,
            requests,
            room,
            k,
            count,
        );
    }
    k
}

// ---- all frames

// What stands at the places is read and written, whether the frame's slots are there or not.
fn serve(
    store: &mut Store,
    cells: &mut [u32],
    order: &mut [u32],
    versions: &mut [Version; VERSIONS],
    walks: &mut Walks,
    f: Frame,
    at: Places,
) -> Answer
    requires runs { Runs (state_of store.old cells.old order.old versions.old walks.old) }
    requires placed { Placed (frame_of f) at.source at.target at.changed }
    ensures same_slices { SameSlices store.old store.new }
    ensures served { (state_of store.new cells.new order.new versions.new walks.new, answer_of result) ≡ serve (state_of store.old cells.old order.old versions.old walks.old) (frame_of f) }
{
    let source_there = turns::is_slot(refusals::giver(f), f.slot);
    let target_there = turns::is_slot(refusals::taker(f), f.destination);
    let v = turns::version_or_empty(source_there, versions[at.source]);
    let w = turns::version_or_empty(target_there, versions[at.target]);
    let old = versions[at.changed];
    let served = turns::serve(store, cells, order, walks, f, v, w, old);
    versions[at.changed] = served.version;
    served.answer
}

pub fn run(
    store: &mut Store,
    cells: &mut [u32],
    order: &mut [u32],
    versions: &mut [Version; VERSIONS],
    walks: &mut Walks,
    requests: &[u8],
    room: &mut [u8],
    count: usize,
)
    requires { CanRun (state_of store.old cells.old order.old versions.old walks.old) requests.now room.old count }
    ensures same_slices { SameSlices store.old store.new }
    ensures ran { progress (state_of store.new cells.new order.new versions.new walks.new) room.new
        ≡ run_from requests.now count (progress (state_of store.old cells.old order.old versions.old walks.old) room.old) 0 }
{
    let mut k = 0;
    // No `for`: a turn answers as many frames as are alike.
    while k < count {
        let f = requests::frame_at(requests, k);
        let at = places_of(f);
        let answer = serve(store, cells, order, versions, walks, f, at);
        requests::put_answer(room, k, answer);
        let there = versions[at.source];
        k = repeat(store, cells, walks, f, there, requests, room, k + 1, count);
    }
}
