// One frame on the records that it names: the checks, then the call.
#![tactic(auto)]

ghost use Rattle.std.specs.Prelude.{◌≡◌, Bool, cond, ◌&&◌, ◌+◌, ◌*◌, ◌%◌, ◌<◌, ltb};
ghost use Rattle.meaning.specs.Limits.{parties, party_slots, version_count};
ghost use Rattle.meaning.specs.Lent.{empty_record};
ghost use Rattle.records.specs.Records.{record_of};
ghost use Rattle.store.specs.Lent.{held, SameSlices};
ghost use Rattle.walk.specs.Walk.{walks_of};
ghost use Rattle.requests.specs.Requests.{frame_of};
ghost use Rattle.served.specs.Acted.{acted_of};
ghost use Rattle.calls.specs.Calls.{with_walks};
ghost use Rattle.frames.specs.Run.{walk_place};
ghost use Rattle.turns.specs.Turns.{place_of, changed_in, is_open_at, Turnable, turn};

use limits::numbers::DONE;
use limits::operations::Operation;
use limits::words::PARTIES;
use limits::{ALL_NUMBERS, PARTY_SLOTS, PARTY_WALKS, WALK_NUMBERS, numbers};
use records::Version;
use refusals::Standing;
use requests::Frame;
use served::Served;
use store::Store;
use walk::Walks;

// ---- the version records that a frame names

// Where a slot of a party stands among all; a party or slot that is not there has some place too.
pub fn slot_place(party: u32, slot: u8) -> usize
    ensures { (result ≡ place_of party slot) × (result < version_count) }
{
    (PARTY_SLOTS as usize) * ((party % PARTIES) as usize) + ((slot % PARTY_SLOTS) as usize)
}

pub fn is_slot(party: u32, slot: u8) -> bool
    ensures { result ≡ ltb party parties && ltb slot party_slots }
{
    (party < PARTIES) & (slot < PARTY_SLOTS)
}

// A slot that is not there reads as empty.
pub fn version_or_empty(there: bool, v: Version) -> Version
    ensures { record_of result ≡ cond there (record_of v) empty_record }
{
    if there {
        return v;
    }
    Version::empty()
}

// The place of the one record that a frame may change.
pub fn changed_place(f: Frame, source: usize, target: usize) -> usize
    ensures { result ≡ changed_in (frame_of f) source target }
{
    if f.operation == u8::from(Operation::Release) {
        return source;
    }
    target
}

// ---- serving

// Where a walk of a party stands among all.
pub fn walk_place(party: u32, walk: u8) -> usize
    ensures { result ≡ walk_place party walk }
{
    (PARTY_WALKS as usize) * (party as usize) + (walk as usize)
}

// A walk that is not there is closed.
pub fn is_open(numbers: &[u32; ALL_NUMBERS], party: u32, walk: u8) -> bool
    ensures { result ≡ is_open_at numbers.now party walk }
{
    let there = (party < PARTIES) & (walk < PARTY_WALKS);
    there && numbers[WALK_NUMBERS * walk_place(party, walk)] == 1
}

pub fn serve(
    store: &mut Store,
    cells: &mut [u32],
    order: &mut [u32],
    walks: &mut Walks,
    f: Frame,
    v: Version,
    w: Version,
    old: Version,
) -> Served
    requires { Turnable (held store.old cells.old order.old) (walks_of walks.old) (frame_of f) (record_of v) (record_of w) }
    ensures same_slices { SameSlices store.old store.new }
    ensures free { result.free ≡ store.new.free }
    ensures turned { with_walks (acted_of (held store.new cells.new order.new) result) (walks_of walks.new)
        ≡ turn (held store.old cells.old order.old) (walks_of walks.old) (frame_of f) (record_of v) (record_of w) (record_of old) }
{
    let standing = Standing {
        source_live: v.live == 1,
        target_live: w.live == 1,
        walk_open: is_open(&walks.numbers, refusals::giver(f), f.slot),
        opened_open: is_open(&walks.numbers, refusals::taker(f), f.destination),
    };
    let number = numbers::of_outcome(refusals::check(f, standing));
    if number != DONE {
        return served::refused(number, store.free, old);
    }
    calls::act(store, cells, order, walks, f, v, w, old)
}
