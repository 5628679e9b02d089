// The operations on walks: open, next, next_back and close.
ghost use Rattle.std.specs.Prelude.{◌≡◌, List, ℕ, Bool, ◌+◌, ◌*◌, ◌%◌, ◌<◌};
ghost use Rattle.meaning.specs.Limits.{walk_count};
ghost use Rattle.records.specs.Records.{record_of};
ghost use Rattle.store.specs.Lent.{held, SameSlices};
ghost use Rattle.sweep.specs.Ready.{Releasable};
ghost use Rattle.vector.specs.Ready.{Linkable};
ghost use Rattle.walk.specs.Walk.{walks_of, version_of_walk, Walkable, taken_by};
ghost use Rattle.requests.specs.Requests.{frame_of};
ghost use Rattle.served.specs.Acted.{acted_of};
ghost use Rattle.calls.specs.Walks.{place_of, Opens, Closes, Steps, OnWalk, with_walks, walk_act};

use limits::{PARTIES, PARTY_WALKS, operations};
use records::{NodeNo, Version};
use requests::Frame;
use served::Served;
use store::Store;
use walk::Walks;

// Where a walk of a party stands among all; a party or walk that is not there has some place too.
pub fn walk_place(party: u8, walk: u8) -> usize
    ensures { (result ≡ place_of party walk) × (result < walk_count) }
{
    (PARTY_WALKS * (party % PARTIES) + walk % PARTY_WALKS) as usize
}

fn open(store: &mut Store, walks: &mut Walks, n: usize, v: Version, old: Version) -> Served
    requires link { Linkable store.old.counts.now v.root }
    requires place { n < walk_count }
    ensures same_slices { SameSlices store.old store.new }
    ensures free { result.free ≡ store.new.free }
    ensures opens { (cells order : List ℕ) → Opens (held store.old cells order) (walks_of walks.old) n (record_of v) old (held store.new cells order) (walks_of walks.new) result }
{
    store::raise(store.counts, NodeNo(v.root));
    walk::open(&mut walks.numbers, n, v);
    served::answered(0, store.free, old)
}

fn close(
    store: &mut Store,
    cells: &[u32],
    order: &mut [u32],
    walks: &mut Walks,
    n: usize,
    old: Version,
) -> Served
    requires release { Releasable (held store.old cells.now order.old) (version_of_walk walks.old.numbers n).root }
    requires place { n < walk_count }
    ensures same_slices { SameSlices store.old store.new }
    ensures free { result.free ≡ store.new.free }
    ensures closes { Closes (held store.old cells.now order.old) (walks_of walks.old) n old (held store.new cells.now order.new) (walks_of walks.new) result }
{
    let v = walk::version(&walks.numbers, n);
    sweep::release(store, cells, order, NodeNo(v.root));
    walks.close(n);
    served::answered(0, store.free, old)
}

fn step(
    store: &Store,
    cells: &[u32],
    walks: &mut Walks,
    n: usize,
    back: bool,
    old: Version,
) -> Served
    requires { Walkable walks.old.numbers n }
    ensures free { result.free ≡ store.now.free }
    ensures steps { Steps (taken_by cells.now store.now.used.now back (walks_of walks.old) n) store.now.free old (walks_of walks.new) result }
{
    let used = &*store.used;
    let g = walks.take(cells, used, n, back);
    served::of_got(g, store.free, old)
}

pub fn act_on_walk(
    store: &mut Store,
    cells: &[u32],
    order: &mut [u32],
    walks: &mut Walks,
    f: Frame,
    v: Version,
    old: Version,
) -> Served
    requires { OnWalk (held store.old cells.now order.old) (walks_of walks.old) (frame_of f) (record_of v) }
    ensures same_slices { SameSlices store.old store.new }
    ensures free { result.free ≡ store.new.free }
    ensures acted { with_walks (acted_of (held store.new cells.now order.new) result) (walks_of walks.new)
        ≡ walk_act (held store.old cells.now order.old) (walks_of walks.old) (frame_of f) (record_of v) (record_of old) }
{
    if f.operation == operations::OPEN_WALK {
        let n = walk_place(f.party, f.destination);
        return open(store, walks, n, v, old);
    }
    let n = walk_place(f.party, f.slot);
    if f.operation == operations::CLOSE_WALK {
        return close(store, cells, order, walks, n, old);
    }
    let back = f.operation == operations::NEXT_BACK;
    step(store, cells, walks, n, back, old)
}
