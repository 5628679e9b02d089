// What a frame that passes the first six checks does: a tree of calls, the rarer operations deeper.
#![tactic(auto)]

mod reads;
mod walks;

ghost use Rattle.std.specs.Prelude.{◌≡◌};
ghost use Rattle.records.specs.Records.{record_of};
ghost use Rattle.store.specs.Lent.{held, SameSlices};
ghost use Rattle.walk.specs.Walk.{walks_of};
ghost use Rattle.requests.specs.Requests.{frame_of};
ghost use Rattle.served.specs.Acted.{acted_of};
ghost use Rattle.calls.specs.Calls.{Sources, Serviceable, store_act, with_walks, act};

use limits::operations;
use records::Version;
use requests::Frame;
use served::Served;
use store::Store;
use walk::Walks;

// The operations that leave the walks alone.
fn act_on_store(
    store: &mut Store,
    cells: &mut [u32],
    order: &mut [u32],
    f: Frame,
    v: Version,
    w: Version,
    old: Version,
) -> Served
    requires { Sources (held store.old cells.old order.old) (frame_of f) (record_of v) (record_of w) }
    ensures same_slices { SameSlices store.old store.new }
    ensures free { result.free ≡ store.new.free }
    ensures acted { acted_of (held store.new cells.new order.new) result ≡ store_act (held store.old cells.old order.old) (frame_of f) (record_of v) (record_of w) (record_of old) }
{
    let edits = (f.operation == operations::NEW)
        | (f.operation == operations::CLONE)
        | (f.operation == operations::SET)
        | (f.operation == operations::PUSH_BACK)
        | (f.operation == operations::DROP_LAST)
        | (f.operation == operations::HAND_OVER);
    if edits {
        return edits::edit(store, cells, order, f, v, old);
    }
    if f.operation == operations::RELEASE {
        return edits::release(store, cells, order, v);
    }
    reads::read(cells, store.free, f, v, w, old)
}

pub fn act(
    store: &mut Store,
    cells: &mut [u32],
    order: &mut [u32],
    walks: &mut Walks,
    f: Frame,
    v: Version,
    w: Version,
    old: Version,
) -> Served
    requires { Serviceable (held store.old cells.old order.old) (walks_of walks.old) (frame_of f) (record_of v) (record_of w) }
    ensures same_slices { SameSlices store.old store.new }
    ensures free { result.free ≡ store.new.free }
    ensures acted { with_walks (acted_of (held store.new cells.new order.new) result) (walks_of walks.new)
        ≡ act (held store.old cells.old order.old) (walks_of walks.old) (frame_of f) (record_of v) (record_of w) (record_of old) }
{
    let on_walk = (f.operation == operations::NEXT)
        | (f.operation == operations::NEXT_BACK)
        | (f.operation == operations::OPEN_WALK)
        | (f.operation == operations::CLOSE_WALK);
    if on_walk {
        return walks::act_on_walk(store, cells, order, walks, f, v, old);
    }
    act_on_store(store, cells, order, f, v, w, old)
}
