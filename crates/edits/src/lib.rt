// The operations that edit: what a frame that passes the first six checks makes of the store and of the record that it fills or empties.
#![tactic(auto)]

ghost use Rattle.std.specs.Prelude.{◌≡◌, ◌≢◌, List, ℕ};
ghost use Rattle.meaning.specs.Limits.{new_code};
ghost use Rattle.meaning.specs.Lent.{Nodes};
ghost use Rattle.records.specs.Records.{record_of};
ghost use Rattle.store.specs.Lent.{held, SameSlices};
ghost use Rattle.sweep.specs.Ready.{store_on};
ghost use Rattle.vector.specs.Ready.{Linkable, Steady};
ghost use Rattle.requests.specs.Requests.{frame_of};
ghost use Rattle.served.specs.Acted.{acted_of};
ghost use Rattle.edits.specs.Edits.{Able, shared_act, released_act, path_act, edit_act};

use limits::operations;
use records::Version;
use requests::Frame;
use served::Served;
use store::Store;

fn edit_path(
    store: &mut Store,
    cells: &mut [u32],
    order: &[u32],
    f: Frame,
    v: Version,
    old: Version,
) -> Served
    requires { Able (held store.old cells.old order.now) (record_of v) }
    ensures same_slices { SameSlices store.old store.new }
    ensures free { result.free ≡ store.new.free }
    ensures acted { acted_of (held store.new cells.new order.now) result ≡ path_act (held store.old cells.old order.now) (frame_of f) (record_of v) (record_of old) }
{
    if f.operation == operations::SET {
        let e = vector::set(store, cells, order, v, f.index, f.value);
        return served::of_edited(e, store.free, old);
    }
    if f.operation == operations::PUSH_BACK {
        let e = vector::push_back(store, cells, order, v, f.value);
        return served::of_edited(e, store.free, old);
    }
    let e = vector::drop_last(store, cells, order, v);
    served::of_edited(e, store.free, old)
}

fn share(counts: &mut [u32], free: usize, v: Version) -> Served
    requires { Linkable counts.old v.root }
    ensures free { result.free ≡ free }
    ensures acted { (s : Nodes) (order : List ℕ) → acted_of (store_on s counts.new order free) result ≡ shared_act (store_on s counts.old order free) (record_of v) }
{
    let shared = vector::clone(counts, v);
    served::answered(0, free, shared)
}

// New, clone, set, push_back, drop_last and hand-over.
pub fn edit(
    store: &mut Store,
    cells: &mut [u32],
    order: &[u32],
    f: Frame,
    v: Version,
    old: Version,
) -> Served
    requires steady { Steady (held store.old cells.old order.now) }
    requires able { f.operation ≢ new_code → Able (held store.old cells.old order.now) (record_of v) }
    ensures same_slices { SameSlices store.old store.new }
    ensures free { result.free ≡ store.new.free }
    ensures acted { acted_of (held store.new cells.new order.now) result ≡ edit_act (held store.old cells.old order.now) (frame_of f) (record_of v) (record_of old) }
{
    if f.operation == operations::NEW {
        let e = vector::new_with_bits(store, cells, order, f.index);
        return served::of_edited(e, store.free, old);
    }
    let shares = (f.operation == operations::CLONE) | (f.operation == operations::HAND_OVER);
    if shares {
        return share(store.counts, store.free, v);
    }
    edit_path(store, cells, order, f, v, old)
}

pub fn release(store: &mut Store, cells: &[u32], order: &mut [u32], v: Version) -> Served
    requires { Able (held store.old cells.now order.old) (record_of v) }
    ensures same_slices { SameSlices store.old store.new }
    ensures free { result.free ≡ store.new.free }
    ensures acted { acted_of (held store.new cells.now order.new) result ≡ released_act (held store.old cells.now order.old) (record_of v) }
{
    vector::release(store, cells, order, v);
    served::answered(0, store.free, Version::empty())
}
