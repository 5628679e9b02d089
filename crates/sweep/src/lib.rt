// Module 2: the release of a link. What nothing reaches any longer goes to the free order.
#![tactic(auto)]

ghost use Rattle.std.specs.Prelude.{◌≡◌, ◌+◌, ◌≤◌, ◌<◌, length};
ghost use Rattle.meaning.specs.Lent.{Nodes};
ghost use Rattle.store.specs.Ready.{AllBelow};
ghost use Rattle.store.specs.Lent.{held, SameSlices};
ghost use Rattle.sweep.specs.Sweep.{lower, lowers, scan, release};
ghost use Rattle.sweep.specs.Ready.{store_on, live, Releasable};

use limits::{BRANCH, FREE};
use records::NodeNo;
use store::Store;

// A node loses a link, and goes on the free order with its last.
pub fn lower_one(counts: &mut [u32], order: &mut [u32], free: &mut usize, n: NodeNo)
    requires n_in_bounds { n.0 < length counts.old }
    requires free_in_bounds { live counts.old + free.old ≤ length order.old }
    ensures { (s : Nodes) → store_on s counts.new order.new free.new ≡ lower (store_on s counts.old order.old free.old) n.0 }
{
    let i = n.0 as usize;
    let count = counts[i];
    if count == 0 {
        return;
    }
    counts[i] = count - 1;
    if count == 1 {
        order[*free] = n.0;
        *free += 1;
    }
}

// Each of these nodes loses a link.
pub fn lower_all(counts: &mut [u32], order: &mut [u32], free: &mut usize, nodes: &[u32])
    requires all_below { AllBelow (length counts.old) nodes.now }
    requires free_in_bounds { live counts.old + free.old ≤ length order.old }
    ensures { (s : Nodes) → store_on s counts.new order.new free.new ≡ lowers (store_on s counts.old order.old free.old) nodes.now }
{
    for &n in nodes {
        lower_one(counts, order, free, NodeNo(n));
    }
}

// A node on the free order becomes free, and its children lose a link each.
pub fn scan_one(store: &mut Store, cells: &[u32], order: &mut [u32], n: NodeNo)
    requires { Releasable (held store.old cells.now order.old) n.0 }
    ensures same_slices { SameSlices store.old store.new }
    ensures scanned { held store.new cells.now order.new ≡ scan (held store.old cells.now order.old) n.0 }
{
    let i = n.0 as usize;
    // A byte as it was lent, which may be no kind, and FREE is no kind that a node is made as: so no `NodeKind`.
    let kind = store.kinds[i];
    let len = store.used[i];
    store.kinds[i] = FREE;
    store.used[i] = 0;
    if kind == BRANCH {
        let children = store::cells_of(cells, n);
        lower_all(
            store.counts,
            order,
            &mut store.free,
            &children[..len as usize],
        );
    }
}

// A link to a node is given up. What that frees is scanned in the order in which it was freed.
pub fn release(store: &mut Store, cells: &[u32], order: &mut [u32], root: NodeNo)
    requires { Releasable (held store.old cells.now order.old) root.0 }
    ensures same_slices { SameSlices store.old store.new }
    ensures released { held store.new cells.now order.new ≡ release (held store.old cells.now order.old) root.0 }
{
    let mut at = store.free;
    lower_one(store.counts, order, &mut store.free, root);
    // No `for`: the free order grows while it is scanned.
    while at < store.free {
        let n = NodeNo(order[at]);
        scan_one(store, cells, order, n);
        at += 1;
    }
}
