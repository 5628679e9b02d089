// What C links: the calls of `host`, exported under their names, each with the clauses that it has there.
#![tactic(auto)]

ghost use Rattle.std.specs.Prelude.{◌≡◌};
ghost use Rattle.lending.specs.Lending.{RightSizes};
ghost use Rattle.audit_reads.specs.Slices.{lent_from};
ghost use Rattle.form.specs.Forms.{Forms};
ghost use Rattle.batch.specs.Batched.{Batches};

use host::Report;
use lending::Sizes;
use records::Version;

// How many elements each slice of a state of so many nodes has; all 0 where there is no such state.
#[unsafe(no_mangle)]
pub extern "C" fn jumperloft1_sizes(nodes: usize) -> Sizes
    ensures { RightSizes nodes result }
{
    host::jumperloft1_sizes(nodes)
}

// A fresh state in what is lent.
#[unsafe(no_mangle)]
pub extern "C" fn jumperloft1_form(
    kinds: &mut [u8],
    used: &mut [u8],
    counts: &mut [u32],
    cells: &[u32],
    order: &mut [u32],
    versions: &mut [Version],
    walk_numbers: &mut [u32],
    walk_nodes: &mut [u32],
    walk_indices: &mut [i32],
) -> Report
    ensures { Forms
        (lent_from kinds.old used.old counts.old cells.now order.old versions.old
        walk_numbers.old walk_nodes.old walk_indices.old)
        (lent_from kinds.new used.new counts.new cells.now order.new versions.new
        walk_numbers.new walk_nodes.new walk_indices.new) result.number × (result.frames ≡ 0) }
{
    host::jumperloft1_form(
        kinds,
        used,
        counts,
        cells,
        order,
        versions,
        walk_numbers,
        walk_nodes,
        walk_indices,
    )
}

// The frames of the requests, each answered at its 6 bytes of the room. A batch that is refused writes nothing.
#[unsafe(no_mangle)]
pub extern "C" fn jumperloft1_batch(
    kinds: &mut [u8],
    used: &mut [u8],
    counts: &mut [u32],
    cells: &mut [u32],
    order: &mut [u32],
    versions: &mut [Version],
    walk_numbers: &mut [u32],
    walk_nodes: &mut [u32],
    walk_indices: &mut [i32],
    requests: &[u8],
    room: &mut [u8],
) -> Report
    ensures { Batches
        (lent_from kinds.old used.old counts.old cells.old order.old versions.old
        walk_numbers.old walk_nodes.old walk_indices.old)
        (lent_from kinds.new used.new counts.new cells.new order.new versions.new
        walk_numbers.new walk_nodes.new walk_indices.new)
        requests.now room.old room.new result.number result.frames }
{
    host::jumperloft1_batch(
        kinds,
        used,
        counts,
        cells,
        order,
        versions,
        walk_numbers,
        walk_nodes,
        walk_indices,
        requests,
        room,
    )
}
