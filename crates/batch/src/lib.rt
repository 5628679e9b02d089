// Requests as a batch: audited once, then served in order. The version table goes by value.
#![tactic(auto)]

ghost use Rattle.std.specs.Prelude.{◌≡◌, Err};
ghost use Rattle.limits.specs.Refusals.{outcome_number};
ghost use Rattle.std.specs.Option.{is_some, unwrap_or};
ghost use Rattle.audit.specs.Audited.{Judged};
ghost use Rattle.audit_reads.specs.Slices.{lent_from};
ghost use Rattle.batch.specs.Batched.{frames_of, Batches, batched_with};

use audit_reads::{Lent, Nodes, Walks};
use limits::numbers::Refusal;
use limits::{FRAME_SIZE, VERSIONS};
use records::Version;
use store::Store;

// How many frames a batch ran, or why it was refused, and the version records after it.
#[derive(Drop)]
pub struct Batched {
    pub outcome: Result<usize, Refusal>,
    pub versions: [Version; VERSIONS],
}

fn refused(refusal: Refusal, versions: [Version; VERSIONS]) -> Batched
    ensures { result ≡ batched_with (Err refusal) versions }
{
    Batched {
        outcome: Err(refusal),
        versions,
    }
}

// The audit of the slices, which are lent for it as one. Where they are lent on as `&mut` too, this gets no proof.
fn audited(
    kinds: &[u8],
    used: &[u8],
    counts: &[u32],
    cells: &[u32],
    order: &[u32],
    versions: &[Version; VERSIONS],
    walk_numbers: &[u32],
    walk_nodes: &[u32],
    walk_indices: &[i32],
) -> Option<u32>
    ensures { Judged (lent_from kinds.now used.now counts.now cells.now order.now versions.now
        walk_numbers.now walk_nodes.now walk_indices.now) (is_some result) (unwrap_or result 0) }
{
    audit::audit(Lent {
        nodes: Nodes {
            kinds: kinds,
            used: used,
            cells: cells,
        },
        counts: counts,
        order: order,
        versions: versions,
        walks: Walks {
            numbers: walk_numbers,
            nodes: walk_nodes,
            indices: walk_indices,
        },
    })
}

// Each frame is answered at its 6 bytes of the room. A batch that is refused writes nothing.
pub fn batch(
    kinds: &mut [u8],
    used: &mut [u8],
    counts: &mut [u32],
    cells: &mut [u32],
    order: &mut [u32],
    versions: [Version; VERSIONS],
    walk_numbers: &mut [u32],
    walk_nodes: &mut [u32],
    walk_indices: &mut [i32],
    requests: &[u8],
    room: &mut [u8],
) -> Batched
    ensures { Batches (lent_from kinds.old used.old counts.old cells.old order.old versions
        walk_numbers.old walk_nodes.old walk_indices.old)
        (lent_from kinds.new used.new counts.new cells.new order.new result.versions
        walk_numbers.new walk_nodes.new walk_indices.new)
        requests.now room.old room.new (outcome_number result.outcome) (frames_of result.outcome) }
{
    let asked = requests.len();
    if asked % FRAME_SIZE != 0 {
        return refused(Refusal::Ragged, versions);
    }
    let count = asked / FRAME_SIZE;
    if room.len() < requests::answer_place(count) {
        return refused(Refusal::NoRoom, versions);
    }
    let Some(free) = audited(
        kinds,
        used,
        counts,
        cells,
        order,
        &versions,
        walk_numbers,
        walk_nodes,
        walk_indices,
    ) else {
        return refused(Refusal::IllFormed, versions);
    };
    let mut store = Store {
        kinds,
        used,
        counts,
        free: free as usize,
    };
    let mut walks = walk_copies::load(walk_numbers, walk_nodes, walk_indices);
    let mut table = versions;
    runs::run(
        &mut store, cells, order, &mut table, &mut walks, requests, room, count,
    );
    walk_copies::store(&walks, walk_numbers, walk_nodes, walk_indices);
    Batched {
        outcome: Ok(count),
        versions: table,
    }
}
