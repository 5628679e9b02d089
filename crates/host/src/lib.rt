// The calls of a host and its plug-ins, over what a host lends. C links them by `host_c`.
#![tactic(auto)]

ghost use Rattle.std.specs.Prelude.{◌≡◌};
ghost use Rattle.limits.specs.Refusals.{outcome_number};
ghost use Rattle.lending.specs.Lending.{RightSizes};
ghost use Rattle.audit_reads.specs.Slices.{lent_from};
ghost use Rattle.form.specs.Forms.{Forms};
ghost use Rattle.batch.specs.Batched.{frames_of, Batches};
ghost use Rattle.host.specs.Reports.{reported_with, BatchesOf};

use lending::Sizes;
use limits::VERSIONS;
use limits::numbers::{Refusal, of_outcome};
use records::Version;
use version_table::{store_table, table_of};

// What a call reports: the number given back, and how many frames ran.
#[repr(C)]
#[derive(Clone, Copy)]
pub struct Report {
    pub number: u32,
    pub frames: usize,
}

// The report, whether the table is to be stored, and the table.
#[derive(Drop)]
pub struct Done {
    pub report: Report,
    pub stores: bool,
    pub versions: [Version; VERSIONS],
}

fn done_with(outcome: Result<usize, Refusal>, versions: [Version; VERSIONS]) -> Done
    ensures { result ≡ reported_with (outcome_number outcome) (frames_of outcome) versions }
{
    let report = Report {
        number: u32::from(of_outcome(outcome)),
        frames: outcome.unwrap_or(0),
    };
    Done {
        report,
        stores: outcome.is_ok(),
        versions,
    }
}

// How many elements each slice of a state of so many nodes has; all 0 where there is no such state.
pub fn jumperloft1_sizes(nodes: usize) -> Sizes
    ensures { RightSizes nodes result }
{
    lending::sizes_of(nodes)
}

// A fresh state in what is lent.
pub fn jumperloft1_form(
    kinds: &mut [u8],
    used: &mut [u8],
    counts: &mut [u32],
    cells: &[u32],
    order: &mut [u32],
    versions: &mut [Version],
    walk_numbers: &mut [u32],
    walk_nodes: &mut [u32],
    walk_indices: &mut [i32],
) -> Report
    ensures { Forms
        (lent_from kinds.old used.old counts.old cells.now order.old versions.old
        walk_numbers.old walk_nodes.old walk_indices.old)
        (lent_from kinds.new used.new counts.new cells.now order.new versions.new
        walk_numbers.new walk_nodes.new walk_indices.new) result.number × (result.frames ≡ 0) }
{
    let formed = form::form(
        kinds,
        used,
        counts,
        cells,
        order,
        versions,
        walk_numbers,
        walk_nodes,
        walk_indices,
    );
    Report {
        number: u32::from(of_outcome(formed)),
        frames: 0,
    }
}

// A batch, with the table by value and the number of records that it was copied from.
fn batch_table(
    kinds: &mut [u8],
    used: &mut [u8],
    counts: &mut [u32],
    cells: &mut [u32],
    order: &mut [u32],
    count: usize,
    versions: [Version; VERSIONS],
    walk_numbers: &mut [u32],
    walk_nodes: &mut [u32],
    walk_indices: &mut [i32],
    requests: &[u8],
    room: &mut [u8],
) -> Done
    ensures { BatchesOf count
        (lent_from kinds.old used.old counts.old cells.old order.old versions
        walk_numbers.old walk_nodes.old walk_indices.old)
        (lent_from kinds.new used.new counts.new cells.new order.new result.versions
        walk_numbers.new walk_nodes.new walk_indices.new)
        requests.now room.old room.new result }
{
    if count != VERSIONS {
        let refusal = lending::refusal_of_sizes(requests.len(), room.len());
        return done_with(Err(refusal), versions);
    }
    let r = batch::batch(
        kinds,
        used,
        counts,
        cells,
        order,
        versions,
        walk_numbers,
        walk_nodes,
        walk_indices,
        requests,
        room,
    );
    done_with(r.outcome, r.versions)
}

// The frames of the requests, each answered at its 6 bytes of the room. A batch that is refused writes nothing.
pub fn jumperloft1_batch(
    kinds: &mut [u8],
    used: &mut [u8],
    counts: &mut [u32],
    cells: &mut [u32],
    order: &mut [u32],
    versions: &mut [Version],
    walk_numbers: &mut [u32],
    walk_nodes: &mut [u32],
    walk_indices: &mut [i32],
    requests: &[u8],
    room: &mut [u8],
) -> Report
    ensures { Batches
        (lent_from kinds.old used.old counts.old cells.old order.old versions.old
        walk_numbers.old walk_nodes.old walk_indices.old)
        (lent_from kinds.new used.new counts.new cells.new order.new versions.new
        walk_numbers.new walk_nodes.new walk_indices.new)
        requests.now room.old room.new result.number result.frames }
{
    let count = versions.len();
    let table = table_of(versions);
    let ran = batch_table(
        kinds,
        used,
        counts,
        cells,
        order,
        count,
        table,
        walk_numbers,
        walk_nodes,
        walk_indices,
        requests,
        room,
    );
    store_table(versions, ran.versions, ran.stores);
    ran.report
}
