// Whether any bytes are a well-formed lent state. Nothing that is lent is written.
#![tactic(auto)]

ghost use Rattle.std.specs.Prelude.{◌≡◌, ◌≤◌, length};
ghost use Rattle.meaning.specs.Limits.{max_nodes};
ghost use Rattle.std.specs.Option.{is_some, unwrap_or};
ghost use Rattle.audit_reads.specs.Slices.{lent_in};
ghost use Rattle.audit.specs.Audited.{Judged, Cleared, Small};

use audit_compare::Lengths;
use audit_reads::Lent;
use limits::{MAX_NODES, VERSIONS};
use records::Version;

// The largest N of a small and of a medium state.
const SMALL: usize = 256;

const MEDIUM: usize = 4096;

// The audit after the sizes, with two slices of zeros to work in.
pub fn audit_with(lent: Lent, codes: &mut [u32], tallies: &mut [u32]) -> Option<u32>
    requires { Cleared (lent_in lent) codes.old tallies.old }
    ensures { Judged (lent_in lent.entry) (is_some result) (unwrap_or result 0) }
{
    let nodes = lent.nodes;
    if !audit_records::records_ok(lent, codes) {
        return None;
    }
    let free = audit_tally::count_free(nodes.kinds);
    if !audit_tally::tally_order(nodes.kinds, lent.order, free, tallies) {
        return None;
    }
    audit_tally::tally_links(lent, tallies);
    let ok = audit_compare::nodes_ok(nodes, lent.counts, codes, tallies);
    ok.then_some(free)
}

// The same, of a state of no more than N nodes.
pub fn audit_sized<const N: usize>(lent: Lent) -> Option<u32>
    requires small { Small (lent_in lent) N }
    requires most { N ≤ max_nodes }
    ensures { Judged (lent_in lent.entry) (is_some result) (unwrap_or result 0) }
{
    let mut codes = [0u32; N];
    let mut tallies = [0u32; N];
    audit_with(lent, &mut codes, &mut tallies)
}

// Of a parameter the proofs know its length, and of a field they don't.
fn table_length(versions: &[Version; VERSIONS]) -> usize
    ensures { result ≡ length versions.now }
{
    versions.len()
}

// The number of free nodes of a well-formed state, and none of any other, whatever is lent; small states don't pay for the largest.
pub fn audit(lent: Lent) -> Option<u32>
    ensures { Judged (lent_in lent.entry) (is_some result) (unwrap_or result 0) }
{
    let n = lent.nodes.kinds.len();
    let lengths = Lengths {
        kinds: n,
        used: lent.nodes.used.len(),
        cells: lent.nodes.cells.len(),
        counts: lent.counts.len(),
        order: lent.order.len(),
        walk_numbers: lent.walks.numbers.len(),
        walk_nodes: lent.walks.nodes.len(),
        walk_indices: lent.walks.indices.len(),
    };
    let fit = lengths.fit() & (table_length(lent.versions) == VERSIONS);
    if !fit {
        return None;
    }
    if n <= SMALL {
        return audit_sized::<SMALL>(lent);
    }
    if n <= MEDIUM {
        return audit_sized::<MEDIUM>(lent);
    }
    audit_sized::<MAX_NODES>(lent)
}
