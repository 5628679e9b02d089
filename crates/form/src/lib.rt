// A fresh state in what a host lends. The cells of its nodes stay as they are.
#![tactic(auto)]

ghost use Rattle.std.specs.Prelude.{◌≡◌, ◌≤◌, pos, length, replicate};
ghost use Rattle.meaning.specs.Limits.{max_nodes};
ghost use Rattle.meaning.specs.Fresh.{down_from};
ghost use Rattle.limits.specs.Refusals.{outcome_number};
ghost use Rattle.audit_reads.specs.Slices.{lent_from};
ghost use Rattle.form.specs.Forms.{zeros, Forms};

use audit_compare::Lengths;
use limits::VERSIONS;
use limits::numbers::Refusal;
use records::Version;

// Every node into the order, the last first.
fn fill_downwards(order: &mut [u32])
    requires { length order.old ≤ max_nodes }
    ensures { order.new ≡ down_from (length order.old) }
{
    let len = order.len();
    for (i, n) in order.iter_mut().enumerate() {
        *n = (len - (i + 1)) as u32;
    }
}

fn clear_nodes(kinds: &mut [u8], used: &mut [u8], counts: &mut [u32], order: &mut [u32])
    requires { length order.old ≤ max_nodes }
    ensures { (kinds.new ≡ zeros kinds.old) × (used.new ≡ zeros used.old)
        × (counts.new ≡ zeros counts.old) × (order.new ≡ down_from (length order.old)) }
{
    kinds.fill(0);
    used.fill(0);
    counts.fill(0);
    fill_downwards(order);
}

fn clear_walks(walk_numbers: &mut [u32], walk_nodes: &mut [u32], walk_indices: &mut [i32])
    ensures { (walk_numbers.new ≡ zeros walk_numbers.old) × (walk_nodes.new ≡ zeros walk_nodes.old)
        × (walk_indices.new ≡ replicate (length walk_indices.old) (pos 0)) }
{
    walk_numbers.fill(0);
    walk_nodes.fill(0);
    walk_indices.fill(0);
}

// Sizes that don't fit are refused, and nothing is written. Each slice by itself, as C lends them.
pub fn form(
    kinds: &mut [u8],
    used: &mut [u8],
    counts: &mut [u32],
    cells: &[u32],
    order: &mut [u32],
    versions: &mut [Version],
    walk_numbers: &mut [u32],
    walk_nodes: &mut [u32],
    walk_indices: &mut [i32],
) -> Result<(), Refusal>
    ensures { Forms
        (lent_from kinds.old used.old counts.old cells.now order.old versions.old
        walk_numbers.old walk_nodes.old walk_indices.old)
        (lent_from kinds.new used.new counts.new cells.now order.new versions.new
        walk_numbers.new walk_nodes.new walk_indices.new) (outcome_number result) }
{
    let lengths = Lengths {
        kinds: kinds.len(),
        used: used.len(),
        cells: cells.len(),
        counts: counts.len(),
        order: order.len(),
        walk_numbers: walk_numbers.len(),
        walk_nodes: walk_nodes.len(),
        walk_indices: walk_indices.len(),
    };
    let fit = lengths.fit() & (versions.len() == VERSIONS);
    if !fit {
        return Err(Refusal::IllFormed);
    }
    clear_nodes(kinds, used, counts, order);
    clear_walks(walk_numbers, walk_nodes, walk_indices);
    versions.fill(Version::empty());
    Ok(())
}
