// The tallies of the audit: places in the free order and links, into one slice.
#![tactic(auto)]

ghost use Rattle.std.specs.Prelude.{◌≡◌, true, ℕ, ◌+◌, ◌≤◌, length, get_or};
ghost use Rattle.meaning.specs.Limits.{max_nodes, version_count, walk_count};
ghost use Rattle.meaning.specs.Lent.{cell_of, child_count, is_free, free_nodes};
ghost use Rattle.records.specs.Records.{record_of, records_of};
ghost use Rattle.audit_model.specs.Made.{kinds_of, walk_version};
ghost use Rattle.audit_model.specs.Records.{all_to};
ghost use Rattle.audit_model.specs.Tallies.{raise, raise_to, raise_root, roots_tally, node_tally, nodes_tally};
ghost use Rattle.audit_model.specs.Audit.{record_at};
ghost use Rattle.audit_reads.specs.Slices.{nodes_in};
ghost use Rattle.audit_tally.specs.Under.{Under};

use audit_reads::{Lent, Nodes, Walks};
use limits::{BRANCH, FREE, VERSIONS, WALKS};
use records::Version;

// One more for n, if it has a place.
#[tactic(auto, unfolding(audit_model::specs::Tallies::raise, crate::specs::Under::Under))]
pub fn raise_one(t: &mut [u32], n: u32)
    requires { Under 4000000000 t.old }
    ensures { t.new ≡ raise t.old n }
{
    let i = n as usize;
    if i < t.len() {
        t[i] += 1;
    }
}

// One more for each of the first u cells of a node.
#[tactic(auto, unfolding(audit_model::specs::Tallies::raise_to), using(crate::proofs::Raising::raise_to_more))]
pub fn raise_cells(nodes: Nodes, t: &mut [u32], n: u32, u: u8)
    requires { Under 3999999000 t.old }
    ensures { t.new ≡ raise_to u (cell_of (nodes_in nodes.entry) n) t.old }
{
    for i in 0..u {
        raise_one(t, nodes.cell(n, i as u32));
    }
}

// One more for each link from the cells of a node.
#[tactic(auto, unfolding(audit_model::specs::Tallies::node_tally, audit_model::specs::Tallies::raise_to, meaning::specs::Lent::child_count))]
pub fn tally_node(nodes: Nodes, t: &mut [u32], m: u32)
    requires { Under 3999999000 t.old }
    ensures tallied { t.new ≡ node_tally (nodes_in nodes.entry) m t.old }
    ensures most { child_count (nodes_in nodes.entry) m ≤ 255 }
{
    if nodes.kind(m) == BRANCH {
        raise_cells(nodes, t, m, nodes.used(m));
    }
}

#[tactic(auto, unfolding(audit_model::specs::Tallies::nodes_tally), using(crate::proofs::Raising::nodes_tally_more))]
pub fn tally_nodes(nodes: Nodes, t: &mut [u32])
    requires { (length nodes.kinds.now ≤ max_nodes) × Under (max_nodes + version_count + walk_count) t.old }
    ensures { t.new ≡ nodes_tally (nodes_in nodes.entry) (length nodes.entry.kinds.now) t.old }
{
    for m in 0..nodes.kinds.len() as u32 {
        tally_node(nodes, t, m);
    }
}

// One more for the root of a live record.
#[tactic(auto, unfolding(audit_model::specs::Tallies::raise_root))]
pub fn raise_root(t: &mut [u32], v: Version)
    requires { Under 4000000000 t.old }
    ensures { t.new ≡ raise_root (record_of v) t.old }
{
    if v.live == 1 {
        raise_one(t, v.root);
    }
}

#[tactic(auto, unfolding(audit_model::specs::Tallies::roots_tally), using(crate::proofs::Raising::roots_tally_more))]
pub fn tally_versions(versions: &[Version; VERSIONS], t: &mut [u32])
    requires { Under max_nodes t.old }
    ensures { (t.new ≡ roots_tally version_count (record_at (records_of versions.now)) t.old) × Under (max_nodes + version_count) t.new }
{
    for v in versions {
        raise_root(t, *v);
    }
}

// Not one with the above: over any iterator of versions it would be longer than both.
#[tactic(auto, unfolding(audit_model::specs::Tallies::roots_tally), using(crate::proofs::Raising::roots_tally_more))]
pub fn tally_walks(walks: Walks, t: &mut [u32])
    requires { Under (max_nodes + version_count) t.old }
    ensures { (t.new ≡ roots_tally walk_count (walk_version walks.entry.numbers.now) t.old) × Under (max_nodes + version_count + walk_count) t.new }
{
    for n in 0..WALKS {
        raise_root(t, walks.version(n));
    }
}

// A node, and of kind free.
#[tactic(auto, unfolding(meaning::specs::Lent::is_free))]
pub fn is_free(kinds: &[u8], n: u32) -> bool
    ensures { result ≡ is_free (kinds_of kinds.now) n }
{
    kinds.get(n as usize) == Some(&FREE)
}

#[tactic(auto, using(crate::proofs::Raising::free_nodes_counted))]
pub fn count_free(kinds: &[u8]) -> u32
    requires { length kinds.now ≤ max_nodes }
    ensures { (result ≡ free_nodes (kinds_of kinds.now)) × (result ≤ max_nodes) }
{
    kinds.iter().filter(|kind| **kind == FREE).count() as u32
}

// One more for each of the first f places of the order, if each holds a free node. Places past its end hold 0.
#[tactic(auto, unfolding(audit_model::specs::Tallies::raise_to, audit_model::specs::Records::all_to), using(crate::proofs::Raising::raise_to_more, crate::proofs::Raising::all_to_more))]
pub fn tally_order(kinds: &[u8], order: &[u32], f: u32, t: &mut [u32]) -> bool
    requires { (f ≤ max_nodes) × Under 0 t.old }
    ensures { (result ≡ all_to f (λ (j : ℕ). is_free (kinds_of kinds.now) (get_or order.now j 0)))
        × (result ≡ true → (t.new ≡ raise_to f (λ (j : ℕ). get_or order.now j 0) t.old) × Under max_nodes t.new) }
{
    for j in 0..f {
        let x = audit_reads::at(order, j as usize, 0);
        let free = is_free(kinds, x);
        if !free {
            return false;
        }
        raise_one(t, x);
    }
    true
}

// One more for each link: from slots, walks and cells.
pub fn tally_links(lent: Lent, t: &mut [u32])
    requires { (length lent.nodes.kinds.now ≤ max_nodes) × Under max_nodes t.old }
    ensures { t.new ≡ nodes_tally (nodes_in lent.entry.nodes) (length lent.entry.nodes.kinds.now)
        (roots_tally walk_count (walk_version lent.entry.walks.numbers.now) (roots_tally version_count (record_at (records_of lent.entry.versions.now)) t.old)) }
{
    tally_versions(lent.versions, t);
    tally_walks(lent.walks, t);
    tally_nodes(lent.nodes, t);
}
