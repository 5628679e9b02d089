// The version and walk records of a lent state.
#![tactic(auto)]

ghost use Rattle.std.specs.Prelude.{◌≡◌, ◌<◌};
ghost use Rattle.meaning.specs.Limits.{version_count, walk_count};
ghost use Rattle.records.specs.Records.{record_of, records_of};
ghost use Rattle.audit_model.specs.Descent.{answer, through};
ghost use Rattle.audit_model.specs.Records.{version_step, walk_step};
ghost use Rattle.audit_model.specs.Audit.{record_at, records_ok};
ghost use Rattle.audit_reads.specs.Slices.{nodes_in, walks_in, lent_in};

use audit_descent::Tree;
use audit_reads::{Lent, Nodes, Walks};
use limits::{MAX_BITS, VERSIONS, WALKS};
use records::Version;

// An empty record is 0; a live one has legal numbers, and its root is descended into.
#[tactic(auto, unfolding(audit_model::specs::Records::version_step, audit_model::specs::Descent::pick, audit_model::specs::Records::empty_ok, audit_model::specs::Records::legal_ok))]
pub fn version_ok(nodes: Nodes, codes: &mut [u32], v: Version) -> bool
    ensures { answer result codes.new ≡ version_step (nodes_in nodes.entry) (record_of v) codes.old }
{
    if v.live == 0 {
        return (v.root == 0) & (v.bits == 0) & (v.length == 0);
    }
    let most = limits::max_length();
    let legal = (v.live == 1) & (1 <= v.bits) & (v.bits <= MAX_BITS) & (v.length <= most);
    if !legal {
        return false;
    }
    let tree = Tree {
        bits: v.bits,
        height: shape::height(v.bits, v.length),
        size: v.length,
    };
    audit_descent::descend(&nodes, codes, tree, v.root)
}

pub fn versions_ok(nodes: Nodes, codes: &mut [u32], versions: &[Version; VERSIONS]) -> bool
    ensures { answer result codes.new ≡ through version_count (λ i. version_step (nodes_in nodes.entry) (record_at (records_of versions.now) i)) codes.old }
{
    for v in versions {
        if !version_ok(nodes, codes, *v) {
            return false;
        }
    }
    true
}

// Its version is a record like a slot's, and the rest agrees with it.
#[tactic(auto, unfolding(audit_model::specs::Records::walk_step, audit_model::specs::Descent::go_on, meaning::specs::Lent::walk_record))]
pub fn walk_ok(nodes: Nodes, walks: Walks, codes: &mut [u32], n: usize) -> bool
    requires { n < walk_count }
    ensures { answer result codes.new ≡ walk_step (nodes_in nodes.entry) (walks_in walks.entry) n codes.old }
{
    let v = walks.version(n);
    if !version_ok(nodes, codes, v) {
        return false;
    }
    audit_walks::walk_agrees(nodes, walks, n, v)
}

pub fn walks_ok(nodes: Nodes, walks: Walks, codes: &mut [u32]) -> bool
    ensures { answer result codes.new ≡ through walk_count (walk_step (nodes_in nodes.entry) (walks_in walks.entry)) codes.old }
{
    for n in 0..WALKS {
        if !walk_ok(nodes, walks, codes, n) {
            return false;
        }
    }
    true
}

// All of them.
#[tactic(auto, unfolding(audit_model::specs::Audit::records_ok, audit_model::specs::Audit::versions_ok, audit_model::specs::Audit::walks_ok, audit_model::specs::Descent::go_on))]
pub fn records_ok(lent: Lent, codes: &mut [u32]) -> bool
    ensures { answer result codes.new ≡ records_ok (lent_in lent.entry) codes.old }
{
    if !versions_ok(lent.nodes, codes, lent.versions) {
        return false;
    }
    walks_ok(lent.nodes, lent.walks, codes)
}
