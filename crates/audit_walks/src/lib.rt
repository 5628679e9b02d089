// Whether the levels of a walk are what its numbers say.
#![tactic(auto)]

ghost use Rattle.std.specs.Prelude.{◌≡◌, ◌+◌, ◌*◌, ◌-◌, ◌<◌};
ghost use Rattle.meaning.specs.Limits.{walk_count, length_bits};
ghost use Rattle.meaning.specs.WellFormed.{LegalBits};
ghost use Rattle.records.specs.Records.{record_of};
ghost use Rattle.audit_model.specs.Made.{walk_version};
ghost use Rattle.audit_model.specs.Records.{way_ok, blank_from, stack_ok, walk_agrees};
ghost use Rattle.audit_reads.specs.Slices.{walks_in};
ghost use Rattle.audit_walks.specs.Walkable.{Found, Walkable};

use audit_reads::{Nodes, Walks};
use limits::WALK_LEVELS;
use records::Version;

// Whether the levels of a stack from start upwards are 0.
pub fn blank_from(walks: Walks, stack: usize, start: usize) -> bool
    requires { stack < 2 * walk_count }
    ensures { result ≡ blank_from walks.entry.nodes.now walks.entry.indices.now stack start }
{
    for k in start..WALK_LEVELS {
        if !walks.level_is(WALK_LEVELS * stack + k, 0, 0) {
            return false;
        }
    }
    true
}

// Whether the levels of a stack are the way from a root to the element at an index.
#[tactic(auto, unfolding(audit_model::specs::Records::way_ok, audit_model::specs::Records::level_is))]
pub fn way_ok(
    nodes: Nodes,
    walks: Walks,
    stack: usize,
    bits: u32,
    height: u32,
    root: u32,
    index: u32,
) -> bool
    requires { (stack < 2 * walk_count) × LegalBits bits × (height * bits < length_bits) }
    ensures { result ≡ way_ok nodes.entry.cells.now walks.entry.nodes.now walks.entry.indices.now stack bits height root index }
{
    let leaf = WALK_LEVELS * stack;
    let mut n = root;
    for k in (1..=height).rev() {
        let b = shape::vector_utils::bucket(bits, index, k);
        if !walks.level_is(leaf + k as usize, n, b) {
            return false;
        }
        n = nodes.cell(n, b);
    }
    let b = shape::vector_utils::bucket(bits, index, 0);
    walks.level_is(leaf, n, b)
}

// Whether a stack is right: none before anything is taken or when all is, and else the way to what comes next.
#[tactic(auto, unfolding(audit_model::specs::Records::stack_ok))]
pub fn stack_ok(
    nodes: Nodes,
    walks: Walks,
    stack: usize,
    v: Version,
    taken: u32,
    index: u32,
) -> bool
    requires { Walkable (record_of v) taken stack }
    ensures { result ≡ stack_ok nodes.entry.cells.now walks.entry.nodes.now walks.entry.indices.now stack (record_of v) taken index }
{
    let none = (taken == 0) | (taken == v.length);
    if none {
        return blank_from(walks, stack, 0);
    }
    let height = shape::height(v.bits, v.length);
    if !way_ok(nodes, walks, stack, v.bits, height, v.root, index) {
        return false;
    }
    blank_from(walks, stack, height as usize + 1)
}

// Whether a walk of a version that was found right agrees with its taken numbers from each end.
#[tactic(auto, unfolding(audit_model::specs::Records::walk_agrees, meaning::specs::Lent::walk_record))]
pub fn walk_agrees(nodes: Nodes, walks: Walks, n: usize, v: Version) -> bool
    requires { (n < walk_count) × (record_of v ≡ walk_version walks.numbers.now n) × Found (record_of v) }
    ensures { result ≡ walk_agrees nodes.entry.cells.now (walks_in walks.entry) n }
{
    let front = walks.number(n, 4);
    let back = walks.number(n, 5);
    if front > v.length {
        return false;
    }
    if back > v.length - front {
        return false;
    }
    if !stack_ok(nodes, walks, 2 * n, v, front, front) {
        return false;
    }
    let last = v.length.saturating_sub(1).saturating_sub(back);
    stack_ok(nodes, walks, 2 * n + 1, v, back, last)
}
