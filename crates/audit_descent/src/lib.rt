// The descent into a version, and the numbers that it needs.
#![tactic(auto)]

ghost use Rattle.std.specs.Prelude.{◌≡◌, true, false, ◌+◌, ◌-◌, ◌*◌, ◌^◌, ◌<◌, ◌≤◌, min};
ghost use Rattle.meaning.specs.Limits.{node_cells, max_length, length_bits};
ghost use Rattle.meaning.specs.WellFormed.{LegalBits};
ghost use Rattle.meaning.specs.Shape.{degree};
ghost use Rattle.audit_model.specs.Descent.{code, answer, leaf_ok, branch_ok, visit};
ghost use Rattle.audit_reads.specs.Slices.{nodes_in};
ghost use Rattle.audit_descent.specs.Descendable.{Descendable};

use audit_reads::Nodes;

// What a child of a node of that height holds when it is full.
pub fn capacity(bits: u32, height: u32) -> u32
    requires legal { LegalBits bits }
    requires shift { height * bits < length_bits }
    ensures { (result ≡ degree bits ^ height) × (result ≤ max_length) }
{
    1 << (height * bits)
}

// What child i holds of a node that holds size.
pub fn share(c: u32, size: u32, i: u32) -> u32
    requires { (c ≤ max_length) × (i < node_cells) }
    ensures { result ≡ min c (size - i * c) }
{
    c.min(size.saturating_sub(i * c))
}

// Whether a node of that kind and used number is a leaf of size elements.
#[tactic(auto, unfolding(audit_model::specs::Descent::leaf_ok))]
pub fn leaf_ok(kind: u32, used: u32, bits: u32, size: u32) -> bool
    requires { LegalBits bits }
    ensures { result ≡ leaf_ok kind used bits size }
{
    (kind == limits::words::LEAF) & (used == size) & (size <= shape::vector_utils::degree(bits))
}

// Whether it is a branch over size elements with children that hold c each. Then it has no more children than cells.
pub fn branch_ok(kind: u32, used: u32, bits: u32, c: u32, size: u32) -> bool
    requires { LegalBits bits × (used ≤ 255) × (c ≤ max_length) × (size ≤ max_length) }
    ensures { (result ≡ branch_ok kind used bits c size) × (result ≡ true → used ≤ node_cells) }
{
    let most = used * c;
    (kind == limits::words::BRANCH)
        & (used <= shape::vector_utils::degree(bits))
        & (size <= most)
        & (most < size + c)
}

// What a node is asked to be: the root of a tree of that height over so many elements.
#[derive(Clone, Copy)]
pub struct Tree {
    pub bits: u32,
    pub height: u32,
    pub size: u32,
    pub ghost descendable: { Descendable bits height size },
}

impl Tree {
    // The code under which a node is found right.
    pub fn mark(self) -> u32
        ensures { result ≡ code self.bits self.height self.size }
    {
        audit_model::code_of(self.bits, self.height, self.size)
    }

    // What a child holds when it is full.
    fn capacity(self) -> u32
        ensures { (result ≡ degree self.bits ^ self.height) × (result ≤ max_length) }
    {
        capacity(self.bits, self.height)
    }

    // What child i is asked to be, where a full one holds c.
    pub fn child(self, c: u32, i: u32) -> Tree
        requires { (0 < self.height) × (c ≤ max_length) × (i < node_cells) }
        ensures bits { result.bits ≡ self.bits }
        ensures height { result.height ≡ self.height - 1 }
        ensures size { result.size ≡ min c (self.size - i * c) }
    {
        Tree {
            bits: self.bits,
            height: self.height - 1,
            size: share(c, self.size, i),
        }
    }

    // Of the bytes that are lent.
    fn is_leaf(self, kind: u8, used: u8) -> bool
        ensures { result ≡ leaf_ok kind used self.bits self.size }
    {
        leaf_ok(kind as u32, used as u32, self.bits, self.size)
    }

    // The same, with children that hold c each.
    fn is_branch(self, kind: u8, used: u8, c: u32) -> bool
        requires { c ≤ max_length }
        ensures { (result ≡ branch_ok kind used self.bits c self.size) × (result ≡ true → used ≤ node_cells) }
    {
        branch_ok(kind as u32, used as u32, self.bits, c, self.size)
    }
}

// Whether a node is that tree; what is found right is marked, after its children. The slices go by reference: a copy for each node is slower.
#[tactic(auto, unfolding(audit_model::specs::Descent::visit, audit_model::specs::Descent::known, audit_model::specs::Descent::pick, audit_model::specs::Descent::go_on, audit_model::specs::Descent::marked))]
pub fn descend(nodes: &Nodes, codes: &mut [u32], tree: Tree, node: u32) -> bool
    ensures { answer result codes.new ≡ visit (nodes_in nodes.now) tree.bits tree.height tree.size node codes.old }
{
    let n = node as usize;
    if n >= nodes.kinds.len() {
        return false;
    }
    let mark = tree.mark();
    let found = audit_reads::at(codes, n, 0);
    if found == mark {
        return true;
    }
    let kind = nodes.kind(node);
    let used = nodes.used(node);
    if tree.height == 0 {
        if tree.is_leaf(kind, used) {
            audit_reads::put_at(codes, n, mark);
            return true;
        }
        return false;
    }
    let c = tree.capacity();
    if !tree.is_branch(kind, used, c) {
        return false;
    }
    for i in 0..used as u32 {
        if !descend(nodes, codes, tree.child(c, i), nodes.cell(node, i)) {
            return false;
        }
    }
    audit_reads::put_at(codes, n, mark);
    true
}
