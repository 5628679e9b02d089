// The sizes and limits of document 01, each declared once and proved to be what `meaning` calls by its name.
#![tactic(auto)]

pub mod numbers;
pub mod operations;
pub mod words;

ghost use Rattle.std.specs.Prelude.{◌≡◌, [], ◌∷◌};
ghost use Rattle.meaning.specs.Limits.{max_nodes, node_cells, free_kind, leaf_kind, branch_kind, last_party, last_slot, last_walk, parties, party_slots, party_walks, version_count, walk_count, host, max_bits, default_bits, length_bits, max_length, word_width, walk_levels, walk_numbers, all_numbers, places, frame_size, answer_size, last_operation, program_nodes};

// ---- nodes

pub const MAX_NODES: usize = 65536;

pub const NODE_CELLS: usize = 32;

// The kinds of a node.
pub const FREE: u8 = 0;

pub const LEAF: u8 = 1;

pub const BRANCH: u8 = 2;

// ---- parties, and the version slots and walks of each

pub const LAST_PARTY: u8 = 7;

pub const LAST_SLOT: u8 = 7;

pub const LAST_WALK: u8 = 1;

pub const PARTIES: u8 = LAST_PARTY + 1;

pub const PARTY_SLOTS: u8 = LAST_SLOT + 1;

pub const PARTY_WALKS: u8 = LAST_WALK + 1;

// The version records and the walk records of all parties.
pub const VERSIONS: usize = PARTIES as usize * PARTY_SLOTS as usize;

pub const WALKS: usize = PARTIES as usize * PARTY_WALKS as usize;

pub const HOST: u8 = 0;

// ---- versions and walks

pub const MAX_BITS: u32 = 5;

pub const DEFAULT_BITS: u32 = 5;

// The limit of lengths is a power of 2; this is the one place that says which.
pub const LENGTH_BITS: u32 = 15;

pub const MAX_LENGTH: u32 = 1 << LENGTH_BITS;

// The bits of a value, an index or a length.
pub const WORD_WIDTH: u32 = 32;

// The levels in each of a walk's two stacks.
pub const WALK_LEVELS: usize = LENGTH_BITS as usize;

// The numbers of a walk record beside its levels.
pub const WALK_NUMBERS: usize = 6;

// The numbers of all walks, and the places for levels in the two stacks of each.
pub const ALL_NUMBERS: usize = WALKS * WALK_NUMBERS;

pub const PLACES: usize = WALKS * (2 * WALK_LEVELS);

// ---- requests

pub const FRAME_SIZE: usize = 12;

pub const ANSWER_SIZE: usize = 6;

pub const LAST_OPERATION: u8 = operations::Operation::Compare as u8;

// The nodes of the program's state.
pub const PROGRAM_NODES: usize = 256;

// ---- what they are

// All of the above, in their order: a constant has no contract of its own.
pub fn all() -> [usize; 27]
    ensures { result ≡ max_nodes ∷ node_cells ∷ free_kind ∷ leaf_kind ∷ branch_kind
        ∷ last_party ∷ last_slot ∷ last_walk ∷ parties ∷ party_slots ∷ party_walks ∷ version_count ∷ walk_count ∷ host
        ∷ max_bits ∷ default_bits ∷ length_bits ∷ max_length ∷ word_width ∷ walk_levels ∷ walk_numbers ∷ all_numbers ∷ places
        ∷ frame_size ∷ answer_size ∷ last_operation ∷ program_nodes ∷ [] }
{
    [
        MAX_NODES,
        NODE_CELLS,
        FREE as usize,
        LEAF as usize,
        BRANCH as usize,
        LAST_PARTY as usize,
        LAST_SLOT as usize,
        LAST_WALK as usize,
        PARTIES as usize,
        PARTY_SLOTS as usize,
        PARTY_WALKS as usize,
        VERSIONS,
        WALKS,
        HOST as usize,
        MAX_BITS as usize,
        DEFAULT_BITS as usize,
        LENGTH_BITS as usize,
        MAX_LENGTH as usize,
        WORD_WIDTH as usize,
        WALK_LEVELS,
        WALK_NUMBERS,
        ALL_NUMBERS,
        PLACES,
        FRAME_SIZE,
        ANSWER_SIZE,
        LAST_OPERATION as usize,
        PROGRAM_NODES,
    ]
}

// The limit of lengths, for code that is proved over it and not over its number.
pub fn max_length() -> u32
    ensures { result ≡ max_length }
{
    MAX_LENGTH
}
