// The degree of a version, and the bucket of an index at a height.
ghost use Rattle.std.specs.Prelude.{◌≡◌, ◌*◌, ◌<◌, ◌≤◌};
ghost use Rattle.meaning.specs.Limits.{node_cells, word_width};
ghost use Rattle.meaning.specs.Shape.{degree, mask, bucket};
ghost use Rattle.meaning.specs.WellFormed.{LegalBits};

pub fn degree(bits: u32) -> u32
    requires { LegalBits bits }
    ensures value { result ≡ degree bits }
    ensures bounds { (2 ≤ result) × (result ≤ node_cells) }
{
    1 << bits
}

#[tactic(auto, unfolding(meaning::specs::Shape::mask))]
pub fn mask(bits: u32) -> u32
    requires { LegalBits bits }
    ensures { result ≡ mask bits }
{
    degree(bits) - 1
}

// Every index, and every height whose shift is below the word width.
pub fn bucket(bits: u32, index: u32, height: u32) -> u32
    requires legal { LegalBits bits }
    requires shift { height * bits < word_width }
    ensures value { result ≡ bucket bits height index }
    ensures cell { result < node_cells }
{
    (index >> (height * bits)) & mask(bits)
}
