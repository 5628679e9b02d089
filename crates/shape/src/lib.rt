// Module 1: the height of a version, and whether its root is full.
#![tactic(auto)]

pub mod form;
pub mod vector_utils;

ghost use Rattle.std.specs.Prelude.{◌≡◌, ◌*◌, ◌<◌, ◌≤◌};
ghost use Rattle.meaning.specs.Limits.{length_bits, walk_levels};
ghost use Rattle.meaning.specs.Shape.{height, root_max_capacity, is_root_full};
ghost use Rattle.shape.specs.Legal.{Legal};

// The bounds: a walk has room for the height, and a bucket at it shifts by less than the word width.
pub fn height(bits: u32, length: u32) -> u32
    requires { Legal bits length }
    ensures value { result ≡ height bits length }
    ensures bounds { (result < walk_levels) × (result * bits < length_bits) }
{
    if length > 1 {
        let u = length - 1;
        let c = limits::WORD_WIDTH - u.leading_zeros();
        c.div_ceil(bits) - 1
    } else {
        0
    }
}

// The elements that the root has room for: within a word, by our limits.
pub fn root_max_capacity(bits: u32, length: u32) -> u32
    requires { Legal bits length }
    ensures value { result ≡ root_max_capacity bits length }
    ensures holds { length ≤ result }
{
    1 << (bits * (height(bits, length) + 1))
}

#[tactic(auto, unfolding(meaning::specs::Shape::is_root_full))]
pub fn is_root_full(bits: u32, length: u32) -> bool
    requires { Legal bits length }
    ensures { result ≡ is_root_full bits length }
{
    length == root_max_capacity(bits, length)
}
