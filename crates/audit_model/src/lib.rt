// What the audit computes stands in specs/, that it decides well-formedness in proofs/. What runs is how a code is packed.
#![tactic(auto)]

ghost use Rattle.std.specs.Prelude.{◌≡◌, ◌<◌, ◌≤◌};
ghost use Rattle.meaning.specs.Limits.{max_bits, max_length, walk_levels};
ghost use Rattle.audit_model.specs.Descent.{code};

// Room in a code for a height, and for a size.
const HEIGHTS: u32 = 32;

const SIZES: u32 = 2097152;

#[tactic(auto, unfolding(crate::specs::Descent::code))]
pub fn code_of(bits: u32, height: u32, size: u32) -> u32
    requires { (bits ≤ max_bits) × (height < walk_levels) × (size ≤ max_length) }
    ensures { result ≡ code bits height size }
{
    (bits * HEIGHTS + height) * SIZES + size
}
