// The form of a tree: what its nodes have in common, and how high its root is.
ghost use Rattle.std.specs.Prelude.{◌≡◌, ◌*◌, ◌-◌, ◌<◌};
ghost use Rattle.meaning.specs.Limits.{node_cells, word_width};
ghost use Rattle.meaning.specs.Shape.{height, bucket};
ghost use Rattle.meaning.specs.WellFormed.{LegalBits};
ghost use Rattle.shape.specs.Legal.{Legal};

use crate::vector_utils;

#[derive(Clone, Copy, PartialEq, Eq)]
pub struct Form {
    pub bits: u32,
    pub height: u32,
    pub ghost legal: { LegalBits bits },
    pub ghost shift: { height * bits < word_width },
}

impl Form {
    // That of a version.
    pub fn of(bits: u32, length: u32) -> Form
        requires { Legal bits length }
        ensures bits { result.bits ≡ bits }
        ensures height { result.height ≡ height bits length }
    {
        Form {
            bits,
            height: crate::height(bits, length),
        }
    }

    // That of a child of the root.
    pub fn child(self) -> Form
        requires { 0 < self.height }
        ensures bits { result.bits ≡ self.bits }
        ensures height { result.height ≡ self.height - 1 }
    {
        Form {
            bits: self.bits,
            height: self.height - 1,
        }
    }

    // The bucket of an index in the root.
    pub fn bucket(self, index: u32) -> u32
        ensures value { result ≡ bucket self.bits self.height index }
        ensures cell { result < node_cells }
    {
        vector_utils::bucket(self.bits, index, self.height)
    }
}
