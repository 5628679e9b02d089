// Numbers and records that functions hand on by value.
#![tactic(auto)]

ghost use Rattle.std.specs.Prelude.{◌≡◌};
ghost use Rattle.meaning.specs.Limits.{default_bits};
ghost use Rattle.meaning.specs.Lent.{empty_record};
ghost use Rattle.records.specs.Records.{record_of, live_version, lengthened};

// The number of a node.
#[derive(Clone, Copy, PartialEq, Eq)]
pub struct NodeNo(pub u32);

// The number of a version slot among all 64: another kind of number than a node's. Only the test that neither stands for the other makes one.
#[derive(Clone, Copy, PartialEq, Eq)]
pub struct SlotNo(pub u32);

// A version record. Any numbers may stand in a lent one; the audit says which are legal.
#[repr(C)]
#[derive(Clone, Copy, Default, PartialEq, Eq)]
pub struct Version {
    pub live: u32,
    pub root: u32,
    pub bits: u32,
    pub length: u32,
}

impl Version {
    pub const DEFAULT_BITS: u32 = limits::DEFAULT_BITS;

    // The record of an empty slot.
    pub fn empty() -> Version
        ensures { record_of result ≡ empty_record }
    {
        Version::default()
    }

    // The version of no elements, over an empty leaf.
    pub fn new_with_bits(bits: u32, root: NodeNo) -> Version
        ensures { result ≡ live_version root.0 bits 0 }
    {
        Version {
            live: 1,
            root: root.0,
            bits,
            length: 0,
        }
    }

    // The same, of the default bits.
    pub fn new(root: NodeNo) -> Version
        ensures { result ≡ live_version root.0 default_bits 0 }
    {
        Version::new_with_bits(Version::DEFAULT_BITS, root)
    }

    // The same root and bits, of another length.
    pub fn with_length(self, length: u32) -> Version
        ensures { result ≡ lengthened self length }
    {
        Version { length, ..self }
    }
}
