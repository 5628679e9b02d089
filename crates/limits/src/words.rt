// Some of them again, as wide as the words that code compares them with.
pub const NODE_CELLS: u32 = crate::NODE_CELLS as u32;

pub const FREE: u32 = crate::FREE as u32;

pub const LEAF: u32 = crate::LEAF as u32;

pub const BRANCH: u32 = crate::BRANCH as u32;

pub const LAST_PARTY: u32 = crate::LAST_PARTY as u32;

pub const PARTIES: u32 = crate::PARTIES as u32;
