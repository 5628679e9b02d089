// The numbers that a host and its plug-ins go by, a line each: the name in the header for C without its prefix, and the number.
#![tactic(auto)]

use limits::numbers::{DONE, Refusal};
use limits::operations::Operation;
use std::io;
use std::io::Print;

const SIZES: [(&str, usize); 13] = [
    ("MAX_NODES", limits::MAX_NODES),
    ("NODE_CELLS", limits::NODE_CELLS),
    ("PARTIES", limits::PARTIES as usize),
    ("SLOTS", limits::PARTY_SLOTS as usize),
    ("WALKS", limits::PARTY_WALKS as usize),
    ("VERSIONS", limits::VERSIONS),
    ("WALK_NUMBERS", limits::ALL_NUMBERS),
    ("WALK_LEVELS", limits::PLACES),
    ("DEFAULT_BITS", limits::DEFAULT_BITS as usize),
    ("MAX_BITS", limits::MAX_BITS as usize),
    ("MAX_LENGTH", limits::MAX_LENGTH as usize),
    ("FRAME_SIZE", limits::FRAME_SIZE),
    ("ANSWER_SIZE", limits::ANSWER_SIZE),
];

const OPERATIONS: [(&str, Operation); 17] = [
    ("NEW", Operation::New),
    ("CLONE", Operation::Clone),
    ("RELEASE", Operation::Release),
    ("LEN", Operation::Len),
    ("GET", Operation::Get),
    ("SET", Operation::Set),
    ("PUSH_BACK", Operation::PushBack),
    ("DROP_LAST", Operation::DropLast),
    ("OPEN_WALK", Operation::OpenWalk),
    ("NEXT", Operation::Next),
    ("NEXT_BACK", Operation::NextBack),
    ("CLOSE_WALK", Operation::CloseWalk),
    ("HAND_OVER", Operation::HandOver),
    ("FREE_NODES", Operation::FreeNodes),
    ("FIRST", Operation::First),
    ("LAST", Operation::Last),
    ("COMPARE", Operation::Compare),
];

const REFUSALS: [(&str, Refusal); 14] = [
    ("NO_PARTY", Refusal::NoParty),
    ("NO_OPERATION", Refusal::NoOperation),
    ("HOST_ONLY", Refusal::HostOnly),
    ("OUT_OF_RANGE", Refusal::OutOfRange),
    ("EMPTY_SOURCE", Refusal::EmptySource),
    ("LIVE_TARGET", Refusal::LiveTarget),
    ("BAD_BITS", Refusal::BadBits),
    ("NOTHING_THERE", Refusal::NothingThere),
    ("FULL", Refusal::Full),
    ("NO_NODES", Refusal::NoNodes),
    ("ILL_FORMED", Refusal::IllFormed),
    ("NO_ROOM", Refusal::NoRoom),
    ("RAGGED", Refusal::Ragged),
    ("NOT_A_FRAME", Refusal::NotAFrame),
];

fn main(rt: HostRuntime) -> io::Result<()> {
    for (name, size) in SIZES {
        println!(rt; "{name} {size}")?;
    }
    for (name, operation) in OPERATIONS {
        println!(rt; "{name} {}", u8::from(operation))?;
    }
    println!(rt; "DONE {DONE}")?;
    for (name, refusal) in REFUSALS {
        println!(rt; "{name} {}", u8::from(refusal))?;
    }
    Ok(())
}
