// The operations by their numbers.
ghost use Rattle.std.specs.Prelude.{◌≡◌, [], ◌∷◌};
ghost use Rattle.meaning.specs.Limits.{new_code, clone_code, release_code, len_code, get_code, set_code, push_back_code, drop_last_code, open_walk_code, next_code, next_back_code, close_walk_code, hand_over_code, free_nodes_code, first_code, last_code, compare_code};
ghost use Rattle.limits.specs.Operations.{code_of, Decodes};

use crate::numbers::Refusal;

#[derive(Clone, Copy, Debug, PartialEq, Eq)]
pub enum Operation {
    New = 0x00,
    Clone = 0x01,
    Release = 0x02,
    Len = 0x03,
    Get = 0x04,
    Set = 0x05,
    PushBack = 0x06,
    DropLast = 0x07,
    OpenWalk = 0x08,
    Next = 0x09,
    NextBack = 0x0A,
    CloseWalk = 0x0B,
    HandOver = 0x0C,
    FreeNodes = 0x0D,
    First = 0x0E,
    Last = 0x0F,
    Compare = 0x10,
}

impl From<Operation> for u8 {
    ghost from_gives = { λ operation code. code ≡ code_of operation };

    fn from(operation: Operation) -> u8 {
        operation as u8
    }
}

impl TryFrom<u8> for Operation {
    type Error = Refusal;

    ghost try_from_gives = { Decodes };

    fn try_from(code: u8) -> Result<Operation, Refusal> {
        match code {
            0x00 => Ok(Operation::New),
            0x01 => Ok(Operation::Clone),
            0x02 => Ok(Operation::Release),
            0x03 => Ok(Operation::Len),
            0x04 => Ok(Operation::Get),
            0x05 => Ok(Operation::Set),
            0x06 => Ok(Operation::PushBack),
            0x07 => Ok(Operation::DropLast),
            0x08 => Ok(Operation::OpenWalk),
            0x09 => Ok(Operation::Next),
            0x0A => Ok(Operation::NextBack),
            0x0B => Ok(Operation::CloseWalk),
            0x0C => Ok(Operation::HandOver),
            0x0D => Ok(Operation::FreeNodes),
            0x0E => Ok(Operation::First),
            0x0F => Ok(Operation::Last),
            0x10 => Ok(Operation::Compare),
            _ => Err(Refusal::NoOperation),
        }
    }
}

pub const NEW: u8 = Operation::New as u8;

pub const CLONE: u8 = Operation::Clone as u8;

pub const RELEASE: u8 = Operation::Release as u8;

pub const LEN: u8 = Operation::Len as u8;

pub const GET: u8 = Operation::Get as u8;

pub const SET: u8 = Operation::Set as u8;

pub const PUSH_BACK: u8 = Operation::PushBack as u8;

pub const DROP_LAST: u8 = Operation::DropLast as u8;

pub const OPEN_WALK: u8 = Operation::OpenWalk as u8;

pub const NEXT: u8 = Operation::Next as u8;

pub const NEXT_BACK: u8 = Operation::NextBack as u8;

pub const CLOSE_WALK: u8 = Operation::CloseWalk as u8;

pub const HAND_OVER: u8 = Operation::HandOver as u8;

pub const FREE_NODES: u8 = Operation::FreeNodes as u8;

pub const FIRST: u8 = Operation::First as u8;

pub const LAST: u8 = Operation::Last as u8;

pub const COMPARE: u8 = Operation::Compare as u8;

// All of them, in their order.
pub fn all() -> [u8; 17]
    ensures { result ≡ new_code ∷ clone_code ∷ release_code ∷ len_code ∷ get_code ∷ set_code
        ∷ push_back_code ∷ drop_last_code ∷ open_walk_code ∷ next_code ∷ next_back_code ∷ close_walk_code
        ∷ hand_over_code ∷ free_nodes_code ∷ first_code ∷ last_code ∷ compare_code ∷ [] }
{
    [
        NEW, CLONE, RELEASE, LEN, GET, SET, PUSH_BACK, DROP_LAST, OPEN_WALK, NEXT, NEXT_BACK,
        CLOSE_WALK, HAND_OVER, FREE_NODES, FIRST, LAST, COMPARE,
    ]
}
