// The frame checks 1 to 6, by what an operation uses, and whose slots and walks a frame names.
#![tactic(auto)]

ghost use Rattle.std.specs.Prelude.{◌≡◌, Ok};
ghost use Rattle.meaning.specs.Operations as meaning;
ghost use Rattle.meaning.specs.Operations.{op_of};
ghost use Rattle.meaning.specs.Checks.{entry_checks, first_of};
ghost use Rattle.limits.specs.Refusals.{outcome_number};
ghost use Rattle.limits.specs.Operations.{code_of, op_named};
ghost use Rattle.requests.specs.Requests.{frame_of};
ghost use Rattle.refusals.specs.Uses.{standing_of, uses_in, last_of, later_number};

use limits::numbers::Refusal;
use limits::operations::Operation;
use limits::{HOST, LAST_PARTY, LAST_SLOT, LAST_WALK, words};
use requests::Frame;

// ---- what an operation uses

#[derive(Clone, Copy)]
struct Uses {
    // The slot field names a slot that must be live.
    source: bool,
    // The slot field names a walk that must be open.
    walked: bool,
    // The destination field names a slot that must be empty.
    filled: bool,
    // The destination field names a walk that must be closed.
    opened: bool,
    // The destination field names a second slot that must be live.
    other: bool,
    // The index and value fields name parties in the caller's place.
    owners: bool,
    host_alone: bool,
}

const NOTHING: Uses = Uses {
    source: false,
    walked: false,
    filled: false,
    opened: false,
    other: false,
    owners: false,
    host_alone: false,
};

#[tactic(auto, unfolding(meaning::specs::Operations::uses, meaning::specs::Operations::anyone, meaning::specs::Operations::host_alone))]
fn uses_of(operation: Operation) -> Uses
    ensures { result ≡ uses_in (op_named operation) }
{
    match operation {
        Operation::New => Uses {
            filled: true,
            ..NOTHING
        },
        Operation::Release | Operation::Len | Operation::Get | Operation::First | Operation::Last =>
            Uses {
                source: true,
                ..NOTHING
            },
        Operation::Clone | Operation::Set | Operation::PushBack | Operation::DropLast => Uses {
            source: true,
            filled: true,
            ..NOTHING
        },
        Operation::OpenWalk => Uses {
            source: true,
            opened: true,
            ..NOTHING
        },
        Operation::Next | Operation::NextBack | Operation::CloseWalk => Uses {
            walked: true,
            ..NOTHING
        },
        Operation::HandOver => Uses {
            source: true,
            filled: true,
            owners: true,
            host_alone: true,
            ..NOTHING
        },
        Operation::FreeNodes => Uses {
            host_alone: true,
            ..NOTHING
        },
        Operation::Compare => Uses {
            source: true,
            other: true,
            ..NOTHING
        },
    }
}

// ---- whose slots and walks a frame names

// The party whose slot or walk is read; the caller, but for a hand-over.
pub fn giver(f: Frame) -> u32
    ensures { result ≡ meaning.giver (frame_of f) }
{
    if f.operation == u8::from(Operation::HandOver) {
        return f.index;
    }
    u32::from(f.party)
}

// The party whose slot or walk is changed.
pub fn taker(f: Frame) -> u32
    ensures { result ≡ meaning.taker (frame_of f) }
{
    if f.operation == u8::from(Operation::HandOver) {
        return f.value;
    }
    u32::from(f.party)
}

// ---- the checks

// What stands where a frame's slot and destination fields point.
#[derive(Clone, Copy)]
pub struct Standing {
    pub source_live: bool,
    pub target_live: bool,
    pub walk_open: bool,
    pub opened_open: bool,
}

// The last walk or slot that a field can name.
fn last(walk: bool) -> u8
    ensures { result ≡ last_of walk }
{
    if walk { LAST_WALK } else { LAST_SLOT }
}

// The checks 3 to 6. By `&` and `|`, since what an operation uses is no pattern that a branch could learn.
fn check_fields(uses: Uses, f: Frame, standing: Standing) -> Result<(), Refusal>
    ensures { outcome_number result ≡ later_number uses (frame_of f) standing }
{
    let host_only = uses.host_alone & (f.party != HOST);
    let out_of_range = ((uses.source | uses.walked) & (last(uses.walked) < f.slot))
        | ((uses.filled | uses.opened | uses.other) & (last(uses.opened) < f.destination))
        | (uses.owners & (words::LAST_PARTY < f.index))
        | (uses.owners & (words::LAST_PARTY < f.value));
    let empty_source = (uses.source & !standing.source_live)
        | (uses.walked & !standing.walk_open)
        | (uses.other & !standing.target_live);
    let live_target = (uses.filled & standing.target_live) | (uses.opened & standing.opened_open);
    if host_only {
        return Err(Refusal::HostOnly);
    }
    if out_of_range {
        return Err(Refusal::OutOfRange);
    }
    if empty_source {
        return Err(Refusal::EmptySource);
    }
    if live_target {
        return Err(Refusal::LiveTarget);
    }
    Ok(())
}

// The operation of a frame that passes the checks 1 to 6, or the first of them that applies.
pub fn check(f: Frame, standing: Standing) -> Result<Operation, Refusal>
    ensures number { outcome_number result ≡ first_of (entry_checks (op_of (frame_of f)) (frame_of f) (standing_of standing)) }
    ensures operation { (o : Operation) → result ≡ Ok o → code_of o ≡ f.operation }
{
    if LAST_PARTY < f.party {
        return Err(Refusal::NoParty);
    }
    let operation = Operation::try_from(f.operation)?;
    check_fields(uses_of(operation), f, standing)?;
    Ok(operation)
}
