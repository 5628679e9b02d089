// The numbers given back.
ghost use Rattle.std.specs.Prelude.{◌≡◌, [], ◌∷◌, Result};
ghost use Rattle.meaning.specs.Limits.{done_number, no_party_number, no_operation_number, host_only_number, out_of_range_number, empty_source_number, live_target_number, bad_bits_number, nothing_there_number, full_number, no_nodes_number, ill_formed_number, no_room_number, ragged_number, not_a_frame_number};
ghost use Rattle.limits.specs.Refusals.{number_of, outcome_number};

// The number of what is not refused.
pub const DONE: u8 = 0;

// Why a frame, a batch or a line is refused, each by its number.
#[derive(Clone, Copy, Debug, PartialEq, Eq)]
pub enum Refusal {
    NoParty = 1,
    NoOperation = 2,
    HostOnly = 3,
    OutOfRange = 4,
    EmptySource = 5,
    LiveTarget = 6,
    BadBits = 7,
    NothingThere = 8,
    Full = 9,
    NoNodes = 10,
    IllFormed = 11,
    NoRoom = 12,
    Ragged = 13,
    NotAFrame = 14,
}

impl From<Refusal> for u8 {
    ghost from_gives = { λ refusal number. number ≡ number_of refusal };

    fn from(refusal: Refusal) -> u8 {
        refusal as u8
    }
}

// What an answer or a report tells of an outcome.
pub fn of_outcome<T: Copy>(outcome: Result<T, Refusal>) -> u8
    ensures { result ≡ outcome_number outcome }
{
    match outcome {
        Ok(_) => DONE,
        Err(refusal) => u8::from(refusal),
    }
}

// All of them, in their order.
pub fn all() -> [u8; 15]
    ensures { result ≡ done_number ∷ no_party_number ∷ no_operation_number ∷ host_only_number ∷ out_of_range_number ∷ empty_source_number
        ∷ live_target_number ∷ bad_bits_number ∷ nothing_there_number ∷ full_number ∷ no_nodes_number ∷ ill_formed_number
        ∷ no_room_number ∷ ragged_number ∷ not_a_frame_number ∷ [] }
{
    [
        DONE,
        u8::from(Refusal::NoParty),
        u8::from(Refusal::NoOperation),
        u8::from(Refusal::HostOnly),
        u8::from(Refusal::OutOfRange),
        u8::from(Refusal::EmptySource),
        u8::from(Refusal::LiveTarget),
        u8::from(Refusal::BadBits),
        u8::from(Refusal::NothingThere),
        u8::from(Refusal::Full),
        u8::from(Refusal::NoNodes),
        u8::from(Refusal::IllFormed),
        u8::from(Refusal::NoRoom),
        u8::from(Refusal::Ragged),
        u8::from(Refusal::NotAFrame),
    ]
}
