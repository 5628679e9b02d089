// A frame and its answer, by value and as bytes.
#![tactic(auto)]

ghost use Rattle.std.specs.Prelude.{◌≡◌, ◌+◌, ◌^◌, ◌≤◌, ◌<◌, length, take, drop};
ghost use Rattle.meaning.specs.Limits.{frame_size, answer_size, done_number};
ghost use Rattle.meaning.specs.Frames.{from_bytes, encode};
ghost use Rattle.limits.specs.Refusals.{number_of};
ghost use Rattle.requests.specs.Requests.{frame_of, answer_of, answer_with, frame_place, answer_place, frame_in, put};

use limits::numbers::{DONE, Refusal};
use limits::{ANSWER_SIZE, FRAME_SIZE};

// A request of one call. What its fields name is for the operation to say.
#[derive(Clone, Copy, PartialEq, Eq, Debug)]
pub struct Frame {
    pub party: u8,
    pub operation: u8,
    pub slot: u8,
    pub destination: u8,
    pub index: u32,
    pub value: u32,
}

#[derive(Clone, Copy, PartialEq, Eq, Debug)]
pub struct Answer {
    pub number: u8,
    pub fresh: u8,
    pub value: u32,
}

impl Answer {
    pub fn done(fresh: u8, value: u32) -> Answer
        ensures { result ≡ answer_with done_number fresh value }
    {
        Answer {
            number: DONE,
            fresh,
            value,
        }
    }

    pub fn refused(refusal: Refusal) -> Answer
        ensures { result ≡ answer_with (number_of refusal) 0 0 }
    {
        Answer {
            number: u8::from(refusal),
            fresh: 0,
            value: 0,
        }
    }
}

// The number whose 4 bytes stand at a place.
pub fn number_at(requests: &[u8], at: usize) -> u32
    requires { at + 4 ≤ length requests.now }
    ensures { result ≡ from_bytes (take 4 (drop at requests.now)) 0 }
{
    u32::from_be_bytes([
        requests[at],
        requests[at + 1],
        requests[at + 2],
        requests[at + 3],
    ])
}

// Where the kth frame begins among the requests; not one function with `answer_place`, of a const parameter, since each caller would name the size.
pub fn frame_place(k: usize) -> usize
    requires { frame_place k < 2 ^ 64 }
    ensures { result ≡ frame_place k }
{
    FRAME_SIZE * k
}

// Where the kth answer begins in the room.
pub fn answer_place(k: usize) -> usize
    requires { answer_place k < 2 ^ 64 }
    ensures { result ≡ answer_place k }
{
    ANSWER_SIZE * k
}

// The kth frame of the requests.
pub fn frame_at(requests: &[u8], k: usize) -> Frame
    requires { frame_place k + frame_size ≤ length requests.now }
    ensures { frame_of result ≡ frame_in requests.now k }
{
    let at = frame_place(k);
    let index = number_at(requests, at + 4);
    let value = number_at(requests, at + 8);
    Frame {
        party: requests[at],
        operation: requests[at + 1],
        slot: requests[at + 2],
        destination: requests[at + 3],
        index,
        value,
    }
}

// The kth answer written to its 6 bytes; all else stays.
pub fn put_answer(room: &mut [u8], k: usize, a: Answer)
    requires { answer_place k + answer_size ≤ length room.old }
    ensures { room.new ≡ put room.old (answer_place k) (encode (answer_of a)) }
{
    let at = answer_place(k);
    let [first, second, third, last] = a.value.to_be_bytes();
    // Stored one by one and before the others, the 4 bytes become one store; by `copy_from_slice` all 6 go over the stack.
    room[at + 2] = first;
    room[at + 3] = second;
    room[at + 4] = third;
    room[at + 5] = last;
    room[at] = a.number;
    room[at + 1] = a.fresh;
}
