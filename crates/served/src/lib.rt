// The answers of the vector's calls as those of frames, with document 01's numbers.
#![tactic(auto)]

ghost use Rattle.std.specs.Prelude.{◌≡◌};
ghost use Rattle.limits.specs.Refusals.{number_of};
ghost use Rattle.vector.specs.Calls.{refusal_number};
ghost use Rattle.served.specs.Served.{refused_with, answered_with, served_done, edited_with, got_with, ordered_with};

use limits::numbers::Refusal;
use records::Version;
use requests::Answer;
use std::cmp::Ordering;
use vector::{Edit, Refused};

// What a frame is answered, how many nodes are free then, and what stands in the one version record that it may change.
#[derive(Clone, Copy)]
pub struct Served {
    pub answer: Answer,
    pub free: usize,
    pub version: Version,
}

// With any number, as an answer has it.
pub fn refused(number: u8, free: usize, old: Version) -> Served
    ensures { result ≡ refused_with number free old }
{
    Served {
        answer: Answer {
            number,
            fresh: 0,
            value: 0,
        },
        free,
        version: old,
    }
}

pub fn refused_by(refusal: Refusal, free: usize, old: Version) -> Served
    ensures { result ≡ refused_with (number_of refusal) free old }
{
    refused(u8::from(refusal), free, old)
}

pub fn answered(value: u32, free: usize, version: Version) -> Served
    ensures { result ≡ answered_with value free version }
{
    Served {
        answer: Answer::done(0, value),
        free,
        version,
    }
}

fn done(e: Edit, free: usize) -> Served
    ensures { result ≡ served_done e free }
{
    // No call copies so many nodes that a byte is too small for them.
    let fresh = (e.copied % 256) as u8;
    Served {
        answer: Answer::done(fresh, 0),
        free,
        version: e.version,
    }
}

fn refusal_of(r: Refused) -> Refusal
    ensures { number_of result ≡ refusal_number r }
{
    match r {
        Refused::BadBits => Refusal::BadBits,
        Refused::NothingThere => Refusal::NothingThere,
        Refused::Full => Refusal::Full,
        Refused::NoNodes => Refusal::NoNodes,
    }
}

// With as many nodes free as the call left.
pub fn of_edited(e: Result<Edit, Refused>, free: usize, old: Version) -> Served
    ensures { result ≡ edited_with e free old }
{
    match e {
        Ok(edit) => done(edit, free),
        Err(r) => refused_by(refusal_of(r), free, old),
    }
}

pub fn of_got(g: Option<u32>, free: usize, old: Version) -> Served
    ensures { result ≡ got_with g free old }
{
    match g {
        Some(x) => answered(x, free, old),
        None => refused_by(Refusal::NothingThere, free, old),
    }
}

#[tactic(auto, unfolding(meaning::specs::Effects::signed))]
pub fn of_ordering(o: Ordering, free: usize, old: Version) -> Served
    ensures { result ≡ ordered_with o free old }
{
    match o {
        Ordering::Less => answered(u32::MAX, free, old),
        Ordering::Equal => answered(0, free, old),
        Ordering::Greater => answered(1, free, old),
    }
}
