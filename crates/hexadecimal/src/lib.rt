// Hexadecimal in capitals: a frame from its digits, and an answer as a line.
#![tactic(auto)]

ghost use Rattle.std.specs.Prelude.{◌≡◌, true, ◌+◌, ◌≤◌, ◌<◌, length};
ghost use Rattle.std.proofs.Math.Seq.{paste};
ghost use Rattle.meaning.specs.Limits.{frame_size, answer_size};
ghost use Rattle.meaning.specs.Program.{is_digit, digit_value, digit_byte, all_digits, from_hex};
ghost use Rattle.hexadecimal.specs.Text.{line_size, printed_size, printed_answer};

use limits::{ANSWER_SIZE, FRAME_SIZE};

// The digits of a frame.
pub const LINE_SIZE: usize = 2 * FRAME_SIZE;

// The digits of an answer and a line feed.
pub const PRINTED_SIZE: usize = 2 * ANSWER_SIZE + 1;

pub const LINE_FEED: u8 = b'\n';

#[tactic(auto, using(std::proofs::lemmas::Bool::Decides::nat_tests), unfolding(meaning::specs::Program::is_digit))]
fn is_digit(b: u8) -> bool
    ensures { result ≡ is_digit b }
{
    // Joined by `|` and not in one `matches!`, whose branches would keep the bytes of a line from being compared side by side.
    matches!(b, b'0'..=b'9') | matches!(b, b'A'..=b'F')
}

#[tactic(auto, using(std::proofs::lemmas::Bool::Decides::nat_tests), unfolding(meaning::specs::Program::is_digit, meaning::specs::Program::digit_value))]
fn digit_value(b: u8) -> u8
    requires { is_digit b ≡ true }
    ensures { (result ≡ digit_value b) × (result < 16) }
{
    match b {
        ..=b'9' => b - b'0',
        _ => b - b'A' + 10,
    }
}

#[tactic(auto, using(std::proofs::lemmas::Bool::Decides::nat_tests), unfolding(meaning::specs::Program::digit_byte))]
fn digit_byte(v: u8) -> u8
    requires { v < 16 }
    ensures { result ≡ digit_byte v }
{
    match v {
        ..=9 => v + b'0',
        _ => v - 10 + b'A',
    }
}

// Whether every byte is a digit.
pub fn all_digits(text: &[u8]) -> bool
    ensures { result ≡ all_digits text.now }
{
    // Every byte is looked at, as `all` would not: without an exit the bytes are compared side by side.
    let mut all = true;
    for b in text {
        all &= is_digit(*b);
    }
    all
}

// Writes what a frame's digits say.
pub fn put_frame(text: &[u8], requests: &mut [u8], at: usize)
    requires { (length text.now ≡ line_size) × (all_digits text.now ≡ true) × (at + frame_size ≤ length requests.old) }
    ensures { requests.new ≡ paste requests.old at (from_hex text.now) frame_size }
{
    for i in 0..FRAME_SIZE {
        let high = digit_value(text[2 * i]);
        let low = digit_value(text[2 * i + 1]);
        requests[at + i] = high * 16 + low;
    }
}

// Writes an answer as a line.
pub fn print_answer(answer: &[u8], out: &mut [u8], at: usize)
    requires { (length answer.now ≡ answer_size) × (at + printed_size ≤ length out.old) }
    ensures { out.new ≡ paste out.old at (printed_answer answer.now) printed_size }
{
    for (i, &b) in answer.iter().enumerate() {
        out[at + 2 * i] = digit_byte(b / 16);
        out[at + 2 * i + 1] = digit_byte(b % 16);
    }
    out[at + 2 * ANSWER_SIZE] = LINE_FEED;
}
