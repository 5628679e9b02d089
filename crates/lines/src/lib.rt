// The program's lines: the frames among them, and the answers to them as text.
#![tactic(auto)]

ghost use Rattle.std.specs.Prelude.{◌≡◌, true, false, ◌&&◌, List, [], ◌∷◌, ◌++◌, ℕ, ◌+◌, ◌≤◌, eqb, length, take, drop, IfSome};
ghost use Rattle.meaning.specs.Program.{all_digits};
ghost use Rattle.hexadecimal.specs.Text.{line_size};
ghost use Rattle.lines.specs.Lines.{too_long, Keeps};
ghost use Rattle.lines.specs.Reading.{HasRoom, EndsLine, FrameAt, CanRead, CanReadOn, ReadsOn, ReadsPiece};
ghost use Rattle.lines.specs.Printing.{CanPrintLine, PrintsLine, CanPrint, Prints};

use hexadecimal::{LINE_FEED, LINE_SIZE, PRINTED_SIZE};
use limits::ANSWER_SIZE;
use limits::numbers::Refusal;

// Kept as the length of any longer line.
const TOO_LONG: usize = LINE_SIZE + 1;

// The marks of lines, as bytes and no enum: `print_answers` takes any other byte for a line that is no frame, and a narrower type would ask more.
pub const FRAME: u8 = 1;

pub const OTHER: u8 = 0;

// Writes the answer to a line of that mark; how many frames are answered then.
fn print_line(mark: u8, answers: &[u8], frames: usize, out: &mut [u8], at: usize) -> usize
    requires { CanPrintLine mark answers.now frames out.old at }
    ensures { PrintsLine mark answers.now frames out.old at result out.new }
{
    if mark == FRAME {
        let start = requests::answer_place(frames);
        let end = start + ANSWER_SIZE;
        hexadecimal::print_answer(&answers[start..end], out, at);
        return frames + 1;
    }
    let refused: [u8; ANSWER_SIZE] = [u8::from(Refusal::NotAFrame), 0, 0, 0, 0, 0];
    hexadecimal::print_answer(&refused, out, at);
    frames
}

// Writes the answers to lines: the next for each that is a frame, 14 for any other. How many bytes it wrote.
pub fn print_answers(marks: &[u8], answers: &[u8], out: &mut [u8]) -> usize
    requires { CanPrint marks.now answers.now out.old }
    ensures { Prints marks.now answers.now result out.new }
{
    let mut frames = 0;
    for (i, &mark) in marks.iter().enumerate() {
        frames = print_line(mark, answers, frames, out, PRINTED_SIZE * i);
    }
    PRINTED_SIZE * marks.len()
}

// A line begun: its bytes, as far as a frame has so many, and its length, which stands beside them since nothing is allocated.
#[derive(Clone, Copy)]
pub struct Begun {
    pub digits: [u8; LINE_SIZE],
    pub len: usize,
    pub ghost kept: { len ≤ too_long },
}

impl Begun {
    // Nothing is read of the line.
    pub fn new() -> Begun
        ensures { Keeps result.digits result.len [] }
    {
        Begun {
            digits: [0; LINE_SIZE],
            len: 0,
        }
    }

    // One byte more is read of it.
    fn keep(&mut self, b: u8)
        ensures { (line : List ℕ) → Keeps self.old.digits self.old.len line → Keeps self.new.digits self.new.len (line ++ (b ∷ [])) }
    {
        if self.len < LINE_SIZE {
            self.digits[self.len] = b;
            self.len += 1;
            return;
        }
        self.len = TOO_LONG;
    }

    fn is_frame(&self) -> bool
        ensures { result ≡ (eqb self.now.len line_size && all_digits self.now.digits) }
    {
        if self.len != LINE_SIZE {
            return false;
        }
        hexadecimal::all_digits(&self.digits)
    }
}

// The digits of a frame that stands there with its line feed.
fn frame_at(piece: &[u8], at: usize) -> Option<&[u8]>
    requires { at ≤ length piece.now }
    ensures { IfSome result (λ text. FrameAt piece.now at × (text.now ≡ take line_size (drop at piece.now))) }
{
    if piece.len() - at <= LINE_SIZE {
        return None;
    }
    let end = at + LINE_SIZE;
    if piece[end] != LINE_FEED {
        return None;
    }
    let text = &piece[at..end];
    if hexadecimal::all_digits(text) {
        return Some(text);
    }
    None
}

// The lines that ended in a piece: a mark for each, and the bytes of the frames among them one after the other, in room that the caller lends.
#[derive(Drop)]
struct Ended<'a> {
    marks: &'a mut [u8],
    requests: &'a mut [u8],
    lines: usize,
    frames: usize,
}

impl Ended<'_> {
    // A frame has ended.
    fn put_frame(&mut self, text: &[u8])
        requires { (length text.now ≡ line_size) × (all_digits text.now ≡ true) × HasRoom self.old.marks.now self.old.requests.now self.old.lines self.old.frames }
        ensures ended { EndsLine true text.now self.old.marks.now self.old.requests.now self.old.lines self.old.frames
            self.new.marks.now self.new.requests.now self.new.frames }
        ensures counted { self.new.lines ≡ self.old.lines + 1 }
        ensures same_loans { (self.new.marks.ghost_name ≡ self.old.marks.ghost_name) × (self.new.requests.ghost_name ≡ self.old.requests.ghost_name) }
    {
        hexadecimal::put_frame(text, self.requests, requests::frame_place(self.frames));
        self.marks[self.lines] = FRAME;
        self.lines += 1;
        self.frames += 1;
    }

    // Any other line has.
    fn put_other(&mut self)
        requires { HasRoom self.old.marks.now self.old.requests.now self.old.lines self.old.frames }
        ensures ended { (digits : List ℕ) → EndsLine false digits self.old.marks.now self.old.requests.now self.old.lines self.old.frames
            self.new.marks.now self.new.requests.now self.new.frames }
        ensures counted { self.new.lines ≡ self.old.lines + 1 }
        ensures same_loans { (self.new.marks.ghost_name ≡ self.old.marks.ghost_name) × (self.new.requests.ghost_name ≡ self.old.requests.ghost_name) }
    {
        self.marks[self.lines] = OTHER;
        self.lines += 1;
    }

    fn end_line(&mut self, line: &Begun)
        requires { HasRoom self.old.marks.now self.old.requests.now self.old.lines self.old.frames }
        ensures ended { EndsLine (eqb line.now.len line_size && all_digits line.now.digits) line.now.digits self.old.marks.now self.old.requests.now self.old.lines self.old.frames
            self.new.marks.now self.new.requests.now self.new.frames }
        ensures counted { self.new.lines ≡ self.old.lines + 1 }
        ensures same_loans { (self.new.marks.ghost_name ≡ self.old.marks.ghost_name) × (self.new.requests.ghost_name ≡ self.old.requests.ghost_name) }
    {
        if line.is_frame() {
            self.put_frame(&line.digits);
            return;
        }
        self.put_other();
    }

    fn read_byte(&mut self, piece: &[u8], at: usize, begun: &mut Begun) -> usize
        requires { CanReadOn piece.now at self.old.marks.now self.old.requests.now self.old.lines self.old.frames }
        ensures read { ReadsOn piece.now begun.old.digits at begun.old.len self.old.marks.now self.old.requests.now self.old.lines self.old.frames
            begun.new.digits result begun.new.len self.new.marks.now self.new.requests.now self.new.lines self.new.frames }
        ensures same_loans { (self.new.marks.ghost_name ≡ self.old.marks.ghost_name) × (self.new.requests.ghost_name ≡ self.old.requests.ghost_name) }
    {
        let b = piece[at];
        if b != LINE_FEED {
            begun.keep(b);
            return at + 1;
        }
        self.end_line(begun);
        begun.len = 0;
        at + 1
    }

    // A frame that stands whole in the piece goes straight to the requests. To where it is read then.
    fn read_on(&mut self, piece: &[u8], at: usize, begun: &mut Begun) -> usize
        requires { CanReadOn piece.now at self.old.marks.now self.old.requests.now self.old.lines self.old.frames }
        ensures read { ReadsOn piece.now begun.old.digits at begun.old.len self.old.marks.now self.old.requests.now self.old.lines self.old.frames
            begun.new.digits result begun.new.len self.new.marks.now self.new.requests.now self.new.lines self.new.frames }
        ensures same_loans { (self.new.marks.ghost_name ≡ self.old.marks.ghost_name) × (self.new.requests.ghost_name ≡ self.old.requests.ghost_name) }
    {
        if begun.len == 0 {
            if let Some(text) = frame_at(piece, at) {
                self.put_frame(text);
                return at + LINE_SIZE + 1;
            }
        }
        self.read_byte(piece, at, begun)
    }
}

// How many lines ended in a piece, and how many of those are frames.
#[derive(Clone, Copy, PartialEq, Eq, Debug)]
pub struct ReadLines {
    pub lines: usize,
    pub frames: usize,
}

// Marks the lines that end in a piece, and puts the bytes of the frames among them one after the other.
pub fn read_lines(
    piece: &[u8],
    begun: &mut Begun,
    marks: &mut [u8],
    requests: &mut [u8],
) -> ReadLines
    requires { CanRead piece.now marks.old requests.old }
    ensures { ReadsPiece piece.now begun.old.digits begun.old.len
        begun.new.digits begun.new.len marks.new requests.new result.lines result.frames }
{
    let mut ended = Ended {
        marks,
        requests,
        lines: 0,
        frames: 0,
    };
    let mut at = 0;
    // No `for`: a step is a byte or a whole frame.
    while at < piece.len() {
        at = ended.read_on(piece, at, begun);
    }
    ReadLines {
        lines: ended.lines,
        frames: ended.frames,
    }
}
