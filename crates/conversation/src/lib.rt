// A piece of the program's input: its lines read, their frames run, the answers printed.
#![tactic(auto)]

ghost use Rattle.store.specs.Lent.{SameSlices};
ghost use Rattle.runs.specs.States.{state_of};
ghost use Rattle.conversation.specs.Talks.{CanTalk, Talks};

use limits::{ANSWER_SIZE, FRAME_SIZE, VERSIONS};
use lines::Begun;
use records::Version;
use store::Store;
use walk::Walks;

// The most bytes of a piece.
pub const PIECE: usize = 4096;

const REQUEST_ROOM: usize = FRAME_SIZE * PIECE;

const ANSWER_ROOM: usize = ANSWER_SIZE * PIECE;

// Answers the lines that end in a piece, and says how many bytes were written.
pub fn talk(
    store: &mut Store,
    cells: &mut [u32],
    order: &mut [u32],
    versions: &mut [Version; VERSIONS],
    walks: &mut Walks,
    piece: &[u8],
    begun: &mut Begun,
    out: &mut [u8],
) -> usize
    requires { CanTalk (state_of store.old cells.old order.old versions.old walks.old) piece.now out.old }
    ensures same_slices { SameSlices store.old store.new }
    ensures talks { Talks (state_of store.old cells.old order.old versions.old walks.old) piece.now begun.old.digits begun.old.len
        (state_of store.new cells.new order.new versions.new walks.new) begun.new.digits begun.new.len result out.new }
{
    let mut marks = [0u8; PIECE];
    let mut requests = [0u8; REQUEST_ROOM];
    let mut answers = [0u8; ANSWER_ROOM];
    let read = lines::read_lines(piece, begun, &mut marks, &mut requests);
    runs::run(
        store,
        cells,
        order,
        versions,
        walks,
        &requests,
        &mut answers,
        read.frames,
    );
    lines::print_answers(&marks[..read.lines], &answers, out)
}
