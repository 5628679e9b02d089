// Lines of hexadecimal in, lines of hexadecimal out, over a fresh state of 256 nodes.
#![tactic(auto)]

ghost use Rattle.std.specs.Prelude.{◌≤◌};
ghost use Rattle.serving.specs.States.{Runs};
ghost use Rattle.runs.specs.States.{state_of};

use conversation::PIECE;
use hexadecimal::PRINTED_SIZE;
use limits::{NODE_CELLS, PROGRAM_NODES, VERSIONS};
use lines::Begun;
use records::Version;
use std::io::{self, Read, Write};
use store::Store;
use walk::Walks;

// The cells of the program's nodes.
const CELLS: usize = NODE_CELLS * PROGRAM_NODES;

// The room for the answers to a piece.
const OUT: usize = PRINTED_SIZE * PIECE;

// The answer to a last piece without line feed.
const LAST_ANSWER: [u8; PRINTED_SIZE] = *b"0E0000000000\n";

// How many bytes of input were read, 0 at its end and where it can't be read.
fn read_piece(rt: &HostRuntime, piece: &mut [u8; PIECE]) -> usize
    ensures { result ≤ PIECE }
{
    rt.stdin().read(piece).unwrap_or(0)
}

// Answers the lines of each read as they come to an end. A proved loop has to end, so this one ends after a number of reads that no run uses up.
fn answer_all(
    rt: &HostRuntime,
    store: &mut Store,
    cells: &mut [u32; CELLS],
    order: &mut [u32; PROGRAM_NODES],
    versions: &mut [Version; VERSIONS],
    walks: &mut Walks,
) -> io::Result<()>
    requires { Runs (state_of store.old cells.old order.old versions.old walks.old) }
{
    let mut begun = Begun::new();
    let mut piece = [0u8; PIECE];
    let mut out = [0u8; OUT];
    for _ in (1..=u64::MAX).rev() {
        let n = read_piece(rt, &mut piece);
        if n == 0 {
            break;
        }
        let written = conversation::talk(
            store,
            cells,
            order,
            versions,
            walks,
            &piece[..n],
            &mut begun,
            &mut out,
        );
        rt.stdout().write_all(&out[..written])?;
    }
    if begun.len > 0 {
        rt.stdout().write_all(&LAST_ANSWER)?;
    }
    Ok(())
}

fn main(rt: HostRuntime) {
    let mut kinds = [0u8; PROGRAM_NODES];
    let mut used = [0u8; PROGRAM_NODES];
    let mut counts = [0u32; PROGRAM_NODES];
    let mut cells = [0u32; CELLS];
    let mut order = [0u32; PROGRAM_NODES];
    let mut walks = Walks::all_closed();
    let mut versions = [Version::empty(); VERSIONS];
    // Of these sizes, which fit, it is never refused.
    let _ = form::form(
        &mut kinds,
        &mut used,
        &mut counts,
        &cells,
        &mut order,
        &mut versions,
        &mut walks.numbers,
        &mut walks.levels.nodes,
        &mut walks.levels.indices,
    );
    let mut store = Store {
        kinds: &mut kinds,
        used: &mut used,
        counts: &mut counts,
        free: PROGRAM_NODES,
    };
    // Where the answers can't be written, nobody is left to tell.
    let _ = answer_all(
        &rt,
        &mut store,
        &mut cells,
        &mut order,
        &mut versions,
        &mut walks,
    );
}
