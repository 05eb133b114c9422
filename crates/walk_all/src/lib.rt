// Many pieces walked over a graph, for one check of sheet and graph: a result of 16 bytes for each, in a lent buffer.
#![tactic(auto)]

pub mod first_piece; // what came of the piece that the input begins with
pub mod open; // the sheet and the graph, read once
pub mod result; // the bytes of a result

ghost use Rattle.std.specs.Prelude.{◌+◌, ◌/◌, ◌≤◌, min, ◌≡◌, length};
ghost use Rattle.walk_all.specs.WalkAll.{walk_all, most_results, most_taken, result_length};
ghost use Rattle.walk_all.specs.views.FirstPiece.{first_of};
ghost use Rattle.walk_all.specs.views.Turns.{turned, left_by};

use first_piece::{first_of, has_arity, used_by};
use open::open_graph;
use piece::read_prefix;
use records::Refusal;
use result::{put_result, rule, word};
use walk::Walk;
use walk::call::walk_checked;

// The piece that the input begins with: its bytes, and how its walk ended.
#[derive(Clone, Copy)]
pub struct First<E> {
    pub bytes: usize,
    pub walk: Result<Walk, E>,
}

// How many results were written, and how many bytes of the input the pieces took that were read.
#[derive(Clone, Copy)]
pub struct WalkedAll {
    pub results: u32,
    pub bytes: u32,
}

// What became of a piece: a result and so many bytes taken, the last result, or none, since its bytes are too many to count.
#[derive(Clone, Copy)]
pub enum Turn {
    More(usize),
    Last,
    Full,
}

// How many results a buffer of so many bytes has room for. Not one more where a part of one would fit, nor more than its field can
// say.
fn room_for(bytes: usize) -> usize
    ensures { result ≡ min (bytes / result_length) most_results }
{
    if bytes / 16 < 0xFF_FFFF {
        bytes / 16
    } else {
        0xFF_FFFF
    }
}

// The result of a piece at a position, where so many bytes may still be taken. Not the answer beside a refusal, nor a result for a
// piece of more bytes.
fn put_first(out: &mut [u8], at: usize, left: usize, first: Result<First<Refusal>, Refusal>) -> Turn
    requires { at + 16 ≤ length out.old }
    ensures { record { turn = result; buffer = out.new } ≡ turned out.old at left (first_of first) }
{
    match first {
        Err(refusal) => {
            put_result(out, at, refusal.number(), 0, 0, 0, 0);
            Turn::Last
        }
        Ok(piece) => {
            if left < piece.bytes {
                return Turn::Full;
            }
            match piece.walk {
                Err(refusal) => put_result(out, at, refusal.number(), 0, 0, 0, 0),
                Ok(w) => put_result(out, at, 0, word(w.answer), rule(w.answer), w.edges, w.waits),
            }
            Turn::More(piece.bytes)
        }
    }
}

// What was written and taken, each within its field.
fn walked(results: usize, bytes: usize) -> WalkedAll
    requires { (results ≤ most_results) × (bytes ≤ most_taken) }
    ensures { result ≡ record { results = results; bytes = bytes } }
{
    WalkedAll {
        results: results as u32,
        bytes: bytes as u32,
    }
}

// The sheet's questions, then 21 to 25, once; then the pieces one after another, as many as the input has and the buffer has room
// for. Not the answer of the piece before in a piece's result, nor bytes taken by a piece that was not read, nor a byte changed
// behind the results or on a refusal.
pub fn walk_all(
    sheet: &[u8],
    graph: &[u8],
    pieces: &[u8],
    results: &mut [u8],
) -> Result<WalkedAll, Refusal>
    ensures { left_by result results.new
        ≡ walk_all sheet.now graph.now pieces.now results.old }
{
    let mut starts = [0u32; 1024];
    let mut notes = [0u64; 680];
    let mut kept = [0u64; 324];
    let sizes = open_graph(sheet, graph, &mut starts, &mut notes, &mut kept)?;
    let room = room_for(results.len());
    let mut cells = [0u64; 680];
    let mut used: usize = 0;
    let mut from: usize = 0;
    for n in 0..room {
        if from == pieces.len() {
            return Ok(walked(n, from));
        }
        let prefix = read_prefix(&pieces[from..], &mut cells, used);
        let mut walk = Err(Refusal::AritiesDiffer);
        if has_arity(prefix, sizes.arity) {
            walk = walk_checked(sheet, graph, &starts, &kept, sizes, &mut notes, &cells);
        }
        let turn = put_first(results, 16 * n, 0xFFFF_FFFF - from, first_of(prefix, walk));
        match turn {
            Turn::Full => return Ok(walked(n, from)),
            Turn::Last => return Ok(walked(n + 1, from)),
            Turn::More(bytes) => {
                used = used_by(prefix);
                from += bytes;
            }
        }
    }
    Ok(walked(room, from))
}
