// The lines of a sheet and its pieces: the sheet and its graph are read and checked once, then each piece is.
#![tactic(auto)]

ghost use Rattle.std.specs.Prelude.{ℕ, ◌+◌, ◌≤◌, ◌≡◌, length};
ghost use Rattle.records.specs.Writing.{splice};
ghost use Rattle.walk_all.specs.views.FirstPiece.{first_of, PieceWithin};
ghost use Rattle.piece_lines.specs.BuiltLines.{built_lines};
ghost use Rattle.piece_lines.specs.views.GraphFor.{GraphFor};
ghost use Rattle.piece_lines.specs.views.Turned.{answered, turned, Within};

use piece::read_prefix;
use records::Refusal;
use walk::call::walk_checked;
use walk_all::First;
use walk_all::first_piece::{first_of, has_arity, used_by};
use walk_all::open::open_graph;

// What came of a piece: its bytes and the position behind its line, or the position behind the line that ends the run.
#[derive(Clone, Copy)]
pub enum Turn {
    More(usize, usize),
    Last(usize),
}

// The line of a piece with a number, at a position. Not a line for a piece whose walk is refused, nor a refusal that lets the run
// go on.
fn put_first(first: Result<First<Refusal>, Refusal>, number: u32, out: &mut [u8], at: usize) -> Turn
    requires { at + 44 ≤ length out.old }
    ensures out_after { record { turn = result; buffer = out.new }
        ≡ turned out.old at number (answered (first_of first)) }
    ensures by_index { (bytes : ℕ) → PieceWithin bytes first → Within bytes at result }
{
    match first {
        Err(refusal) => Turn::Last(lines::put_refused(out, at, refusal.number())),
        Ok(piece) => match piece.walk {
            Err(refusal) => Turn::Last(lines::put_refused(out, at, refusal.number())),
            Ok(w) => {
                let end = lines::put_piece_line(out, at, number, w.answer, w.edges, w.waits);
                Turn::More(piece.bytes, end)
            }
        },
    }
}

// The lines after a build of so many nodes that refused nothing: that of the sheet, then one for each piece that the input holds.
// Not the places alone counted as the sheet's tests, nor the line of the first piece alone, nor a line after a refusal.
pub fn put_built(sheet: &[u8], graph: &[u8], nodes: u16, input: &[u8], out: &mut [u8]) -> usize
    requires graph_for { GraphFor sheet.now graph.now nodes }
    requires input_len_bound { (length input.now ≤ 65536) × (961248 ≤ length out.old) }
    ensures { (result ≡ length (built_lines sheet.now graph.now nodes input.now))
        × (out.new
        ≡ splice out.old 0 (built_lines sheet.now graph.now nodes input.now)) }
{
    let mut starts = [0u32; 1024];
    let mut notes = [0u64; 680];
    let mut kept = [0u64; 324];
    let opened = open_graph(sheet, graph, &mut starts, &mut notes, &mut kept);
    match opened {
        Err(refusal) => lines::put_refused(out, 0, refusal.number()),
        Ok(sizes) => {
            let tests = tables::tests(&kept) as u8;
            let mut end = lines::put_sheet_line(out, 0, sizes.arity, sizes.rules, tests, nodes);
            let mut cells = [0u64; 680];
            let mut used: usize = 0;
            let mut from: usize = 0;
            let mut n: u32 = 1;
            while from < input.len() {
                let prefix = read_prefix(&input[from..], &mut cells, used);
                let mut walk = Err(Refusal::AritiesDiffer);
                if has_arity(prefix, sizes.arity) {
                    walk = walk_checked(sheet, graph, &starts, &kept, sizes, &mut notes, &cells);
                }
                let turn = put_first(first_of(prefix, walk), n, out, end);
                match turn {
                    Turn::Last(last) => return last,
                    Turn::More(bytes, next) => {
                        used = used_by(prefix);
                        from += bytes;
                        n += 1;
                        end = next;
                    }
                }
            }
            end
        }
    }
}
