// The static library. Every call takes byte slices and hands back one number, the refusal's number in its lowest byte.
#![tactic(auto)]

mod order_calls; // the calls of a reading order
mod walk_all_calls; // the call that walks many pieces
mod window_calls; // the calls of a window

ghost use Rattle.std.specs.Prelude.{◌≡◌};
ghost use Rattle.sheet_tests.specs.CheckSheet.{accept_sheet, sheet_values};
ghost use Rattle.piece.specs.ReadPiece.{read_piece};
ghost use Rattle.piece.specs.CheckPiece.{piece_values};
ghost use Rattle.plain.specs.Plain.{plain_reading, reading_values};
ghost use Rattle.graph_check.specs.CheckGraph.{graph_reading, graph_values};
ghost use Rattle.graph_check.specs.Rewritten.{rewritten};
ghost use Rattle.tidy.specs.Tidied.{tidied};
ghost use Rattle.build.specs.BuildOutcome.{build_outcome};
ghost use Rattle.walk.specs.Walking.{walk_reply, reply_values};
ghost use Rattle.packing.specs.Packed.{Packs, sheet_fields, piece_fields, plain_fields, graph_fields};
ghost use Rattle.packing.specs.Packed.{written_fields, built_fields, walk_fields};

use packing::answers::{pack_plain, pack_walked, waits};
use packing::checks::{pack_graph_check, pack_piece_check, pack_sheet_check};
use packing::numbered;
use packing::writers::{pack_built, pack_written};

// Checks a sheet: arity, rules and tests. Not the arity of a sheet that is refused, nor the rules in the place of the tests.
#[unsafe(no_mangle)]
pub extern "C" fn vt_check_sheet(sheet: &[u8]) -> u64
    ensures { Packs result (sheet_fields (sheet_values (accept_sheet sheet.now))) }
{
    pack_sheet_check(numbered(sheet_tests::check_sheet(sheet)))
}

// Checks a piece: its arity. Not an arity beside a refusal's number, nor 0 for a piece that is accepted.
#[unsafe(no_mangle)]
pub extern "C" fn vt_check_piece(piece: &[u8]) -> u64
    ensures { Packs result (piece_fields (piece_values (read_piece piece.now))) }
{
    pack_piece_check(numbered(piece::check_piece(piece)))
}

// The plain answer: its word and rule. Not the rule before the word, nor suspend for every piece with an unknown.
#[unsafe(no_mangle)]
pub extern "C" fn vt_plain(sheet: &[u8], piece: &[u8]) -> u64
    ensures { Packs result (plain_fields (reading_values (plain_reading sheet.now piece.now))) }
{
    pack_plain(numbered(answering::plain(sheet, piece)))
}

// Checks a graph for a sheet: its nodes. Not the nodes of a graph that is refused, nor a graph accepted by itself where the sheet
// is refused.
#[unsafe(no_mangle)]
pub extern "C" fn vt_check_graph(sheet: &[u8], graph: &[u8]) -> u64
    ensures { Packs result (graph_fields (graph_values (graph_reading sheet.now graph.now))) }
{
    pack_graph_check(numbered(graph_check::check_graph(sheet, graph)))
}

// Writes the nodes of a graph again, at the front of a buffer: the bytes written. Not the buffer's length for them, nor a byte
// changed beside a refusal's number.
#[unsafe(no_mangle)]
pub extern "C" fn vt_rewrite(sheet: &[u8], graph: &[u8], buffer: &mut [u8]) -> u64
    ensures packs { Packs result (written_fields (rewritten sheet.now graph.now buffer.old)) }
    ensures buffer_after { buffer.new ≡ (rewritten sheet.now graph.now buffer.old).buffer }
{
    pack_written(numbered(rewriting::rewrite(sheet, graph, buffer)))
}

// Writes the tidy form of a sheet, at the front of a buffer: the bytes written. Not the buffer's length for them, nor a byte
// changed behind them or beside a refusal's number.
#[unsafe(no_mangle)]
pub extern "C" fn vt_tidy(sheet: &[u8], buffer: &mut [u8]) -> u64
    ensures packs { Packs result (written_fields (tidied sheet.now buffer.old)) }
    ensures buffer_after { buffer.new ≡ (tidied sheet.now buffer.old).buffer }
{
    pack_written(numbered(tidying::tidy(sheet, buffer)))
}

// Builds a sheet's graph: its nodes and the bytes written. Not a byte changed behind the graph or on a refusal, nor the bytes in
// the place of the nodes.
#[unsafe(no_mangle)]
pub extern "C" fn vt_build(sheet: &[u8], buffer: &mut [u8]) -> u64
    ensures packs { Packs result (built_fields (build_outcome sheet.now buffer.old).values) }
    ensures buffer_after { buffer.new ≡ (build_outcome sheet.now buffer.old).buffer }
{
    pack_built(numbered(building::build(sheet, buffer)))
}

// Walks a piece over a graph: the answer's word, its rule and the edges walked. Not suspend for every piece with an unknown, nor an
// edge count of its own.
#[unsafe(no_mangle)]
pub extern "C" fn vt_walk(sheet: &[u8], graph: &[u8], piece: &[u8]) -> u64
    ensures { Packs result
        (walk_fields (reply_values (walk_reply sheet.now graph.now piece.now))) }
{
    pack_walked(numbered(walk::call::walk(sheet, graph, piece)))
}

// The wait list of a walk, test t being bit t; 0 on a refusal. Not the tests of every rule, nor the list of another answer.
#[unsafe(no_mangle)]
pub extern "C" fn vt_wait(sheet: &[u8], graph: &[u8], piece: &[u8]) -> u64
    ensures { result ≡ (reply_values (walk_reply sheet.now graph.now piece.now)).waits }
{
    waits(numbered(walk::call::walk(sheet, graph, piece)))
}
