// The checks of sheets, pieces, graphs and reading orders.
ghost use Rattle.std.specs.Prelude.{◌≡◌};
ghost use Rattle.packing.specs.Packed.{Packs, sheet_fields, piece_fields, graph_fields};
ghost use Rattle.packing.specs.views.Numbered.{refusal_in, sheet_check_values, piece_check_values, graph_check_values};

use crate::{pack, pack_wide, refused};
use sheet_tests::SheetSizes;

// Arity, rules and tests of a sheet. Not the arity of a sheet that is refused, nor the rules in the place of the tests.
pub fn pack_sheet_check(checked: Result<SheetSizes, u8>) -> u64
    ensures { Packs result (sheet_fields (sheet_check_values checked)) }
{
    match checked {
        Ok(sizes) => pack(0, sizes.arity, sizes.rules, sizes.tests),
        Err(question) => refused(question),
    }
}

// The arity of a piece. Not an arity beside a refusal's number, nor 0 for a piece that is accepted.
pub fn pack_piece_check(checked: Result<u8, u8>) -> u64
    ensures { Packs result (piece_fields (piece_check_values checked)) }
{
    match checked {
        Ok(arity) => pack(0, arity, 0, 0),
        Err(question) => refused(question),
    }
}

// The nodes of a graph. Not the nodes of a graph that is refused, nor 0 for one that is accepted.
pub fn pack_graph_check(checked: Result<u16, u8>) -> u64
    ensures { Packs result (graph_fields (graph_check_values checked)) }
{
    match checked {
        Ok(nodes) => pack_wide(0, nodes as u32),
        Err(question) => refused(question),
    }
}

// The refusal of a reading order, 0 where it is accepted. Not 28 for an accepted one, nor 0 for every table.
pub fn table_refusal(checked: Result<(), u8>) -> u64
    ensures { result ≡ refusal_in checked }
{
    match checked {
        Ok(()) => 0,
        Err(question) => refused(question),
    }
}
