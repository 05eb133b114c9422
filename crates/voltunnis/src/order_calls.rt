// The calls of a reading order (document 02, requests 1 and 14).
ghost use Rattle.std.specs.Prelude.{◌≡◌};
ghost use Rattle.order.specs.Table.{read_table, table_refusal};
ghost use Rattle.track.specs.Ordering.{ordered};
ghost use Rattle.build.specs.BuildOutcome.{ordered_outcome};
ghost use Rattle.packing.specs.Packed.{Packs, written_fields, built_fields};

use packing::checks::table_refusal;
use packing::numbered;
use packing::writers::{pack_built, pack_ordered};

// Checks a reading order: the number of the question that got a no, 0 where it is accepted. Not 30 for a table that also has a
// place twice, nor 0 for one of 1,362 bytes.
#[unsafe(no_mangle)]
pub extern "C" fn vt_check_order(table: &[u8]) -> u64
    ensures { result ≡ table_refusal (read_table table.now) }
{
    table_refusal(numbered(order::check_order(table)))
}

// Builds a sheet's graph in a reading order: its nodes and the bytes written. Not document 01's graph under every table, nor a byte
// changed beside a refusal's number.
#[unsafe(no_mangle)]
pub extern "C" fn vt_build_ordered(sheet: &[u8], table: &[u8], buffer: &mut [u8]) -> u64
    ensures packs { Packs result
        (built_fields (ordered_outcome sheet.now table.now buffer.old).values) }
    ensures buffer_after { buffer.new
        ≡ (ordered_outcome sheet.now table.now buffer.old).buffer }
{
    pack_built(numbered(building::build_ordered(sheet, table, buffer)))
}

// Writes the reading order of a track drawing as a table, at the front of a buffer: the bytes written. Not the table of other
// positions, nor a byte changed behind the table or beside a refusal's number.
#[unsafe(no_mangle)]
pub extern "C" fn vt_order(positions: &[u8], buffer: &mut [u8]) -> u64
    ensures packs { Packs result (written_fields (ordered positions.now buffer.old)) }
    ensures buffer_after { buffer.new ≡ (ordered positions.now buffer.old).buffer }
{
    pack_ordered(numbered(track::order(positions, buffer)))
}
