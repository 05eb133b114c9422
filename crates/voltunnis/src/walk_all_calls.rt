// The call that walks many pieces for one check of sheet and graph.
ghost use Rattle.std.specs.Prelude.{◌≡◌};
ghost use Rattle.walk_all.specs.WalkAll.{walk_all};
ghost use Rattle.packing.specs.Packed.{Packs};
ghost use Rattle.packing.specs.PackedWalks.{walk_all_fields};

use packing::answers::pack_walked_all;
use packing::numbered;

// Walks the pieces that the input holds, one after another, and writes a result of 16 bytes for each at the front of a buffer: the
// results written, and the bytes of the input taken by pieces that were read. Not the results of pieces that the buffer has no room
// for, nor the bytes of a piece that cannot be read, nor a byte changed beside a refusal's number.
#[unsafe(no_mangle)]
pub extern "C" fn vt_walk_all(sheet: &[u8], graph: &[u8], pieces: &[u8], results: &mut [u8]) -> u64
    ensures packs { Packs result
        (walk_all_fields
        (walk_all sheet.now graph.now pieces.now results.old)) }
    ensures results_after { results.new
        ≡ (walk_all sheet.now graph.now pieces.now results.old).buffer }
{
    pack_walked_all(numbered(walk_all::walk_all(sheet, graph, pieces, results)))
}
