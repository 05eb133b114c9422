// Graphs, sheets and reading orders written into a lent buffer.
ghost use Rattle.std.specs.Prelude.{ℕ, List};
ghost use Rattle.packing.specs.Packed.{Packs, written_fields, built_fields};
ghost use Rattle.packing.specs.views.Numbered.{written_left, ordered_left, built_values};

use crate::{pack_two, pack_wide, refused};
use build::Built;

// The bytes of a graph's nodes written again, or of a sheet's tidy form, whatever the buffer. Not a byte beside a refusal's number,
// a refused rewriting as accepted, nor a refusal for a sheet that was tidied.
pub fn pack_written(written: Result<u32, u8>) -> u64
    ensures { (buffer : List ℕ) → Packs result (written_fields (written_left written buffer)) }
{
    match written {
        Ok(bytes) => pack_wide(0, bytes),
        Err(question) => refused(question),
    }
}

// The bytes of a track drawing's reading order, whatever the buffer. Not a byte beside a refusal's number, nor a refusal for an
// order that was written.
pub fn pack_ordered(written: Result<(), u8>) -> u64
    ensures { (buffer : List ℕ) → Packs result (written_fields (ordered_left written buffer)) }
{
    match written {
        Ok(()) => pack_wide(0, 1360),
        Err(question) => refused(question),
    }
}

// The nodes and the bytes of a built graph. Not the bytes in the place of the nodes, nor a node or a byte beside a refusal's
// number.
pub fn pack_built(built: Result<Built, u8>) -> u64
    ensures { Packs result (built_fields (built_values built)) }
{
    match built {
        Ok(graph) => pack_two(0, graph.nodes, graph.bytes),
        Err(question) => refused(question),
    }
}
