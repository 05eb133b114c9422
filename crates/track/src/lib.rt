// The reading order of a track drawing (document 02, request 14), written as request 1's table.
#![tactic(auto)]

pub mod front; // the places that may follow, and which of them comes next

ghost use Rattle.std.specs.Prelude.{◌≤◌, ◌≡◌, length};
ghost use Rattle.records.specs.Writing.{splice};
ghost use Rattle.order.specs.TableBytes.{table_bytes};
ghost use Rattle.track.specs.Track.{track_order};
ghost use Rattle.track.specs.Ordering.{ordered};
ghost use Rattle.track.specs.views.HandedBack.{left_by};

use front::{least_row, open_row, put_down};
use records::Refusal;

// The places in the order of their positions, step by step, into a buffer that has room for them.
fn put_order(positions: &[u8], buf: &mut [u8])
    requires { (length positions.now ≡ 1360) × (1360 ≤ length buf.old) }
    ensures { buf.new ≡ splice buf.old 0 (table_bytes (track_order positions.now)) }
{
    let parents = places::all_parents();
    let mut keys = [0x400_0000u32; 680];
    open_row(positions, &mut keys, 0, 85, 8);
    let mut end: usize = 0;
    for _ in 0..680usize {
        let key = least_row(&keys, 0, 85, 8);
        let place = (key % 1024) as u16;
        put_down(positions, &parents, &mut keys, place as usize);
        end = records::put(buf, end, &[records::high(place), records::low(place)]);
    }
}

// Writes the reading order of a track drawing as a table: questions 37, 38. Not a place before its parent where it stands nearer on
// the track, nor the higher of two places at one position first, nor a byte written behind the table.
pub fn order(positions: &[u8], buf: &mut [u8]) -> Result<(), Refusal>
    ensures { left_by result buf.new ≡ ordered positions.now buf.old }
{
    if positions.len() != 1360 {
        return Err(Refusal::PositionsLength);
    }
    if buf.len() < 1360 {
        return Err(Refusal::OrderTooLong);
    }
    put_order(positions, buf);
    Ok(())
}
