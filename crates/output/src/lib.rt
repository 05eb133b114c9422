// The whole output of the listing for given bytes of sheet and input.
#![tactic(auto)]

ghost use Rattle.std.specs.Prelude.{◌≤◌, min, ◌≡◌, length};
ghost use Rattle.io.specs.Counts.{IsPrefixLen};
ghost use Rattle.records.specs.Writing.{splice};
ghost use Rattle.output.specs.Listing.{listing_bytes, most_bytes};

use piece_lines::put_built;

// How many of so many bytes are read.
fn cut(bytes: usize) -> usize
    ensures { result ≡ min bytes most_bytes }
{
    if bytes < 65536 { bytes } else { 65536 }
}

// Room for the whole output: 21,845 pieces of three bytes or more, each with a line of 44 bytes or less.
pub fn room() -> [u8; 1048576]
    ensures { 1048576 ≡ length result }
{
    [0; 1048576]
}

// The whole output, and its length. Not the lines of a sheet whose graph does not fit, nor a line after a refusal.
pub fn listing(sheet: &[u8], input: &[u8], out: &mut [u8]) -> usize
    requires { 1048576 ≤ length out.old }
    ensures value { (result ≡ length (listing_bytes sheet.now input.now))
        × (out.new ≡ splice out.old 0 (listing_bytes sheet.now input.now)) }
    ensures prefix_len { IsPrefixLen result out.new }
{
    let sheet_end = cut(sheet.len());
    let input_end = cut(input.len());
    let mut graph = [0u8; 65536];
    let built = building::build(&sheet[..sheet_end], &mut graph);
    match built {
        Err(refusal) => lines::put_refused(out, 0, refusal.number()),
        Ok(built) => {
            let graph_end = built.bytes as usize;
            put_built(
                &sheet[..sheet_end],
                &graph[..graph_end],
                built.nodes,
                &input[..input_end],
                out,
            )
        }
    }
}
