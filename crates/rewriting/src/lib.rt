// Read nodes written again: the header from what was read, then every node through the reader and the writer.
#![tactic(auto)]

pub mod copy; // read records written again

ghost use Rattle.std.specs.Prelude.{◌+◌, ◌≤◌, ◌≡◌, [], ◌++◌, Ok, length, drop};
ghost use Rattle.records.specs.Writing.{splice};
ghost use Rattle.decision.specs.GraphBytes.{nodes_bytes};
ghost use Rattle.graph.specs.views.Rewriting.{IsTook, read_or, read_records};
ghost use Rattle.graph_check.specs.Rewritten.{left_by, rewritten};
ghost use Rattle.graph.specs.views.WriteNode.{header_bytes};

use copy::copy_nodes;
use graph_check::check::graph_header;
use records::Refusal;

// The header and the nodes of a graph at the front of a buffer that has room for them, and the position behind them.
fn write_graph(
    g: &[u8],
    buffer: &mut [u8],
    arity: u8,
    rules: u8,
    nodes: u16,
) -> Result<usize, Refusal>
    requires { (5 ≤ length g.now) × (length g.now ≤ length buffer.old) × IsTook (read_records nodes (drop 5 g.now)) }
    ensures { (result
        ≡ Ok (length (header_bytes arity rules nodes
        ++ nodes_bytes (read_or [] (read_records nodes (drop 5 g.now))))))
        × (buffer.new
        ≡ splice buffer.old 0 (header_bytes arity rules nodes
        ++ nodes_bytes (read_or [] (read_records nodes (drop 5 g.now))))) }
{
    let at = records::put(
        buffer,
        0,
        &[
            0x12,
            arity,
            rules,
            records::high(nodes),
            records::low(nodes),
        ],
    );
    copy_nodes(g, buffer, at, nodes)
}

// Writes the nodes of a graph again: the sheet's questions, 21 to 25, then 19. Not a byte written where the graph is refused or
// does not fit, nor one changed behind the graph's end.
pub fn rewrite(sheet: &[u8], graph: &[u8], buffer: &mut [u8]) -> Result<u32, Refusal>
    ensures { left_by result buffer.new ≡ rewritten sheet.now graph.now buffer.old }
{
    let header = graph_header(sheet, graph)?;
    if buffer.len() < graph.len() {
        return Err(Refusal::GraphTooLong);
    }
    let end = write_graph(graph, buffer, header.arity, header.rules, header.nodes)?;
    Ok(end as u32)
}
