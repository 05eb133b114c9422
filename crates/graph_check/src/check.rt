// The check of a graph for a sheet: the sheet's questions, then 21 to 25.
ghost use Rattle.std.specs.Prelude.{◌≡◌, length};
ghost use Rattle.graph_check.specs.CheckGraph.{graph_reading, graph_check_values, graph_values};
ghost use Rattle.graph_check.specs.views.Header.{fields_reading, fields_read};

use crate::GraphHeader;
use crate::index::index_graph;
use records::Refusal;

// The fields of an accepted graph's first record: the sheet's arity and rule count, and the number of nodes. Not fields of a
// graph that a later question refuses, nor the arity where the rule count stands.
pub fn graph_header(sheet: &[u8], graph: &[u8]) -> Result<GraphHeader, Refusal>
    ensures { fields_read (length graph.now) result ≡ fields_reading sheet.now graph.now }
{
    let mut words = [0u64; 11];
    let mut codes = [0u32; 65];
    let read = sheet_tests::read_tests(sheet, &mut words, &mut codes)?;
    let mut starts = [0u32; 1024];
    let nodes = index_graph(
        graph,
        &words,
        &codes,
        read.pairs,
        read.arity,
        read.rules,
        &mut starts,
    )?;
    Ok(GraphHeader {
        arity: read.arity,
        rules: read.rules,
        nodes,
    })
}

// Checks a graph for a sheet. Not a graph accepted for a sheet that is refused, nor one more node than it has.
pub fn check_graph(sheet: &[u8], graph: &[u8]) -> Result<u16, Refusal>
    ensures { graph_check_values result ≡ graph_values (graph_reading sheet.now graph.now) }
{
    let header = graph_header(sheet, graph)?;
    Ok(header.nodes)
}
