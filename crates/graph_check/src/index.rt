// A graph's header, and where its nodes begin: questions 21 to 25 for a sheet whose tests are kept.
ghost use Rattle.std.specs.Prelude.{◌≤◌, ◌≡◌, length};
ghost use Rattle.records.specs.Fields.{wide_at};
ghost use Rattle.records.specs.Reading.{map_reading};
ghost use Rattle.graph.specs.ReadGraph.{has_header, read_by};
ghost use Rattle.node_check.specs.views.CheckNode.{kept_test};
ghost use Rattle.graph_check.specs.views.GraphIndex.{count_if, graph_index, indexed};

use records::Refusal;

// "1 to 1,024 nodes".
const MOST_NODES: u16 = 1024;

// How many nodes the record says that the graph begins with: question 21. Not the count of a record for another arity, nor 0.
fn node_count(g: &[u8], arity: u8, rules: u8) -> Result<u16, Refusal>
    ensures { result ≡ count_if (has_header arity rules g.now) (wide_at g.now 3) }
{
    let &[0x12, of_arity, of_rules, high, low, ..] = g else {
        return Err(Refusal::NotAGraph);
    };
    let nodes = records::wide(high, low);
    if of_arity == arity && of_rules == rules && 1 <= nodes && nodes <= MOST_NODES {
        Ok(nodes)
    } else {
        Err(Refusal::NotAGraph)
    }
}

// Questions 21 to 25, and where each node's record begins. Not a graph accepted with bytes behind its last node, nor a start
// that is one record late.
pub fn index_graph(
    g: &[u8],
    words: &[u64; 11],
    codes: &[u32; 65],
    pairs: usize,
    arity: u8,
    rules: u8,
    starts: &mut [u32; 1024],
) -> Result<u16, Refusal>
    requires { (length words.now ≡ 11) × (pairs ≤ 65) × (length codes.now ≡ 65) × (length starts.old ≡ 1024) }
    ensures result_after { indexed (length g.now) starts.new result
        ≡ map_reading graph_index
        (read_by (kept_test words.now codes.now pairs) arity rules g.now) }
    ensures starts_len { length starts.new ≡ 1024 }
{
    let nodes = node_count(g, arity, rules)?;
    let end = node_check::check_nodes(g, words, codes, pairs, rules, nodes, starts)?;
    if end != g.len() {
        return Err(Refusal::BytesAfterGraph);
    }
    Ok(nodes)
}
