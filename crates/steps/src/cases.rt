// Where the cases of a switch lead.
ghost use Rattle.std.specs.Prelude.{◌≡◌, [], Ok, drop};
ghost use Rattle.graph.specs.ReadGraph.{read_cases};
ghost use Rattle.graph.specs.views.Rewriting.{read_or};
ghost use Rattle.number_search.specs.views.CodeCases.{follow_code};
ghost use Rattle.number_search.specs.views.NumberRows.{CasesStand};

use graph::case_head;
use node_check::cases::case_range;
use number_search::names::find_number;
use records::Refusal;

// Where the cases, so many from a position of the graph on, lead for the codes from low to high, one by one; they are whole, so
// none is refused here, and ascend, so none behind the first that begins above low takes them. Not by the first case that takes
// them where a narrower one does too, nor by neither where a case takes them.
fn pass_cases(
    graph: &[u8],
    start: usize,
    count: u16,
    low: u32,
    high: u32,
    neither: u16,
) -> Result<u16, Refusal>
    requires { CasesStand graph.now start count }
    ensures { result ≡ Ok (follow_code (read_or [] (read_cases count (drop start graph.now))) neither low high) }
{
    let mut at = start;
    let mut begun: u32 = 0;
    let mut node = neither;
    for _ in 0..count {
        let c = case_head(&graph[at..])?;
        let range = case_range(c);
        if low < range.first {
            return Ok(node);
        }
        if begun < range.first && high <= range.last {
            begun = range.first;
            node = range.node;
        }
        at += range.bytes;
    }
    Ok(node)
}

// Where the cases lead, by a search for the codes of numbers. Only where it does not say, as on another maker's graph, are they
// passed one by one.
pub fn find_case(
    graph: &[u8],
    start: usize,
    count: u16,
    low: u32,
    high: u32,
    neither: u16,
) -> Result<u16, Refusal>
    requires { CasesStand graph.now start count }
    ensures { result ≡ Ok (follow_code (read_or [] (read_cases count (drop start graph.now))) neither low high) }
{
    if codes::NUMBERS <= high {
        if let Some(node) = find_number(graph, start, count, low, high, neither) {
            return Ok(node);
        }
    }
    pass_cases(graph, start, count, low, high, neither)
}
