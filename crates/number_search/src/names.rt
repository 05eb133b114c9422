// The cases of a switch in front of its number cases are passed one by one.
ghost use Rattle.std.specs.Prelude.{◌≤◌};
ghost use Rattle.number_search.specs.views.NumberRows.{CasesStand, SoughtRight};

use crate::numbers::narrowest;
use graph::case_head;
use node_check::cases::case_range;

// Where the cases of a switch, so many from a position of the graph on, lead for the codes of a number or span from low to high, or
// that it does not tell. Symbols and compounds end below a number's code.
pub fn find_number(
    graph: &[u8],
    start: usize,
    count: u16,
    low: u32,
    high: u32,
    neither: u16,
) -> Option<u16>
    requires { CasesStand graph.now start count × (0x3000000 ≤ high) }
    ensures { SoughtRight graph.now start count low high neither result }
{
    let mut at = start;
    for i in 0..count {
        let Ok(c) = case_head(&graph[at..]) else {
            return None;
        };
        let range = case_range(c);
        if codes::NUMBERS <= range.first {
            return narrowest(graph, at, (count - i) as usize, low, high, neither);
        }
        at += range.bytes;
    }
    Some(neither)
}
