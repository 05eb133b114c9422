// The narrowest of the number cases in a row that takes the codes of a number or span.
ghost use Rattle.std.specs.Prelude.{◌+◌, ◌≤◌, ◌≡◌, length};
ghost use Rattle.number_search.specs.views.NumberRows.{rank_at, NumberRow, CountBefore, NumbersRead, SoughtRight};

use codes::gauged_code;
use records::wide;

// The low and the high of the case whose record begins at a position, as one number.
fn rank_at(graph: &[u8], at: usize) -> u64
    requires { at + 8 ≤ length graph.now }
    ensures { result ≡ rank_at graph.now at }
{
    let gauge = graph[at + 1];
    let low = gauged_code(gauge, wide(graph[at + 2], graph[at + 3]));
    let high = gauged_code(gauge, wide(graph[at + 4], graph[at + 5]));
    (low as u64) * 0x1_0000_0000 + (high as u64)
}

// How many of the cases in a row, so many from a position on, come before a low and a high: they ascend, so the case in the middle
// tells in which half the first of the others stands.
fn count_before(graph: &[u8], start: usize, count: usize, rank: u64) -> usize
    requires { NumberRow graph.now start count }
    ensures { CountBefore graph.now start count rank result }
{
    let mut from: usize = 0;
    let mut to = count;
    while from < to {
        let middle = from + (to - from) / 2;
        let passed = rank_at(graph, start + middle * 8) < rank;
        if passed {
            from = middle + 1;
        } else {
            to = middle;
        }
    }
    from
}

// Where the cases in a row lead for the codes from low to high: of the cases that begin at the highest low not above them, the
// first that ends not below them is the narrowest. Where that low is on a gauge below theirs, no case is on it; where none of them
// ends so, it does not tell. Not by a case that begins lower, nor by a wider one that begins there.
pub fn narrowest(
    graph: &[u8],
    start: usize,
    count: usize,
    low: u32,
    high: u32,
    neither: u16,
) -> Option<u16>
    requires { NumbersRead graph.now start count }
    ensures { SoughtRight graph.now start count low high neither result }
{
    let begun = count_before(
        graph,
        start,
        count,
        (low as u64) * 0x1_0000_0000 + 0xffff_ffff,
    );
    if begun == 0 {
        return Some(neither); // each begins above them
    }
    let begins = rank_at(graph, start + (begun - 1) * 8) / 0x1_0000_0000;
    if begins / 0x1_0000 < (high as u64) / 0x1_0000 {
        return Some(neither); // none is on their gauge
    }
    let found = count_before(graph, start, begun, begins * 0x1_0000_0000 + (high as u64));
    if found == begun {
        return None;
    }
    let at = start + found * 8;
    Some(wide(graph[at + 6], graph[at + 7]))
}
