// The cases of a switch, read in one pass: are all whole, their nodes in range, and do they ascend?
ghost use Rattle.std.specs.Prelude.{◌≡◌};
ghost use Rattle.records.specs.Reading.{map_reading};
ghost use Rattle.graph.specs.ReadGraph.{read_cases};
ghost use Rattle.node_check.specs.views.CaseRanges.{rank_of, comes_after, codes_to, range_of, cases_found, checked_cases};

use crate::{CaseRange, CasesFound};
use graph::{CaseRecord, case_head};
use records::Refusal;

// The rank of a range of codes: the higher, the higher its first code is and then its last.
fn rank_of(first: u32, last: u32) -> u64
    ensures { result ≡ rank_of first last }
{
    (first as u64) * 0x1_0000_0000 + (last as u64)
}

// A range of codes, and the number that the rank of the next one must exceed.
fn range_to(first: u32, last: u32, end: u64, node: u16, bytes: usize) -> CaseRange
    ensures { result ≡ codes_to first last end node bytes }
{
    CaseRange {
        first: first,
        last: last,
        end: end,
        node: node,
        bytes: bytes,
    }
}

// The range of a case. After symbols and compounds the next one begins behind their last code, whatever it ends with; number cases
// may overlap.
pub fn case_range(c: CaseRecord) -> CaseRange
    ensures { result ≡ range_of c }
{
    match c {
        CaseRecord::Symbols(low, high, node) => {
            let first = codes::symbol_code(low);
            let last = codes::symbol_code(high);
            range_to(first, last, rank_of(last, 0xffff_ffff), node, 7)
        }
        CaseRecord::Compound(a, n, node) => {
            let code = codes::compound_code(a, n);
            range_to(code, code, rank_of(code, 0xffff_ffff), node, 6)
        }
        CaseRecord::Numbers(low, high, node, gauge) => {
            let first = codes::gauged_code(gauge, low);
            let last = codes::gauged_code(gauge, high);
            range_to(first, last, rank_of(first, last), node, 8)
        }
    }
}

// Does a range of codes come after an end, and its first code not after its last?
fn comes_after(end: u64, first: u32, last: u32) -> bool
    ensures { result ≡ comes_after end first last }
{
    end < rank_of(first, last) && first <= last
}

// The cases that the input begins with, so many, in a graph of so many nodes.
pub fn check_cases(s: &[u8], count: u16, nodes: u16) -> Result<CasesFound, Refusal>
    ensures { checked_cases result ≡ map_reading (cases_found nodes) (read_cases count s.now) }
{
    let mut at: usize = 0;
    let mut end: u64 = 0;
    let mut inside = true;
    let mut ascend = true;
    for _ in 0..count {
        let c = case_head(&s[at..])?;
        let range = case_range(c);
        inside &= range.node < nodes;
        ascend &= comes_after(end, range.first, range.last);
        end = range.end;
        at += range.bytes;
    }
    Ok(CasesFound {
        bytes: at,
        inside,
        ascend,
    })
}
