// The nodes of a graph, each asked questions 22 to 24.
ghost use Rattle.std.specs.Prelude.{◌≤◌, ◌≡◌, length, drop};
ghost use Rattle.records.specs.Reading.{after};
ghost use Rattle.graph.specs.ReadGraph.{read_node, read_nodes};
ghost use Rattle.node_check.specs.views.CheckNode.{kept_test, bytes_read, checked, leaf_check, switch_check};
ghost use Rattle.node_check.specs.views.CheckNode.{starts_from, checked_nodes};

use crate::cases::check_cases;
use crate::kept::{has_pair, has_place};
use graph::{Leaf, NodeRecord, SWITCH_BYTES, node_head};
use records::Refusal;

// A leaf, where the sheet has so many rules.
fn check_leaf(leaf: Leaf, rules: u8) -> Result<usize, Refusal>
    ensures { checked result ≡ leaf_check rules leaf }
{
    match leaf {
        Leaf::Fail => Ok(1),
        Leaf::Suspend => Ok(1),
        Leaf::Execute(rule) => {
            if 1 <= rule && rule <= rules {
                Ok(2)
            } else {
                Err(Refusal::OutOfRange)
            }
        }
    }
}

// A switch whose cases the input begins with, where its place, neither and unknown are known to be right or not.
fn check_switch(s: &[u8], known: bool, count: u16, nodes: u16) -> Result<usize, Refusal>
    ensures { checked result ≡ switch_check known count nodes s.now }
{
    if count < 1 {
        return Err(Refusal::NotANode);
    }
    let cases = check_cases(s, count, nodes)?;
    if !(known && cases.inside) {
        return Err(Refusal::OutOfRange);
    }
    if !cases.ascend {
        return Err(Refusal::NotAscending);
    }
    Ok(SWITCH_BYTES + cases.bytes)
}

// The node that the input begins with, in a graph of so many nodes.
fn check_node(
    s: &[u8],
    words: &[u64; 11],
    codes: &[u32; 65],
    count: usize,
    rules: u8,
    nodes: u16,
) -> Result<usize, Refusal>
    requires { (length words.now ≡ 11) × (count ≤ 65) × (length codes.now ≡ 65) }
    ensures { checked result
        ≡ bytes_read (read_node (kept_test words.now codes.now count) rules nodes s.now) }
{
    let node = node_head(s)?;
    match node {
        NodeRecord::End(leaf) => check_leaf(leaf, rules),
        NodeRecord::Switch(place, cases, neither, unknown) => {
            let known = has_place(words, place) & (neither < nodes) & (unknown < nodes);
            check_switch(&s[SWITCH_BYTES..], known, cases, nodes)
        }
        NodeRecord::Pair(p, q, differ, other) => {
            if has_pair(codes, count, p, q) && differ < nodes && other < nodes {
                Ok(9)
            } else {
                Err(Refusal::OutOfRange)
            }
        }
    }
}

// The nodes of a graph, behind its header of 5 bytes, and where each begins.
pub fn check_nodes(
    s: &[u8],
    words: &[u64; 11],
    codes: &[u32; 65],
    count: usize,
    rules: u8,
    nodes: u16,
    starts: &mut [u32; 1024],
) -> Result<usize, Refusal>
    requires words_len { (length words.now ≡ 11) × (count ≤ 65) × (length codes.now ≡ 65) }
    requires in_bounds { (5 ≤ length s.now) × (nodes ≤ 1024) × (length starts.old ≡ 1024) }
    ensures starts_after { checked_nodes nodes result starts.new
        ≡ after 5 (starts_from 5)
        (read_nodes (kept_test words.now codes.now count) rules nodes
        (drop 5 s.now)) }
    ensures starts_len { length starts.new ≡ 1024 }
{
    let mut at: usize = 5;
    for i in 0..nodes as usize {
        let bytes = check_node(&s[at..], words, codes, count, rules, nodes)?;
        starts[i] = at as u32;
        at += bytes;
    }
    Ok(at)
}
