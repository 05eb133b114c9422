// The records of nodes and cases, each written into the part of a lent buffer that begins at the current end.
#![tactic(auto)]

ghost use Rattle.std.specs.Prelude.{◌+◌, ◌≤◌, ◌≡◌, [], ◌∷◌, length};
ghost use Rattle.records.specs.Fields.{wide_then};
ghost use Rattle.records.specs.Writing.{splice};
ghost use Rattle.decision.specs.GraphBytes.{leaf_bytes};
ghost use Rattle.graph.specs.declared.NodeRecord.TheVariants.{Switch, Pair};
ghost use Rattle.graph.specs.declared.CaseRecord.TheVariants.{Symbols, Compound, Numbers};
ghost use Rattle.graph.specs.views.NodeRecord.{leaf_of};
ghost use Rattle.graph.specs.views.WriteNode.{node_record_bytes, case_record_bytes};

use graph::{CaseRecord, Leaf, NodeRecord};

// A leaf's record, and the position behind it.
fn put_leaf(buf: &mut [u8], at: usize, leaf: Leaf) -> usize
    requires { at + length (leaf_bytes (leaf_of leaf)) ≤ length buf.old }
    ensures { (result ≡ at + length (leaf_bytes (leaf_of leaf)))
        × (buf.new ≡ splice buf.old at (leaf_bytes (leaf_of leaf))) }
{
    match leaf {
        Leaf::Fail => records::put(buf, at, &[0x40]),
        Leaf::Suspend => records::put(buf, at, &[0x41]),
        Leaf::Execute(rule) => records::put(buf, at, &[0x42, rule]),
    }
}

// A switch's record, without its cases, and the position behind it.
fn put_switch(buf: &mut [u8], at: usize, n: u16, count: u16, neither: u16, unknown: u16) -> usize
    requires { at + length (node_record_bytes (Switch n count neither unknown)) ≤ length buf.old }
    ensures { (result ≡ at + length (node_record_bytes (Switch n count neither unknown)))
        × (buf.new ≡ splice buf.old at (node_record_bytes (Switch n count neither unknown))) }
{
    records::put(
        buf,
        at,
        &[
            0x43,
            records::high(n),
            records::low(n),
            records::high(count),
            records::low(count),
            records::high(neither),
            records::low(neither),
            records::high(unknown),
            records::low(unknown),
        ],
    )
}

// A pair's record, and the position behind it.
fn put_pair(buf: &mut [u8], at: usize, p: u16, q: u16, differ: u16, other: u16) -> usize
    requires { at + length (node_record_bytes (Pair p q differ other)) ≤ length buf.old }
    ensures { (result ≡ at + length (node_record_bytes (Pair p q differ other)))
        × (buf.new ≡ splice buf.old at (node_record_bytes (Pair p q differ other))) }
{
    records::put(
        buf,
        at,
        &[
            0x47,
            records::high(p),
            records::low(p),
            records::high(q),
            records::low(q),
            records::high(differ),
            records::low(differ),
            records::high(other),
            records::low(other),
        ],
    )
}

// A node's record, without its cases, and the position behind it. A writer that puts a switch's unknown before its neither, or
// sets the byte after the record, is none.
pub fn put_node(buf: &mut [u8], at: usize, node: NodeRecord) -> usize
    requires { at + length (node_record_bytes node) ≤ length buf.old }
    ensures { (result ≡ at + length (node_record_bytes node))
        × (buf.new ≡ splice buf.old at (node_record_bytes node)) }
{
    match node {
        NodeRecord::End(leaf) => put_leaf(buf, at, leaf),
        NodeRecord::Switch(n, count, neither, unknown) => put_switch(
            buf, at, n, count, neither, unknown,
        ),
        NodeRecord::Pair(p, q, differ, other) => put_pair(buf, at, p, q, differ, other),
    }
}

// The record of a run of ids, and the position behind it.
fn put_symbols(buf: &mut [u8], at: usize, low: u16, high: u16, node: u16) -> usize
    requires { at + length (case_record_bytes (Symbols low high node)) ≤ length buf.old }
    ensures { (result ≡ at + length (case_record_bytes (Symbols low high node)))
        × (buf.new ≡ splice buf.old at (case_record_bytes (Symbols low high node))) }
{
    records::put(
        buf,
        at,
        &[
            0x44,
            records::high(low),
            records::low(low),
            records::high(high),
            records::low(high),
            records::high(node),
            records::low(node),
        ],
    )
}

// A compound case's record, and the position behind it.
fn put_compound(buf: &mut [u8], at: usize, a: u16, arity: u8, node: u16) -> usize
    requires { at + length (case_record_bytes (Compound a arity node)) ≤ length buf.old }
    ensures { (result ≡ at + length (case_record_bytes (Compound a arity node)))
        × (buf.new ≡ splice buf.old at (case_record_bytes (Compound a arity node))) }
{
    records::put(
        buf,
        at,
        &[
            0x45,
            records::high(a),
            records::low(a),
            arity,
            records::high(node),
            records::low(node),
        ],
    )
}

// The record of numbers on a gauge, and the position behind it.
fn put_numbers(buf: &mut [u8], at: usize, gauge: u8, low: u16, high: u16, node: u16) -> usize
    requires { at + length (case_record_bytes (Numbers low high node gauge)) ≤ length buf.old }
    ensures { (result ≡ at + length (case_record_bytes (Numbers low high node gauge)))
        × (buf.new ≡ splice buf.old at (case_record_bytes (Numbers low high node gauge))) }
{
    records::put(
        buf,
        at,
        &[
            0x46,
            gauge,
            records::high(low),
            records::low(low),
            records::high(high),
            records::low(high),
            records::high(node),
            records::low(node),
        ],
    )
}

// A case's record, and the position behind it. A writer that puts a high before its low, or the node first, is none.
pub fn put_case(buf: &mut [u8], at: usize, c: CaseRecord) -> usize
    requires { at + length (case_record_bytes c) ≤ length buf.old }
    ensures { (result ≡ at + length (case_record_bytes c))
        × (buf.new ≡ splice buf.old at (case_record_bytes c)) }
{
    match c {
        CaseRecord::Symbols(low, high, node) => put_symbols(buf, at, low, high, node),
        CaseRecord::Compound(a, arity, node) => put_compound(buf, at, a, arity, node),
        CaseRecord::Numbers(low, high, node, gauge) => put_numbers(buf, at, gauge, low, high, node),
    }
}
