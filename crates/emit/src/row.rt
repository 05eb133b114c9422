// The header of a graph and all its nodes, in a row.
ghost use Rattle.std.specs.Prelude.{◌≡◌, length};
ghost use Rattle.decision.specs.GraphBytes.{graph_bytes};
ghost use Rattle.tables.specs.views.Planes.{rules_in, place_tests_in};
ghost use Rattle.cuts.specs.views.Cuts.{Parted};
ghost use Rattle.met.specs.views.KeysMet.{keys_in, Chained};
ghost use Rattle.keys.specs.views.Grown.{nodes_from};
ghost use Rattle.emit.specs.views.Laid.{keys_bytes};
ghost use Rattle.emit.specs.views.Written.{Room, Wrote};
ghost use Rattle.graph.specs.views.WriteNode.{header_bytes};

use crate::node::put_one;
use cuts::Runs;
use met::{Keys, count, key_at};
use tables::Tables;

// The header of a graph at the front of a buffer, and the position behind it. Not the rules before the arity, nor a node count with
// its low byte first.
fn put_header(buf: &mut [u8], arity: u8, rules: u8, nodes: u16) -> usize
    requires { Room buf.old 0 (header_bytes arity rules nodes) }
    ensures { Wrote buf.old 0 (header_bytes arity rules nodes) result buf.new }
{
    records::put(
        buf,
        0,
        &[
            0x12,
            arity,
            rules,
            records::high(nodes),
            records::low(nodes),
        ],
    )
}

// The nodes of all keys met, each at its number, and the position behind them. Not one node twice, nor a gap between two.
fn put_nodes(
    buf: &mut [u8],
    start: usize,
    s: &Tables,
    c: &[u64],
    runs: &mut Runs,
    keys: &Keys,
) -> usize
    requires chained { Chained keys.now × Parted (rules_in s.now) (place_tests_in s.now) c.now × (length runs.old ≡ 579) }
    requires room { Room buf.old start (keys_bytes s.now c.now (keys_in keys.now)) }
    ensures { Wrote buf.old start (keys_bytes s.now c.now (keys_in keys.now)) result
        buf.new }
{
    let mut at = start;
    for i in 0..count(keys) {
        at = put_one(buf, at, key_at(keys, i), s, c, runs, keys);
    }
    at
}

// The graph whose nodes are those of all keys met, at the front of a buffer, and the position behind it. Not the first node over
// the header, nor the number of rules where that of nodes belongs.
pub fn put_graph(
    buf: &mut [u8],
    arity: u8,
    s: &Tables,
    c: &[u64],
    runs: &mut Runs,
    keys: &Keys,
) -> usize
    requires chained { Chained keys.now × Parted (rules_in s.now) (place_tests_in s.now) c.now × (length runs.old ≡ 579) }
    requires room { Room buf.old 0 (graph_bytes arity (rules_in s.now) (nodes_from s.now c.now (keys_in keys.now))) }
    ensures { Wrote buf.old 0
        (graph_bytes arity (rules_in s.now) (nodes_from s.now c.now (keys_in keys.now)))
        result buf.new }
{
    let at = put_header(buf, arity, tables::rules(s) as u8, count(keys) as u16);
    put_nodes(buf, at, s, c, runs, keys)
}
