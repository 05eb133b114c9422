// One node of a graph as a record, with a switch's cases behind it.
ghost use Rattle.std.specs.Prelude.{◌≡◌, List, ℕ, ◌+◌, ◌≤◌, ◌<◌, length};
ghost use Rattle.decision.specs.GraphBytes.{case_bytes};
ghost use Rattle.graph.specs.views.WriteNode.{case_record_bytes};
ghost use Rattle.tables.specs.views.Planes.{rules_in, place_tests_in};
ghost use Rattle.cuts.specs.views.Cuts.{Parted};
ghost use Rattle.cuts.specs.views.Runs.{run_case, runs_in};
ghost use Rattle.cuts.specs.views.CaseRuns.{union_pairs, gauge_pairs, case_runs, runs_from, pairs_row};
ghost use Rattle.edges.specs.views.VertexKey.{key_in};
ghost use Rattle.met.specs.views.KeysMet.{key_number, keys_in, Chained};
ghost use Rattle.emit.specs.views.Laid.{run_bytes, ask_bytes, key_bytes};
ghost use Rattle.emit.specs.views.Written.{Room, Wrote};

use cuts::{Framed, Row, Runs, case_count, cut_switch, gauge_end, part};
use edges::keys::{ask, by_none, by_other, by_run, by_unknown};
use edges::{Asked, Key};
use graph::{CaseRecord, NodeRecord};
use keys::Kind;
use keys::node::kind_of;
use met::Keys;
use node_writing::{put_case, put_node};
use tables::Tables;

// The number of the node that has a key. Not that of a key with the same live rules alone, nor one that counts from 1.
fn node_of(keys: &Keys, key: Key) -> u16
    requires { Chained keys.now }
    ensures { result ≡ key_number (keys_in keys.now) (key_in key) }
{
    met::find(keys, key.live, key.pending) as u16
}

// The record of the case whose codes run from one to another. Not the record of symbols that have a compound's id, nor one of
// numbers on another gauge, nor one of symbols or numbers that ends at its low.
fn case_record(first: u64, last: u64, node: u16) -> CaseRecord
    ensures { case_record_bytes result ≡ case_bytes (run_case first last) node }
{
    if first < 0x200_0000 {
        return CaseRecord::Symbols((first % 0x1_0000) as u16, (last % 0x1_0000) as u16, node);
    }
    if first < 0x300_0000 {
        return CaseRecord::Compound((first / 256 % 0x1_0000) as u16, (first % 256) as u8, node);
    }
    let gauge = (first / 0x1_0000 % 256) as u8;
    CaseRecord::Numbers(
        (first % 0x1_0000) as u16,
        (last % 0x1_0000) as u16,
        node,
        gauge,
    )
}

// The runs of a switch that are cases by themselves, and the position behind them. Not one that leads to the node of another case,
// nor the last without its record.
fn put_names(
    buf: &mut [u8],
    start: usize,
    s: &Tables,
    asked: Asked,
    runs: &Runs,
    count: usize,
    keys: &Keys,
) -> usize
    requires { Chained keys.now × (count ≤ 193)
        × Room buf.old start (run_bytes s.now (keys_in keys.now) asked (runs_in runs.now count)) }
    ensures { Wrote buf.old start
        (run_bytes s.now (keys_in keys.now) asked (runs_in runs.now count)) result buf.new }
{
    let mut at = start;
    for k in 0..count {
        let node = node_of(keys, by_run(s, asked, runs[3 * k + 2]));
        at = put_case(buf, at, case_record(runs[3 * k], runs[3 * k + 1], node));
    }
    at
}

// A row of pairs, and the position behind it: where the next run adds no rule, its case leads to the node of the one before. Not a
// case that ends with its first run, nor one that leads to the node of its last run alone.
fn put_row(
    buf: &mut [u8],
    start: usize,
    s: &Tables,
    asked: Asked,
    runs: &Runs,
    row: Row,
    keys: &Keys,
) -> usize
    requires { Chained keys.now × (row.first < row.count) × (row.count ≤ 193)
        × Room buf.old start (run_bytes s.now (keys_in keys.now) asked (pairs_row runs.now row.count row.first)) }
    ensures { Wrote buf.old start (run_bytes s.now (keys_in keys.now) asked
        (pairs_row runs.now row.count row.first)) result buf.new }
{
    let first = row.first;
    let count = row.count;
    let low = runs[3 * first];
    let mut set = runs[3 * first + 2];
    let mut node = node_of(keys, by_run(s, asked, set));
    let mut at = start;
    for k in first..count {
        let more = set | runs[3 * k + 2];
        if more != set {
            node = node_of(keys, by_run(s, asked, more));
        }
        set = more;
        at = put_case(buf, at, case_record(low, runs[3 * k + 1], node));
    }
    at
}

// The pairs of runs on one gauge, row after row, and the position behind them. Not a row over the one before it, nor the first row
// alone.
fn put_pairs(
    buf: &mut [u8],
    start: usize,
    s: &Tables,
    asked: Asked,
    runs: &Runs,
    all: Row,
    keys: &Keys,
) -> usize
    requires { Chained keys.now × (all.first ≤ all.count) × (all.count ≤ 193)
        × Room buf.old start (run_bytes s.now (keys_in keys.now) asked
        (union_pairs (runs_from runs.now all.count all.first))) }
    ensures { Wrote buf.old start (run_bytes s.now (keys_in keys.now) asked
        (union_pairs (runs_from runs.now all.count all.first))) result buf.new }
{
    let count = all.count;
    let mut at = start;
    for first in all.first..count {
        let row = Row { first, count };
        at = put_row(buf, at, s, asked, runs, row, keys);
    }
    at
}

// The pairs of the runs that are not cases by themselves, gauge after gauge, and the position behind them. Not a pair of runs on
// two gauges, nor the first gauge alone.
fn put_gauges(
    buf: &mut [u8],
    start: usize,
    s: &Tables,
    asked: Asked,
    runs: &Runs,
    framed: Framed,
    keys: &Keys,
) -> usize
    requires { Chained keys.now × (framed.names ≤ framed.count) × (framed.count ≤ 193) × (length runs.now ≡ 579)
        × Room buf.old start (run_bytes s.now (keys_in keys.now) asked
        (gauge_pairs (runs_from runs.now framed.count framed.names))) }
    ensures { Wrote buf.old start (run_bytes s.now (keys_in keys.now) asked
        (gauge_pairs (runs_from runs.now framed.count framed.names))) result buf.new }
{
    let mut at = start;
    let mut first = framed.names;
    while first < framed.count {
        let end = gauge_end(runs, first, framed.count);
        at = put_pairs(buf, at, s, asked, runs, Row { first, count: end }, keys);
        first = end;
    }
    at
}

// The cases of a switch, and the position behind them. Not the pairs before the runs that are cases by themselves, nor over them.
fn put_runs(
    buf: &mut [u8],
    start: usize,
    s: &Tables,
    asked: Asked,
    runs: &Runs,
    framed: Framed,
    keys: &Keys,
) -> usize
    requires { Chained keys.now × (framed.names ≤ framed.count) × (framed.count ≤ 193) × (length runs.now ≡ 579)
        × Room buf.old start (run_bytes s.now (keys_in keys.now) asked
        (case_runs framed.names (runs_in runs.now framed.count))) }
    ensures { Wrote buf.old start (run_bytes s.now (keys_in keys.now) asked
        (case_runs framed.names (runs_in runs.now framed.count))) result buf.new }
{
    let at = put_names(buf, start, s, asked, runs, framed.names, keys);
    put_gauges(buf, at, s, asked, runs, framed, keys)
}

// A switch with its cases, and the position behind it. Not unknown where neither belongs, nor a switch's record without its cases.
fn put_switch(
    buf: &mut [u8],
    at: usize,
    s: &Tables,
    c: &[u64],
    asked: Asked,
    runs: &mut Runs,
    keys: &Keys,
) -> usize
    requires chained { Chained keys.now × Parted (rules_in s.now) (place_tests_in s.now) c.now
        × (asked.test < place_tests_in s.now) × (length runs.old ≡ 579) }
    requires room { Room buf.old at (ask_bytes s.now c.now (keys_in keys.now) asked) }
    ensures wrote { Wrote buf.old at
        (ask_bytes s.now c.now (keys_in keys.now) asked) result buf.new }
    ensures runs_len { length runs.new ≡ 579 }
{
    let t = asked.test;
    let framed = cut_switch(c, part(tables::rules(s), t), asked.live, runs);
    let count = case_count(runs, framed);
    let neither = node_of(keys, by_none(s, asked));
    let unknown = node_of(keys, by_unknown(s, asked));
    let place = (tables::test(s, t) % 0x1_0000) as u16;
    let behind = put_node(
        buf,
        at,
        NodeRecord::Switch(place, count as u16, neither, unknown),
    );
    put_runs(buf, behind, s, asked, runs, framed, keys)
}

// A pair, and the position behind it. Not q before p, nor other where no belongs.
fn put_pair(buf: &mut [u8], at: usize, s: &Tables, asked: Asked, keys: &Keys) -> usize
    requires { Chained keys.now × (place_tests_in s.now ≤ asked.test) × (asked.test < 64) × (at + 9 ≤ length buf.old) }
    ensures { (c : List ℕ) → Wrote buf.old at
        (ask_bytes s.now c (keys_in keys.now) asked) result buf.new }
{
    let code = tables::test(s, asked.test);
    let differ = node_of(keys, by_none(s, asked));
    let other = node_of(keys, by_other(s, asked));
    let p = (code / 0x1_0000 % 0x1_0000) as u16;
    let q = (code % 0x1_0000) as u16;
    put_node(buf, at, NodeRecord::Pair(p, q, differ, other))
}

// The node of a key, and the position behind it. Not a record of another kind, nor an edge to the node of another key.
pub fn put_one(
    buf: &mut [u8],
    at: usize,
    key: Key,
    s: &Tables,
    c: &[u64],
    runs: &mut Runs,
    keys: &Keys,
) -> usize
    requires chained { Chained keys.now × Parted (rules_in s.now) (place_tests_in s.now) c.now × (length runs.old ≡ 579) }
    requires room { Room buf.old at (key_bytes s.now c.now (keys_in keys.now) (key_in key)) }
    ensures wrote { Wrote buf.old at
        (key_bytes s.now c.now (keys_in keys.now) (key_in key)) result buf.new }
    ensures runs_len { length runs.new ≡ 579 }
{
    let kind = kind_of(s, key);
    match kind {
        Kind::End(leaf) => put_node(buf, at, NodeRecord::End(leaf)),
        Kind::Ask(t) => {
            let asked = ask(s, key, t);
            if tables::place_tests(s) <= t {
                return put_pair(buf, at, s, asked, keys);
            }
            put_switch(buf, at, s, c, asked, runs, keys)
        }
    }
}
