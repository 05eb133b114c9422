// The edges of one node: the keys behind them are met, and the node's record is measured.
ghost use Rattle.std.specs.Prelude.{◌≡◌, List, [], ◌∷◌, map, ℕ, ◌*◌, ◌-◌, ◌≤◌, ◌<◌, length};
ghost use Rattle.decision.specs.GraphBytes.{leaf_bytes, case_bytes};
ghost use Rattle.graph.specs.views.NodeRecord.{leaf_of};
ghost use Rattle.tables.specs.views.Planes.{rules_in, place_tests_in};
ghost use Rattle.cuts.specs.views.Cuts.{Parted};
ghost use Rattle.cuts.specs.views.Runs.{run_case, runs_in};
ghost use Rattle.cuts.specs.views.CaseRuns.{union_pairs, gauge_pairs, case_runs, runs_from, pairs_row};
ghost use Rattle.edges.specs.views.VertexKey.{key_in};
ghost use Rattle.edges.specs.views.NodeIn.{run_edge, ask_in, node_in};
ghost use Rattle.met.specs.views.KeysMet.{key_at, count_in, keys_in, Chained};
ghost use Rattle.keys.specs.views.Expanded.{AtMost, most_length, Met, CasesMet, EdgesMet};

use crate::Kind;
use crate::node::kind_of;
use cuts::{Framed, Row, Runs, cut_switch, gauge_end, part};
use edges::keys::{ask, by_none, by_other, by_run, by_unknown};
use edges::{Asked, Key};
use graph::Leaf;
use met::{Keys, key_at, meet};
use tables::Tables;

// The length of a leaf's record. Not one byte for execute, nor two for suspend.
fn leaf_length(leaf: Leaf) -> usize
    ensures { (result ≡ length (leaf_bytes (leaf_of leaf))) × (result ≤ 2) }
{
    match leaf {
        Leaf::Fail => 1,
        Leaf::Suspend => 1,
        Leaf::Execute(_) => 2,
    }
}

// The length of the record of the case that begins at a code. Not a compound's for symbols or numbers, nor that of
// symbols for numbers.
fn case_length(code: u64) -> usize
    ensures { ((high : ℕ) → result ≡ length (case_bytes (run_case code high) 0)) × (result ≤ 8) }
{
    if code < 0x200_0000 {
        return 7;
    }
    if code < 0x300_0000 {
        return 6;
    }
    8
}

// Meets two keys, one after the other, where so many bytes are measured. Not the second first, nor the first alone.
fn meet_two(keys: &mut Keys, first: Key, second: Key, bytes: usize) -> Option<usize>
    requires { Chained keys.old }
    ensures met { Met (keys_in keys.old) (key_in first ∷ (key_in second ∷ [])) bytes result keys.new }
    ensures chained { Chained keys.new × AtMost bytes result }
{
    if 1024 <= meet(keys, first) {
        return None;
    }
    if 1024 <= meet(keys, second) {
        return None;
    }
    Some(bytes)
}

// Meets the keys behind the runs that are cases by themselves, in their order, and counts the bytes of their records. Not a case
// that the runs have not, nor the case that ends first before one that begins first.
fn meet_names(keys: &mut Keys, s: &Tables, asked: Asked, runs: &Runs, count: usize) -> Option<usize>
    requires { Chained keys.old × (count ≤ 193) }
    ensures cases_met { CasesMet (map (run_edge s.now asked) (runs_in runs.now count))
        (keys_in keys.old) result keys.new }
    ensures chained { Chained keys.new × AtMost (8 * count) result }
{
    let mut bytes: usize = 0;
    for k in 0..count {
        if 1024 <= meet(keys, by_run(s, asked, runs[3 * k + 2])) {
            return None;
        }
        bytes += case_length(runs[3 * k]);
    }
    Some(bytes)
}

// Meets the keys behind a row of pairs, in their order, and counts the bytes of their records. Where the next run adds no rule, its
// key was just met. Not a pair without the rules of its first run, nor the row without the pair of the first run with itself.
fn meet_row(keys: &mut Keys, s: &Tables, asked: Asked, runs: &Runs, row: Row) -> Option<usize>
    requires { Chained keys.old × (row.first < row.count) × (row.count ≤ 193) }
    ensures cases_met { CasesMet (map (run_edge s.now asked) (pairs_row runs.now row.count row.first))
        (keys_in keys.old) result keys.new }
    ensures chained { Chained keys.new × AtMost 1544 result }
{
    let first = row.first;
    let count = row.count;
    let size = case_length(runs[3 * first]);
    let mut set = runs[3 * first + 2];
    if 1024 <= meet(keys, by_run(s, asked, set)) {
        return None;
    }
    let mut bytes: usize = 0;
    for k in first..count {
        let more = set | runs[3 * k + 2];
        if more != set {
            if 1024 <= meet(keys, by_run(s, asked, more)) {
                return None;
            }
        }
        set = more;
        bytes += size;
    }
    Some(bytes)
}

// Meets the keys behind the pairs of runs on one gauge, row after row. Not a row before that of an earlier first run, nor the first
// row alone.
fn meet_pairs(keys: &mut Keys, s: &Tables, asked: Asked, runs: &Runs, all: Row) -> Option<usize>
    requires { Chained keys.old × (all.first ≤ all.count) × (all.count ≤ 193) }
    ensures cases_met { CasesMet (map (run_edge s.now asked)
        (union_pairs (runs_from runs.now all.count all.first)))
        (keys_in keys.old) result keys.new }
    ensures chained { Chained keys.new × AtMost (1544 * (all.count - all.first)) result }
{
    let count = all.count;
    let mut bytes: usize = 0;
    for first in all.first..count {
        let row = Row { first, count };
        bytes += meet_row(keys, s, asked, runs, row)?;
    }
    Some(bytes)
}

// Meets the keys behind the pairs of the runs that are not cases by themselves, gauge after gauge. Not a pair of runs on two
// gauges, nor the first gauge alone.
fn meet_gauges(
    keys: &mut Keys,
    s: &Tables,
    asked: Asked,
    runs: &Runs,
    framed: Framed,
) -> Option<usize>
    requires { Chained keys.old × (framed.names ≤ framed.count) × (framed.count ≤ 193) × (length runs.now ≡ 579) }
    ensures cases_met { CasesMet (map (run_edge s.now asked)
        (gauge_pairs (runs_from runs.now framed.count framed.names)))
        (keys_in keys.old) result keys.new }
    ensures chained { Chained keys.new × AtMost (1544 * (framed.count - framed.names)) result }
{
    let mut bytes: usize = 0;
    let mut first = framed.names;
    while first < framed.count {
        let end = gauge_end(runs, first, framed.count);
        bytes += meet_pairs(
            keys,
            s,
            asked,
            runs,
            Row {
                first: first,
                count: end,
            },
        )?;
        first = end;
    }
    Some(bytes)
}

// Meets the keys behind a switch's cases, in their order, and counts the bytes of their records. Not a pair before a run that is a
// case by itself, nor the pairs alone.
fn meet_runs(
    keys: &mut Keys,
    s: &Tables,
    asked: Asked,
    runs: &Runs,
    framed: Framed,
) -> Option<usize>
    requires { Chained keys.old × (framed.names ≤ framed.count) × (framed.count ≤ 193) × (length runs.now ≡ 579) }
    ensures cases_met { CasesMet (map (run_edge s.now asked)
        (case_runs framed.names (runs_in runs.now framed.count)))
        (keys_in keys.old) result keys.new }
    ensures chained { Chained keys.new × AtMost (8 * 193 * 193) result }
{
    let bytes = meet_names(keys, s, asked, runs, framed.names)?;
    let more = meet_gauges(keys, s, asked, runs, framed)?;
    Some(bytes + more)
}

// A switch. Not neither before a case, nor unknown before neither.
fn expand_switch(
    keys: &mut Keys,
    s: &Tables,
    c: &[u64],
    asked: Asked,
    runs: &mut Runs,
) -> Option<usize>
    requires { Chained keys.old × Parted (rules_in s.now) (place_tests_in s.now) c.now
        × (asked.test < place_tests_in s.now) × (length runs.old ≡ 579) }
    ensures edges_met { EdgesMet (ask_in s.now c.now asked) (keys_in keys.old) result keys.new }
    ensures chained { Chained keys.new × AtMost most_length result × (length runs.new ≡ 579) }
{
    let framed = cut_switch(c, part(tables::rules(s), asked.test), asked.live, runs);
    let bytes = meet_runs(keys, s, asked, runs, framed)?;
    let neither = by_none(s, asked);
    let unknown = by_unknown(s, asked);
    meet_two(keys, neither, unknown, bytes + graph::SWITCH_BYTES)
}

// A pair. Not other before no, nor the bytes of a switch.
fn expand_pair(keys: &mut Keys, s: &Tables, asked: Asked) -> Option<usize>
    requires { Chained keys.old × (place_tests_in s.now ≤ asked.test) }
    ensures by_index { (c : List ℕ)
        → EdgesMet (ask_in s.now c asked) (keys_in keys.old) result keys.new }
    ensures chained { Chained keys.new × AtMost most_length result }
{
    let differ = by_none(s, asked);
    let other = by_other(s, asked);
    meet_two(keys, differ, other, 9)
}

// Meets the keys behind the edges of node k, in their order, and measures its record with its cases. Not a key before one behind an
// earlier edge, nor the length of a switch's record without its cases.
pub fn expand(keys: &mut Keys, k: usize, s: &Tables, c: &[u64], runs: &mut Runs) -> Option<usize>
    requires { Chained keys.old × (k < count_in keys.old) × Parted (rules_in s.now) (place_tests_in s.now) c.now
        × (length runs.old ≡ 579) }
    ensures edges_met { EdgesMet (node_in s.now c.now (key_at keys.old k)) (keys_in keys.old)
        result keys.new }
    ensures chained { Chained keys.new × AtMost most_length result × (length runs.new ≡ 579) }
{
    let key = key_at(keys, k);
    let kind = kind_of(s, key);
    match kind {
        Kind::End(leaf) => Some(leaf_length(leaf)),
        Kind::Ask(t) => {
            let asked = ask(s, key, t);
            if tables::place_tests(s) <= t {
                return expand_pair(keys, s, asked);
            }
            expand_switch(keys, s, c, asked, runs)
        }
    }
}
