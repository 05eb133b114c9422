// The keys behind the edges of a node, each a few operations on the tables of its sheet.
ghost use Rattle.std.specs.Prelude.{◌≡◌, ◌<◌};
ghost use Rattle.edges.specs.views.VertexKey.{key_in};
ghost use Rattle.edges.specs.views.KeysBehind.{settled_in, held_in, lead_in, root_in, asked_in};
ghost use Rattle.edges.specs.views.KeysBehind.{none_behind, other_behind, run_behind, unknown_behind};

use crate::{Asked, Key};
use tables::{Tables, column, row, under};

// The live rules that have none of some tests. Not those that lack one of them.
fn settled(s: &Tables, live: u64, left: u64) -> u64
    ensures { result ≡ settled_in s.now live left }
{
    let mut all = live;
    let mut to_come = left;
    while to_come != 0 {
        let t = to_come.trailing_zeros() as usize;
        all = masks::minus(all, column(s, t));
        to_come &= to_come - 1;
    }
    all
}

// Those of some tests that a live rule has. Not the tests that all live rules have.
fn held(s: &Tables, live: u64, left: u64) -> u64
    ensures { result ≡ held_in s.now live left }
{
    let mut all: u64 = 0;
    let mut to_come = live;
    while to_come != 0 {
        let i = to_come.trailing_zeros() as usize;
        all |= row(s, i) & left;
        if all == left {
            return left;
        }
        to_come &= to_come - 1;
    }
    all
}

// The key of the node with these live rules, where these tests are left and these rules have none of them. Not suspend where one
// live rule alone is settled, nor tests that only rules not live have.
fn lead(s: &Tables, live: u64, left: u64, settled: u64) -> Key
    ensures { key_in result ≡ lead_in s.now live left settled }
{
    if live == 0 {
        return Key {
            live: 0,
            pending: 0,
        };
    }
    if live.count_ones() == 1 {
        return Key { live, pending: 0 };
    }
    if 1 < masks::size(masks::intersect(live, settled)) {
        return Key {
            live: 0,
            pending: 1,
        };
    }
    Key {
        live,
        pending: held(s, live, left),
    }
}

// The key of the root: "The root has all of both." Not with a rule that the sheet has not, nor of a node that asks where two rules
// have no test.
pub fn root(s: &Tables) -> Key
    ensures { key_in result ≡ root_in s.now }
{
    let live = masks::full(tables::rules(s));
    let left = masks::full(tables::tests(s));
    lead(s, live, left, settled(s, live, left))
}

// What the edges share of the node of a key that asks test t. Not with the test itself left, nor free rules that have it.
pub fn ask(s: &Tables, key: Key, t: usize) -> Asked
    requires { t < 64 }
    ensures { result ≡ asked_in s.now (key_in key) t }
{
    let left = masks::remove(key.pending, t);
    Asked {
        test: t,
        live: key.live,
        free: masks::minus(key.live, column(s, t)),
        left: left,
        settled: settled(s, key.live, left),
    }
}

// The key behind a case that these live rules want. Not with a rule that wants something else there, nor without those that want
// nothing there.
pub fn by_run(s: &Tables, asked: Asked, set: u64) -> Key
    ensures { key_in result ≡ run_behind s.now asked set }
{
    lead(s, asked.free | set, asked.left, asked.settled)
}

// The key behind neither, and behind a pair's no: the rules with the test are dropped. Not with the test still pending, nor without
// the rules that want nothing there.
pub fn by_none(s: &Tables, asked: Asked) -> Key
    ensures { key_in result ≡ none_behind s.now asked }
{
    lead(s, asked.free, asked.left, asked.settled)
}

// The key behind a pair's other: no rule is dropped. Not with the pair still pending, nor without a rule that has it.
pub fn by_other(s: &Tables, asked: Asked) -> Key
    ensures { key_in result ≡ other_behind s.now asked }
{
    lead(s, asked.live, asked.left, asked.settled)
}

// The key behind unknown: no rule is dropped. Not with a place below it still pending, nor with a pair, or a place elsewhere,
// settled.
pub fn by_unknown(s: &Tables, asked: Asked) -> Key
    requires { asked.test < 64 }
    ensures { key_in result ≡ unknown_behind s.now asked }
{
    let left = masks::minus(asked.left, under(s, asked.test));
    lead(s, asked.live, left, settled(s, asked.live, left))
}
