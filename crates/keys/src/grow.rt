// All keys of a graph.
ghost use Rattle.std.specs.Prelude.{◌≡◌, ◌*◌, length, replicate};
ghost use Rattle.tables.specs.views.Planes.{rules_in, place_tests_in};
ghost use Rattle.cuts.specs.views.Cuts.{Parted};
ghost use Rattle.met.specs.views.KeysMet.{Chained};
ghost use Rattle.keys.specs.views.Expanded.{AtMost, most_length};
ghost use Rattle.keys.specs.views.Grown.{Grown};

use crate::expand::expand;
use cuts::Runs;
use edges::keys::root;
use met::{Keys, add, count};
use tables::Tables;

// Meets all keys of a graph, each at its node's number, and adds up the lengths of their records. Not the keys behind the root's
// edges alone, nor a key before one behind an earlier node's edges.
pub fn grow(keys: &mut Keys, s: &Tables, c: &[u64], runs: &mut Runs) -> Option<usize>
    requires { (keys.old ≡ replicate 4097 0) × Parted (rules_in s.now) (place_tests_in s.now) c.now
        × (length runs.old ≡ 579) }
    ensures grown { Grown s.now c.now result keys.new }
    ensures chained { Chained keys.new × AtMost (1024 * most_length) result × (length runs.new ≡ 579) }
{
    let first = root(s);
    add(keys, first.live, first.pending);
    let mut bytes: usize = 0;
    let mut k: usize = 0;
    while k < count(keys) {
        bytes += expand(keys, k, s, c, runs)?;
        k += 1;
    }
    Some(bytes)
}
