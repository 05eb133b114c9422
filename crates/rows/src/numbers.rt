// The numbers of a sheet's tests: a place's number is one load from a table, a pair's is found among the listed pairs.
ghost use Rattle.std.specs.Prelude.{◌≡◌, ◌<◌, get_or};
ghost use Rattle.pairs.specs.views.KeptPairs.{pair_code};
ghost use Rattle.tables.specs.views.Planes.{place_tests_in};
ghost use Rattle.test_list.specs.views.Numbers.{Small};
ghost use Rattle.rows.specs.views.Row.{pair_number};
ghost use Rattle.test_list.specs.views.Tests.{Counted, pairs_listed};

use tables::Tables;

// The number of a place. Not the place itself, nor the number of the place before it.
pub fn place_number(numbers: &[u8; 680], place: usize) -> usize
    requires { (place < 680) × Small numbers.now }
    ensures { (result ≡ get_or numbers.now place 0) × (result < 64) }
{
    numbers[place] as usize
}

// The number of a pair of places: behind the places, its place among the listed pairs. Not its place among the pairs alone, nor
// that of the pair behind it.
pub fn pair_number(s: &Tables, p: usize, q: usize) -> usize
    requires { Counted s.now × (p < 680) × (q < 680) }
    ensures { result ≡ pair_number (place_tests_in s.now) (pairs_listed s.now) (pair_code p q) }
{
    let code = (p as u64) * 0x1_0000 + q as u64;
    let count = tables::place_tests(s);
    let pairs = tables::tests(s) - count;
    for i in 0..pairs {
        if code <= tables::test(s, count + i) {
            return count + i;
        }
    }
    count + pairs
}
