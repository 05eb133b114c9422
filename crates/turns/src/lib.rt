// The order in which the tests of a sheet are asked, in its tables: of each test the set of those asked before it.
#![tactic(auto)]

ghost use Rattle.std.specs.Prelude.{◌≡◌, map, ℕ, ◌≤◌, ◌<◌, length};
ghost use Rattle.basics.specs.Lists.{All, count_from};
ghost use Rattle.tables.specs.views.Planes.{tests_in};
ghost use Rattle.test_list.specs.views.Numbers.{Small};
ghost use Rattle.test_list.specs.views.Tests.{put_all};
ghost use Rattle.turns.specs.views.Turned.{lower_tests, is_test_of, turned_by};

use tables::Tables;

// "Otherwise it asks the lowest pending test": before each test all lower ones are asked. Not the test itself too, nor only the one
// below it.
pub fn lowest_first(s: &mut Tables)
    requires { (length s.old ≡ 324) × (tests_in s.old ≤ 64) }
    ensures { s.new ≡ put_all 260 (map lower_tests (count_from 0 (tests_in s.old))) s.old }
{
    let count = tables::tests(s);
    for t in 0..count {
        s[260 + t] = masks::full(t);
    }
}

// Is place p tested by test t, which is below 64?
fn is_test_of(s: &Tables, t: usize, p: usize) -> bool
    requires { t < 64 }
    ensures { result ≡ is_test_of s.now t p }
{
    t < tables::place_tests(s) && tables::test(s, t) % 0x1_0000 == p as u64
}

// "A loaded table of 680 wide place numbers replaces the ascending order of places": before the test of each place those of the
// places in front of it are asked. Not those behind it, nor a pair.
pub fn by_places(places: &[u16; 680], numbers: &[u8; 680], s: &mut Tables)
    requires { (length places.now ≡ 680) × All (λ (p : ℕ). p < 680) places.now × (length numbers.now ≡ 680)
        × Small numbers.now × (length s.old ≡ 324) }
    ensures { s.new ≡ turned_by numbers.now places.now 0 s.old }
{
    let mut asked: u64 = 0;
    for &place in places {
        let p = place as usize;
        let t = numbers[p] as usize;
        if is_test_of(s, t, p) {
            s[260 + t] = asked;
            asked = masks::insert(asked, t);
        }
    }
}
