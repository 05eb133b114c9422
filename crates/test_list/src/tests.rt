// The tests of a sheet in its tables: the tested places, ascending, then the kept pairs, and of each place what an unknown there
// settles.
ghost use Rattle.std.specs.Prelude.{◌≡◌, map, ◌+◌, ◌≤◌, ◌<◌, length, take};
ghost use Rattle.places.specs.Numbering.{stride, levels_at};
ghost use Rattle.sheet_tests.specs.views.TestedPlaces.{places_in};
ghost use Rattle.tables.specs.views.Planes.{place_tests_in};
ghost use Rattle.test_list.specs.views.Numbers.{number_all};
ghost use Rattle.test_list.specs.views.Tests.{Counted, put_all, spot_code, tests_put, is_within, settled_below, under_put};

use crate::list_places;
use crate::numbers::number_places;
use tables::Tables;

// A place as the code of its test.
fn spot(x: u16) -> u64
    ensures { result ≡ spot_code x }
{
    let place = x as u64;
    place * 0x1_0000 + place
}

// Writes down the listed places, from number 0 on.
fn put_places(places: &[u16; 64], count: usize, s: &mut Tables)
    requires { (count ≤ 64) × (length places.now ≡ 64) × (length s.old ≡ 324) }
    ensures { s.new ≡ put_all 4 (map spot_code (take count places.now)) s.old }
{
    for t in 0..count {
        s[4 + t] = spot(places[t]);
    }
}

// Writes down the pairs, behind so many places.
fn put_pairs(codes: &[u32; 65], pairs: usize, count: usize, s: &mut Tables)
    requires { (count + pairs ≤ 64) × (length codes.now ≡ 65) × (length s.old ≡ 324) }
    ensures { s.new ≡ put_all (4 + count) (take pairs codes.now) s.old }
{
    for t in 0..pairs {
        s[4 + count + t] = codes[t] as u64;
    }
}

// Writes down the listed places, the pairs, and how many there are. Not a pair before a place, nor a count without the pairs.
pub fn put_tests(places: &[u16; 64], count: usize, codes: &[u32; 65], pairs: usize, s: &mut Tables)
    requires { (count + pairs ≤ 64) × (length places.now ≡ 64) × (length codes.now ≡ 65) × (length s.old ≡ 324) }
    ensures { s.new
        ≡ tests_put (take count places.now) (take pairs codes.now) s.old }
{
    put_places(places, count, s);
    put_pairs(codes, pairs, count, s);
    s[1] = (count + pairs) as u64;
    s[2] = count as u64;
}

// Where the places at and below a place end.
fn below_end(p: usize) -> usize
    requires { p < 0x1_0000 }
    ensures { result ≡ p + stride (levels_at p) }
{
    p + places::step(places::depth(p) - 1)
}

// Does a number stand from p on before an end?
fn is_inside(p: usize, end: usize, x: usize) -> bool
    ensures { result ≡ is_within p end x }
{
    p <= x && x < end
}

// The tests that an unknown at place test t settles: those of its place and of places below it. Not one at a place above it, nor
// the place itself left out, nor a pair.
fn settled(s: &Tables, t: usize) -> u64
    requires { Counted s.now × (t < place_tests_in s.now) }
    ensures { result ≡ settled_below s.now t }
{
    let p = (tables::test(s, t) % 0x1_0000) as usize;
    let end = below_end(p);
    let count = tables::place_tests(s);
    let mut all: u64 = 0;
    for u in t..count {
        if is_inside(p, end, (tables::test(s, u) % 0x1_0000) as usize) {
            all |= 1 << u;
        }
    }
    all
}

// Writes down of each place test what an unknown there settles.
fn put_under(s: &mut Tables)
    requires { Counted s.old }
    ensures { s.new ≡ under_put s.old }
{
    let count = tables::place_tests(s);
    for t in 0..count {
        s[196 + t] = settled(s, t);
    }
}

// Lists the tests that the words and the first of the codes hold, and numbers the places. Not the places in the order of the rules,
// nor a pair that is not kept.
pub fn list_tests(
    words: &[u64; 11],
    codes: &[u32; 65],
    pairs: usize,
    s: &mut Tables,
    numbers: &mut [u8; 680],
)
    requires { (length words.now ≡ 11) × (length codes.now ≡ 65) × (length (places_in words.now) + pairs ≤ 64)
        × (length s.old ≡ 324) × (length numbers.old ≡ 680) }
    ensures s_after { s.new
        ≡ under_put (tests_put (places_in words.now) (take pairs codes.now) s.old) }
    ensures numbers_after { numbers.new ≡ number_all (places_in words.now) 0 numbers.old }
{
    let mut places = [0u16; 64];
    let count = list_places(words, &mut places);
    number_places(&places, count, numbers);
    put_tests(&places, count, codes, pairs, s);
    put_under(s);
}
