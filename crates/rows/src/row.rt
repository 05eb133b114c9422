// The tests of a rule as a set of their numbers, from its notes.
ghost use Rattle.std.specs.Prelude.{◌≡◌, ◌≤◌, ◌<◌, length, drop};
ghost use Rattle.basics.specs.Lists.{All};
ghost use Rattle.sheet.specs.views.NoteArray.{notes_in};
ghost use Rattle.pairs.specs.views.NoteVariables.{codes_with, notes_codes, Placed};
ghost use Rattle.tables.specs.views.Planes.{place_tests_in};
ghost use Rattle.test_list.specs.views.Numbers.{Small};
ghost use Rattle.test_list.specs.views.Tests.{Counted, pairs_listed};
ghost use Rattle.rows.specs.views.Wants.{notes_tests};
ghost use Rattle.rows.specs.views.Row.{with_test, with_tests, place_numbers, pair_numbers, row_of};

use crate::numbers::{pair_number, place_number};
use crate::wants::record_wanted;
use sheet::Ranges;
use tables::Tables;

// The set with a test more; a number from 64 on is no test.
fn with_test(row: u64, t: usize) -> u64
    ensures { result ≡ with_test row t }
{
    if t < 64 {
        return masks::insert(row, t);
    }
    row
}

// The place tests of a rule.
fn places_row(notes: &[u64; 680], n: usize, ranges: Ranges, numbers: &[u8; 680]) -> u64
    requires { (n ≤ 680) × (length notes.now ≡ 680) × All Placed (notes_in notes.now n) × Small numbers.now }
    ensures { result ≡ with_tests (place_numbers numbers.now
        (notes_tests ranges.low ranges.high (notes_in notes.now n))) 0 }
{
    let mut row: u64 = 0;
    for i in 0..n {
        let code = notes[i];
        if record_wanted(patterns::note_record(code), ranges).is_some() {
            row = with_test(row, place_number(numbers, patterns::note_place(code)));
        }
    }
    row
}

// The set with the pairs of a place of variable v with the places of v among the notes from one on.
fn pairs_with(
    notes: &[u64; 680],
    n: usize,
    from: usize,
    place: usize,
    v: u8,
    s: &Tables,
    row: u64,
) -> u64
    requires { (from ≤ n) × (n ≤ 680) × (place < 680) × (length notes.now ≡ 680) × All Placed (notes_in notes.now n)
        × Counted s.now }
    ensures { result ≡ with_tests (pair_numbers (place_tests_in s.now) (pairs_listed s.now)
        (codes_with place v (drop from (notes_in notes.now n)))) row }
{
    let mut all = row;
    for j in from..n {
        let code = notes[j];
        if pairs::rule::is_named(v, patterns::note_record(code)) {
            let q = patterns::note_place(code);
            all = with_test(all, pair_number(s, place, q));
        }
    }
    all
}

// The set with all pairs of a rule.
fn pairs_row(notes: &[u64; 680], n: usize, s: &Tables, row: u64) -> u64
    requires { (n ≤ 680) × (length notes.now ≡ 680) × All Placed (notes_in notes.now n) × Counted s.now }
    ensures { result ≡ with_tests (pair_numbers (place_tests_in s.now) (pairs_listed s.now)
        (notes_codes (notes_in notes.now n))) row }
{
    let mut all = row;
    for i in 0..n {
        let code = notes[i];
        if let Some(v) = pairs::rule::name_of(patterns::note_record(code)) {
            let p = patterns::note_place(code);
            all = pairs_with(notes, n, i + 1, p, v, s, all);
        }
    }
    all
}

// The set of all tests of a rule. Not its place tests alone, nor a pair by its place among the pairs.
pub fn rule_row(
    notes: &[u64; 680],
    n: usize,
    ranges: Ranges,
    numbers: &[u8; 680],
    s: &Tables,
) -> u64
    requires { (n ≤ 680) × (length notes.now ≡ 680) × All Placed (notes_in notes.now n) × Small numbers.now
        × Counted s.now }
    ensures { result ≡ row_of numbers.now (place_tests_in s.now) (pairs_listed s.now)
        ranges.low ranges.high
        (notes_in notes.now n) }
{
    let places = places_row(notes, n, ranges, numbers);
    pairs_row(notes, n, s, places)
}
