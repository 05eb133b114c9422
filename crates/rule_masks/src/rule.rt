// The tests of a rule, made in a piece: those that are not known and those that are contradicted, in one pass over the rule's
// notes for its place tests and one for its equality tests.
ghost use Rattle.std.specs.Prelude.{◌≡◌, true, ◌≤◌, ◌<◌, length, drop};
ghost use Rattle.basics.specs.Lists.{All};
ghost use Rattle.sheet.specs.views.NoteArray.{notes_in};
ghost use Rattle.pairs.specs.views.KeptPairs.{pair_code};
ghost use Rattle.pairs.specs.views.NoteVariables.{codes_with, notes_codes, Placed};
ghost use Rattle.outcomes.specs.views.CompareCells.{Narrow};
ghost use Rattle.outcomes.specs.views.CellOutcome.{outcome_of};
ghost use Rattle.test_list.specs.views.Tests.{Counted};
ghost use Rattle.rule_masks.specs.views.TestNumbers.{with_if};
ghost use Rattle.rule_masks.specs.views.Kept.{listed_tests};
ghost use Rattle.rule_masks.specs.views.RuleMasks.{made, pair_made, with_made, after_places, after_pairs, no_masks, notes_masks};

use crate::number::test_number;
use crate::{Masks, Spot};
use outcomes::{TestOutcome, pair_outcome, place_outcome};
use piece::Cells;
use rows::wants::record_wanted;
use sheet::Ranges;
use tables::Tables;

// The set with a test more; a number from 64 on is no test.
fn with_test(set: u64, t: usize) -> u64
    ensures { result ≡ with_if true set t }
{
    if t < 64 {
        return masks::insert(set, t);
    }
    set
}

// The masks with the test that has a code more, by its outcome. Not a test that holds, nor one in both.
fn with_outcome(masks: Masks, kept: &Tables, code: u64, outcome: TestOutcome) -> Masks
    requires { Counted kept.now }
    ensures { result ≡ with_made (listed_tests kept.now) masks (made code (outcome_of outcome)) }
{
    match outcome {
        TestOutcome::Holds => masks,
        TestOutcome::NotKnown => Masks {
            unknown: with_test(masks.unknown, test_number(kept, code)),
            contradicted: masks.contradicted,
        },
        TestOutcome::Contradicted => Masks {
            unknown: masks.unknown,
            contradicted: with_test(masks.contradicted, test_number(kept, code)),
        },
    }
}

// The masks of a rule's place tests. Not a lacking place among those not known, nor a range that what stands there lies in.
fn place_masks(notes: &[u64; 680], n: usize, ranges: Ranges, kept: &Tables, cells: &Cells) -> Masks
    requires { (n ≤ 680) × (length notes.now ≡ 680) × All Placed (notes_in notes.now n) × Counted kept.now }
    ensures { result
        ≡ after_places (listed_tests kept.now) cells.now ranges.low ranges.high
        (notes_in notes.now n) no_masks }
{
    let mut masks = Masks {
        unknown: 0,
        contradicted: 0,
    };
    for &code in &notes[..n] {
        if let Some(wanted) = record_wanted(patterns::note_record(code), ranges) {
            let place = patterns::note_place(code);
            let outcome = place_outcome(cells, place, wanted.low, wanted.high);
            masks = with_outcome(masks, kept, 0x1_0001 * place as u64, outcome);
        }
    }
    masks
}

// The masks with the test of a pair of places more.
fn with_pair(masks: Masks, kept: &Tables, cells: &Cells, p: usize, q: usize) -> Masks
    requires { Counted kept.now × Narrow cells.now × (p < 680) × (q < 680) }
    ensures { result
        ≡ with_made (listed_tests kept.now) masks (pair_made cells.now (pair_code p q)) }
{
    let outcome = pair_outcome(cells, p, q);
    with_outcome(masks, kept, 0x1_0000 * p as u64 + q as u64, outcome)
}

// The masks with the pairs of a place of a variable with its places among the notes from one on.
fn pairs_with(
    notes: &[u64; 680],
    n: usize,
    from: usize,
    spot: Spot,
    kept: &Tables,
    cells: &Cells,
    masks: Masks,
) -> Masks
    requires { (from ≤ n) × (n ≤ 680) × (spot.place < 680) × (length notes.now ≡ 680) × All Placed (notes_in notes.now n)
        × Counted kept.now × Narrow cells.now }
    ensures { result
        ≡ after_pairs (listed_tests kept.now) cells.now
        (codes_with spot.place spot.name (drop from (notes_in notes.now n))) masks }
{
    let mut all = masks;
    for j in from..n {
        let code = notes[j];
        if pairs::rule::is_named(spot.name, patterns::note_record(code)) {
            all = with_pair(all, kept, cells, spot.place, patterns::note_place(code));
        }
    }
    all
}

// The masks with all pairs of a rule.
fn pair_masks(notes: &[u64; 680], n: usize, kept: &Tables, cells: &Cells, masks: Masks) -> Masks
    requires { (n ≤ 680) × (length notes.now ≡ 680) × All Placed (notes_in notes.now n) × Counted kept.now
        × Narrow cells.now }
    ensures { result
        ≡ after_pairs (listed_tests kept.now) cells.now (notes_codes (notes_in notes.now n)) masks }
{
    let mut all = masks;
    for i in 0..n {
        let code = notes[i];
        if let Some(name) = pairs::rule::name_of(patterns::note_record(code)) {
            let spot = Spot {
                place: patterns::note_place(code),
                name: name,
            };
            all = pairs_with(notes, n, i + 1, spot, kept, cells, all);
        }
    }
    all
}

// The masks of all tests of a rule with these notes. Not those of its place tests alone, nor a test that another rule has, nor a
// contradicted test among those not known.
pub fn rule_masks(notes: &[u64; 680], n: usize, kept: &Tables, cells: &Cells) -> Masks
    requires { (n ≤ 680) × (length notes.now ≡ 680) × All Placed (notes_in notes.now n) × Counted kept.now
        × Narrow cells.now }
    ensures { result
        ≡ notes_masks (listed_tests kept.now) cells.now (notes_in notes.now n) }
{
    let ranges = sheet::variable_ranges(notes, n);
    let places = place_masks(notes, n, ranges, kept, cells);
    pair_masks(notes, n, kept, cells, places)
}
