// The outcome of all tests of a rule in a piece, from the rule's notes and the piece's cells.
ghost use Rattle.std.specs.Prelude.{◌≡◌, ◌≤◌, ◌<◌, length, drop};
ghost use Rattle.basics.specs.Lists.{All};
ghost use Rattle.terms.specs.RuleTests.{pairs_with};
ghost use Rattle.terms.specs.Outcome.{together};
ghost use Rattle.patterns.specs.views.NoteCode.{Fitting};
ghost use Rattle.sheet.specs.views.NoteArray.{notes_in};
ghost use Rattle.pairs.specs.views.NoteVariables.{notes_variables, Placed};
ghost use Rattle.outcomes.specs.views.CompareCells.{Narrow};
ghost use Rattle.outcomes.specs.views.CellOutcome.{outcome_of};
ghost use Rattle.plain.specs.views.NotesOutcome.{fixed_outcome, range_outcome, record_outcome, places_outcome};
ghost use Rattle.plain.specs.views.NotesOutcome.{pair_test_cells, pairs_outcome, notes_outcome};

use outcomes::{TestOutcome, both, pair_outcome, place_outcome};
use patterns::PatternRecord;
use piece::Cells;
use sheet::Ranges;

// The outcome of the test of a symbol, a series, a range or a compound at a place; any other record has none. Not that of a range's
// low end alone, nor that of a range on gauge 0 for one on a named gauge, nor a symbol's where a compound stands.
pub fn fixed_outcome(cells: &Cells, place: usize, what: PatternRecord) -> TestOutcome
    requires { place < 680 }
    ensures { outcome_of result ≡ fixed_outcome cells.now place what }
{
    match what {
        PatternRecord::Symbol(id) => {
            let code = codes::symbol_code(id);
            place_outcome(cells, place, code, code)
        }
        PatternRecord::Range(low, high) => {
            place_outcome(
                cells,
                place,
                codes::number_code(low),
                codes::number_code(high),
            )
        }
        PatternRecord::Compound(id, arity) => {
            let code = codes::compound_code(id, arity);
            place_outcome(cells, place, code, code)
        }
        PatternRecord::Series(low, high) => {
            place_outcome(
                cells,
                place,
                codes::symbol_code(low),
                codes::symbol_code(high),
            )
        }
        PatternRecord::Gauged(gauge, low, high) => {
            place_outcome(
                cells,
                place,
                codes::gauged_code(gauge, low),
                codes::gauged_code(gauge, high),
            )
        }
        PatternRecord::Anything => TestOutcome::Holds,
        PatternRecord::Variable(_) => TestOutcome::Holds,
        PatternRecord::Ranged(_, _, _) => TestOutcome::Holds,
    }
}

// The outcome of the test of a variable's common range at a place. A high above every number stands for no range, so no test.
fn range_outcome(cells: &Cells, place: usize, low: u16, high: u32) -> TestOutcome
    requires { place < 680 }
    ensures { outcome_of result ≡ range_outcome cells.now place low high }
{
    if 65535 < high {
        return TestOutcome::Holds;
    }
    place_outcome(
        cells,
        place,
        codes::number_code(low),
        codes::number_code(high as u16),
    )
}

// The outcome of a record's place test at a place.
fn record_outcome(cells: &Cells, ranges: Ranges, place: usize, what: PatternRecord) -> TestOutcome
    requires { (place < 680) × Fitting what }
    ensures { outcome_of result ≡ record_outcome cells.now ranges.low ranges.high place what }
{
    match what {
        PatternRecord::Variable(v) => {
            let u = v as usize;
            range_outcome(cells, place, ranges.low[u], ranges.high[u])
        }
        PatternRecord::Ranged(v, _, _) => {
            let u = v as usize;
            range_outcome(cells, place, ranges.low[u], ranges.high[u])
        }
        _ => fixed_outcome(cells, place, what),
    }
}

// The outcome of all place tests of a rule. One contradicted settles it, so the others are not made.
fn places_outcome(notes: &[u64; 680], n: usize, ranges: Ranges, cells: &Cells) -> TestOutcome
    requires { (n ≤ 680) × (length notes.now ≡ 680) × All Placed (notes_in notes.now n) }
    ensures { outcome_of result
        ≡ places_outcome cells.now ranges.low ranges.high (notes_in notes.now n) }
{
    let mut outcome = TestOutcome::Holds;
    for i in 0..n {
        let code = notes[i];
        let one = record_outcome(
            cells,
            ranges,
            patterns::note_place(code),
            patterns::note_record(code),
        );
        if let TestOutcome::Contradicted = one {
            return one;
        }
        outcome = both(outcome, one);
    }
    outcome
}

// The outcome of the equality tests of a place of variable v with the places of v among the notes from one on.
fn pairs_with(
    notes: &[u64; 680],
    n: usize,
    from: usize,
    place: usize,
    v: u8,
    cells: &Cells,
) -> TestOutcome
    requires { (from ≤ n) × (n ≤ 680) × (place < 680) × (length notes.now ≡ 680)
        × All Placed (notes_in notes.now n) × Narrow cells.now }
    ensures { outcome_of result
        ≡ together (pair_test_cells cells.now)
        (pairs_with place v (notes_variables (drop from (notes_in notes.now n)))) }
{
    let mut outcome = TestOutcome::Holds;
    for j in from..n {
        let code = notes[j];
        if pairs::rule::is_named(v, patterns::note_record(code)) {
            outcome = both(
                outcome,
                pair_outcome(cells, place, patterns::note_place(code)),
            );
        }
    }
    outcome
}

// The outcome of all equality tests of a rule.
fn pairs_outcome(notes: &[u64; 680], n: usize, cells: &Cells) -> TestOutcome
    requires { (n ≤ 680) × (length notes.now ≡ 680) × All Placed (notes_in notes.now n) × Narrow cells.now }
    ensures { outcome_of result ≡ pairs_outcome cells.now (notes_in notes.now n) }
{
    let mut outcome = TestOutcome::Holds;
    for i in 0..n {
        let code = notes[i];
        if let Some(v) = pairs::rule::name_of(patterns::note_record(code)) {
            outcome = both(
                outcome,
                pairs_with(notes, n, i + 1, patterns::note_place(code), v, cells),
            );
        }
    }
    outcome
}

// The outcome of all tests of a rule: of its place tests and, where none is contradicted, its equality tests. Not contradicted
// because a test is not known, nor holding where only the place tests hold.
pub fn rule_outcome(notes: &[u64; 680], n: usize, cells: &Cells) -> TestOutcome
    requires { (n ≤ 680) × (length notes.now ≡ 680) × All Placed (notes_in notes.now n) × Narrow cells.now }
    ensures { outcome_of result ≡ notes_outcome cells.now (notes_in notes.now n) }
{
    let places = places_outcome(notes, n, sheet::variable_ranges(notes, n), cells);
    if let TestOutcome::Contradicted = places {
        return places;
    }
    both(places, pairs_outcome(notes, n, cells))
}
