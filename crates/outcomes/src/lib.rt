// What stands at the places of a piece that is laid out by place, and the outcomes of tests there.
#![tactic(auto)]

ghost use Rattle.std.specs.Prelude.{◌≡◌, suc, ◌≤◌, ◌<◌};
ghost use Rattle.places.specs.Numbering.{stride};
ghost use Rattle.terms.specs.Outcome.{◌and◌};
ghost use Rattle.outcomes.specs.views.Look.{nearest_cell, look};
ghost use Rattle.outcomes.specs.views.CompareCells.{NarrowCode, NarrowRun, Narrow, Inside};
ghost use Rattle.outcomes.specs.views.CompareCells.{holds_never_at, cell_holds_never, row_holds_never};
ghost use Rattle.outcomes.specs.views.CompareCells.{left_open, compare_at, compare_cells, compare_row};
ghost use Rattle.outcomes.specs.views.CellOutcome.{outcome_of, place_cells, pair_cells};

use codes::{COMPOUNDS, NEVER, NUMBERS, UNKNOWN, high_of, low_of};
use piece::Cells;

// The value of a test.
#[derive(Clone, Copy)]
pub enum TestOutcome {
    Holds,
    NotKnown,
    Contradicted,
}

// The cell of the nearest place that has one, of p and the places above it, 3 in all; 0 where none has.
fn nearest(cells: &Cells, p: usize) -> u64
    requires { p ≤ 680 }
    ensures { result ≡ nearest_cell 3 cells.now p }
{
    let mut place = p;
    for _ in 0usize..3 {
        if place == 680 {
            return 0;
        }
        let cell = cells[place];
        if cell != 0 {
            return cell;
        }
        place = places::parent(place);
    }
    0
}

// The run of what stands at place p, 0 where the piece lacks it. Not 0 below an unknown or a reading that will never come, nor one
// of these below anything else.
pub fn look(cells: &Cells, p: usize) -> u64
    requires { p < 680 }
    ensures { result ≡ look cells.now p }
{
    let own = cells[p];
    if own != 0 {
        return own;
    }
    let above = nearest(cells, places::parent(p));
    if above == UNKNOWN || above == NEVER {
        return above;
    }
    0
}

// Two outcomes together.
pub fn both(a: TestOutcome, b: TestOutcome) -> TestOutcome
    ensures { outcome_of result ≡ ◌and◌ (outcome_of a) (outcome_of b) }
{
    match a {
        TestOutcome::Holds => b,
        TestOutcome::NotKnown => match b {
            TestOutcome::Holds => TestOutcome::NotKnown,
            TestOutcome::NotKnown => TestOutcome::NotKnown,
            TestOutcome::Contradicted => TestOutcome::Contradicted,
        },
        TestOutcome::Contradicted => TestOutcome::Contradicted,
    }
}

// Whether the term at place p, which has this code and so many levels below it, is or holds a reading that will never come.
// Ruled out: one deep inside overlooked; "yes" of an unknown.
#[cycle(holds_never_row_holds_never)]
fn holds_never(cells: &Cells, below: usize, p: usize, code: u32) -> bool
    requires { Inside below 1 p × Narrow cells.now × NarrowCode code }
    ensures { result ≡ holds_never_at cells.now below p code }
{
    if code < COMPOUNDS || NUMBERS <= code {
        return (code as u64) == NEVER;
    }
    if below == 0 {
        return false;
    }
    row_holds_never(cells, below - 1, (code % 256) as usize, p + 1)
}

// Whether one of n terms in a row, the first at place p, is or holds one.
#[cycle(holds_never_row_holds_never)]
fn row_holds_never(cells: &Cells, below: usize, n: usize, p: usize) -> bool
    requires { Inside below n p × Narrow cells.now }
    ensures { result ≡ row_holds_never (cell_holds_never cells.now below) (stride (suc below)) n p }
{
    if n == 0 {
        return false;
    }
    if holds_never(cells, below, p, low_of(cells[p])) {
        return true;
    }
    row_holds_never(cells, below, n - 1, p + places::step(3 - below))
}

// How the terms at places p and q, whose lowest codes are x and u, compare where one of them has several: it is not known, but they
// differ if one of them holds a reading that will never come.
// Ruled out: "not known" beside such a reading; "different" where none is.
fn left_open(
    cells: &Cells,
    below: usize,
    other: usize,
    p: usize,
    q: usize,
    x: u32,
    u: u32,
) -> TestOutcome
    requires { Inside below 1 p × Inside other 1 q × Narrow cells.now × NarrowCode x × NarrowCode u }
    ensures { outcome_of result ≡ left_open cells.now below other p q x u }
{
    if holds_never(cells, below, p, x) || holds_never(cells, other, q, u) {
        return TestOutcome::Contradicted;
    }
    TestOutcome::NotKnown
}

// Compares the terms at places p and q, whose runs are a and b, with so many levels below the one and the other. Not "equal" where
// one of them has several codes, nor "not known" where one of them holds a reading that will never come.
#[cycle(compare_compare_args)]
fn compare(
    cells: &Cells,
    below: usize,
    other: usize,
    p: usize,
    q: usize,
    a: u64,
    b: u64,
) -> TestOutcome
    requires { Inside below 1 p × Inside other 1 q × Narrow cells.now × NarrowRun a × NarrowRun b }
    ensures { outcome_of result ≡ compare_at cells.now below other p q a b }
{
    let low = low_of(a);
    let high = high_of(a);
    let low_other = low_of(b);
    let high_other = high_of(b);
    if high < low_other || high_other < low {
        return TestOutcome::Contradicted;
    }
    if low != high || low_other != high_other {
        return left_open(cells, below, other, p, q, low, low_other);
    }
    if low < COMPOUNDS || NUMBERS <= low {
        if (low as u64) == NEVER {
            return TestOutcome::Contradicted;
        }
        return TestOutcome::Holds;
    }
    if below == 0 || other == 0 {
        return TestOutcome::NotKnown;
    }
    compare_args(
        cells,
        below - 1,
        other - 1,
        (low % 256) as usize,
        p + 1,
        q + 1,
    )
}

// Compares n pairs of terms in turn, the first at places p and q.
#[cycle(compare_compare_args)]
fn compare_args(
    cells: &Cells,
    below: usize,
    other: usize,
    n: usize,
    p: usize,
    q: usize,
) -> TestOutcome
    requires { Inside below n p × Inside other n q × Narrow cells.now }
    ensures { outcome_of result
        ≡ compare_row (compare_cells cells.now below other) (stride (suc below)) (stride (suc other)) n p q }
{
    if n == 0 {
        return TestOutcome::Holds;
    }
    let first = compare(cells, below, other, p, q, cells[p], cells[q]);
    let next_p = p + places::step(3 - below);
    let next_q = q + places::step(3 - other);
    let others = compare_args(cells, below, other, n - 1, next_p, next_q);
    both(first, others)
}

// The outcome of the place test at place p that holds at the codes from low to high. Not "holds" where some of the codes that
// what stands there can have lie outside, nor "contradicted" where some lie inside.
pub fn place_outcome(cells: &Cells, p: usize, low: u32, high: u32) -> TestOutcome
    requires { p < 680 }
    ensures { outcome_of result ≡ place_cells cells.now p low high }
{
    let run = look(cells, p);
    let x = low_of(run);
    let y = high_of(run);
    if low <= x && y <= high {
        return TestOutcome::Holds;
    }
    if y < low || high < x {
        return TestOutcome::Contradicted;
    }
    TestOutcome::NotKnown
}

// The outcome of the equality test at places p and q. Not "holds" at two readings that will never come, nor "not known" at one
// beside an unknown.
pub fn pair_outcome(cells: &Cells, p: usize, q: usize) -> TestOutcome
    requires { (p < 680) × (q < 680) × Narrow cells.now }
    ensures { outcome_of result ≡ pair_cells cells.now p q }
{
    let a = look(cells, p);
    let b = look(cells, q);
    if a == 0 || b == 0 {
        return TestOutcome::Contradicted;
    }
    compare(
        cells,
        4 - places::depth(p),
        4 - places::depth(q),
        p,
        q,
        a,
        b,
    )
}
