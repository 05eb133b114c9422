// The list of a suspended piece.
ghost use Rattle.std.specs.Prelude.{◌≤◌, ◌≡◌, [], length, take};
ghost use Rattle.basics.specs.Lists.{All};
ghost use Rattle.sheet.specs.ReadSheet.{read_rules};
ghost use Rattle.outcomes.specs.views.CompareCells.{Narrow};
ghost use Rattle.graph.specs.views.Rewriting.{IsTook, read_or};
ghost use Rattle.rule_masks.specs.views.TestNumbers.{KeptCode};
ghost use Rattle.rule_masks.specs.views.Kept.{Listed, listed_tests};
ghost use Rattle.waiting.specs.views.SpanTests.{span_list};

use crate::Shape;
use crate::open::open_waits;
use crate::rules::rules_waits;
use crate::spans::{meets_span, number_tests};
use piece::Cells;
use tables::Tables;

// The set of tests that a suspended piece waits for, where so many were met and the rules begin at the front of the input: those
// that are not known and, where a span is met, those not known for a rule live there. Not the rules' alone, nor all tests met. What
// is met is numbered in its place.
pub fn suspend_waits(
    s: &[u8],
    shape: Shape,
    met: &mut [u32; 64],
    edges: u8,
    notes: &mut [u64; 680],
    kept: &Tables,
    cells: &Cells,
) -> u64
    requires arity_bound { (shape.arity ≤ 8) × IsTook (read_rules shape.arity shape.rules s.now) × (length notes.old ≡ 680)
        × Listed kept.now × Narrow cells.now }
    requires met_len { (length met.old ≡ 64) × (edges ≤ 64) × All (KeptCode (listed_tests kept.now)) (take edges met.old) }
    ensures value { result
        ≡ span_list (listed_tests kept.now) cells.now
        (read_or [] (read_rules shape.arity shape.rules s.now)) (take edges met.old) }
    ensures notes_len { length notes.new ≡ 680 }
{
    let open = open_waits(met, edges, kept, cells);
    if meets_span(met, edges, cells) {
        number_tests(met, edges, kept);
        return open | rules_waits(s, shape, met, edges, notes, kept, cells);
    }
    open
}
