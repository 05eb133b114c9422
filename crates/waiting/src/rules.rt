// What the rules of a sheet add to the list of a suspended piece.
ghost use Rattle.std.specs.Prelude.{◌≤◌, ◌<◌, ◌≡◌, [], length, take};
ghost use Rattle.basics.specs.Lists.{All};
ghost use Rattle.sheet.specs.ReadSheet.{read_rules};
ghost use Rattle.outcomes.specs.views.CompareCells.{Narrow};
ghost use Rattle.graph.specs.views.Rewriting.{IsTook, read_or};
ghost use Rattle.test_list.specs.views.Tests.{Counted};
ghost use Rattle.rule_masks.specs.views.Kept.{listed_tests};
ghost use Rattle.waiting.specs.views.SpanTests.{with_rule, with_rules};

use crate::Shape;
use piece::Cells;
use rule_masks::Masks;
use rule_masks::rule::rule_masks;
use sheet::read_rule;
use tables::Tables;

// The set with the tests met, by their numbers, so many, that are not known for the rule with these masks while it is live. Not one
// behind a test that contradicts it, nor a contradicted one.
fn with_rule(set: u64, numbers: &[u32; 64], edges: u8, masks: Masks) -> u64
    requires { (length numbers.now ≡ 64) × (edges ≤ 64) × All (λ t. t < 64) (take edges numbers.now) }
    ensures { result ≡ with_rule masks (take edges numbers.now) set }
{
    let mut all = set;
    for i in 0..edges as usize {
        let t = numbers[i] as usize;
        if masks::has(masks.contradicted, t) {
            return all;
        }
        if masks::has(masks.unknown, t) {
            all = masks::insert(all, t);
        }
    }
    all
}

// The set of what all rules, which begin at the front of the input, add. They were read before, so none is refused here. Not what
// the first rule adds alone, nor what rules add that are no longer live.
pub fn rules_waits(
    s: &[u8],
    shape: Shape,
    numbers: &[u32; 64],
    edges: u8,
    notes: &mut [u64; 680],
    kept: &Tables,
    cells: &Cells,
) -> u64
    requires arity_bound { (shape.arity ≤ 8) × IsTook (read_rules shape.arity shape.rules s.now) × (length notes.old ≡ 680)
        × Counted kept.now × Narrow cells.now }
    requires numbers_len { (length numbers.now ≡ 64) × (edges ≤ 64) × All (λ t. t < 64) (take edges numbers.now) }
    ensures value { result
        ≡ with_rules (listed_tests kept.now) cells.now (take edges numbers.now)
        (read_or [] (read_rules shape.arity shape.rules s.now)) 0 }
    ensures notes_len { length notes.new ≡ 680 }
{
    let mut set: u64 = 0;
    let mut at: usize = 0;
    for _ in 0..shape.rules {
        let Ok(read) = read_rule(&s[at..], shape.arity, notes) else {
            return set;
        };
        let masks = rule_masks(notes, read.notes, kept, cells);
        set = with_rule(set, numbers, edges, masks);
        at += read.bytes;
    }
    set
}
