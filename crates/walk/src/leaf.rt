// The answer of a walk at an execute of a rule.
ghost use Rattle.std.specs.Prelude.{◌≡◌, [], length};
ghost use Rattle.records.specs.Reading.{took};
ghost use Rattle.sheet.specs.ReadSheet.{read_rules};
ghost use Rattle.outcomes.specs.views.CompareCells.{Narrow};
ghost use Rattle.decision.specs.Key.{execute_node};
ghost use Rattle.graph.specs.views.Rewriting.{read_or};
ghost use Rattle.test_list.specs.views.Tests.{Counted};
ghost use Rattle.rule_masks.specs.views.Kept.{listed_tests};
ghost use Rattle.leaves.specs.views.RuleRead.{RuleRead};
ghost use Rattle.leaves.specs.views.Seeking.{Begins};
ghost use Rattle.walk.specs.Walking.{walked_reading};
ghost use Rattle.walk.specs.views.LeafWalks.{leaf_walk};

use crate::{Sizes, Walk};
use leaves::begins::begin_of;
use leaves::rule::{at_rule, notes_at};
use piece::Cells;
use records::Refusal;
use tables::Tables;

// The answer at an execute of a rule that so many edges lead to, where the rules begin at the front of the input. Not that of the
// rule behind it, nor one with other edges.
pub fn at_execute(
    s: &[u8],
    rule: u8,
    edges: u8,
    kept: &Tables,
    sizes: Sizes,
    notes: &mut [u64; 680],
    cells: &Cells,
) -> Result<Walk, Refusal>
    requires { RuleRead s.now sizes.arity sizes.rules rule × Narrow cells.now × Counted kept.now
        × Begins s.now sizes.arity sizes.rules kept.now × (length notes.old ≡ 680) }
    ensures result_value { walked_reading result
        ≡ took 0 (leaf_walk (read_or [] (read_rules sizes.arity sizes.rules s.now))
        (listed_tests kept.now) cells.now (execute_node rule) edges []) }
    ensures notes_len { length notes.new ≡ 680 }
{
    let begin = begin_of(kept, rule);
    let taken = notes_at(s, sizes.arity as usize, sizes.rules, rule, begin, notes)?;
    let end = at_rule(notes, taken.notes, rule, kept, cells);
    Ok(Walk {
        answer: end.answer,
        edges,
        waits: end.waits,
    })
}
