// The answer at an execute of a rule.
ghost use Rattle.std.specs.Prelude.{◌≤◌, ◌≡◌, [], length};
ghost use Rattle.std.proofs.Math.Option.{some};
ghost use Rattle.basics.specs.Lists.{All};
ghost use Rattle.terms.specs.Answer.{rule_at};
ghost use Rattle.sheet.specs.views.Noted.{rule_notes};
ghost use Rattle.sheet.specs.views.NoteArray.{notes_in};
ghost use Rattle.sheet.specs.ReadSheet.{read_rules};
ghost use Rattle.pairs.specs.views.NoteVariables.{Placed};
ghost use Rattle.outcomes.specs.views.CompareCells.{Narrow};
ghost use Rattle.test_list.specs.views.Tests.{Counted};
ghost use Rattle.graph.specs.views.Rewriting.{read_or};
ghost use Rattle.rule_masks.specs.views.RuleMasks.{notes_masks};
ghost use Rattle.leaves.specs.views.LeafAnswers.{executed_by, executed_of};
ghost use Rattle.leaves.specs.views.TakenNotes.{taken_notes, notes_taken};
ghost use Rattle.rule_masks.specs.views.Kept.{listed_tests};
ghost use Rattle.leaves.specs.views.RuleRead.{RuleRead};
ghost use Rattle.leaves.specs.views.Seeking.{BeginAt};

use crate::Executed;
use crate::begins::passed;
use piece::Cells;
use plain::Answer;
use records::Refusal;
use rule_masks::rule::rule_masks;
use sheet::Took;
use tables::Tables;

// The notes of a rule, from 1, of the rules, so many, that the input begins with: its bytes, and how many notes there are. The
// rules were read before, so none is refused here; where the rule's begin is not noted, those before it are read again. Not the
// notes of the rule after it, nor those of the first.
pub fn notes_at(
    s: &[u8],
    arity: usize,
    count: u8,
    rule: u8,
    begin: usize,
    notes: &mut [u64; 680],
) -> Result<Took, Refusal>
    requires rule_read { RuleRead s.now arity count rule × (length notes.old ≡ 680) }
    requires begin_at { BeginAt s.now arity count rule begin }
    ensures result_after { taken_notes notes.new result
        ≡ some (rule_notes (rule_at (read_or [] (read_rules arity count s.now)) rule)) }
    ensures result_bound { (notes_taken result ≤ 680) × (length notes.new ≡ 680)
        × All Placed (notes_in notes.new (notes_taken result)) }
{
    let mut at = begin;
    for i in passed(begin, rule)..count {
        let read = sheet::read_rule(&s[at..], arity, notes)?;
        if i + 1 == rule {
            return Ok(read);
        }
        at += read.bytes;
    }
    Ok(Took {
        bytes: at,
        notes: 0,
    })
}

// The answer at an execute of the rule with these notes: all its tests are made. Not commit where a test is not known, nor a wait
// list beside a commit or a fail.
pub fn at_rule(notes: &[u64; 680], n: usize, rule: u8, kept: &Tables, cells: &Cells) -> Executed
    requires { (n ≤ 680) × (length notes.now ≡ 680) × All Placed (notes_in notes.now n) × Counted kept.now
        × Narrow cells.now }
    ensures { executed_of result
        ≡ executed_by rule
        (notes_masks (listed_tests kept.now) cells.now (notes_in notes.now n)) }
{
    let masks = rule_masks(notes, n, kept, cells);
    if masks.contradicted != 0 {
        return Executed {
            answer: Answer::Fail,
            waits: 0,
        };
    }
    if masks.unknown == 0 {
        return Executed {
            answer: Answer::Commit(rule),
            waits: 0,
        };
    }
    Executed {
        answer: Answer::Execute(rule),
        waits: masks.unknown,
    }
}
