// The answer, rule by rule: fail while no rule is open, the one open rule, suspend from the second on.
ghost use Rattle.std.specs.Prelude.{◌≡◌, ℕ, ◌≤◌, length};
ghost use Rattle.records.specs.Reading.{took, map_reading};
ghost use Rattle.terms.specs.Answer.{fail};
ghost use Rattle.terms.specs.Pattern.{Patterns};
ghost use Rattle.sheet.specs.ReadSheet.{read_rule, read_rules};
ghost use Rattle.sheet_tests.specs.views.Starts.{StartsIn};
ghost use Rattle.outcomes.specs.views.CompareCells.{Narrow};
ghost use Rattle.outcomes.specs.views.CellOutcome.{outcome_of};
ghost use Rattle.plain.specs.Plain.{answer_of, answer_values, reading_values};
ghost use Rattle.rule_by_rule.specs.views.SheetRules.{SheetRules};
ghost use Rattle.rule_by_rule.specs.views.RuleByRule.{opened, answer_after, moved_by};
ghost use Rattle.plain.specs.views.NotesOutcome.{cells_outcome};

use crate::flat::is_out;
use outcomes::TestOutcome;
use piece::Cells;
use plain::Answer;
use plain::rule::rule_outcome;
use sheet_tests::Starts;

// The answer so far where a rule is open, which would alone be answered so.
fn opened(answer: Answer, only: Answer) -> Answer
    ensures { answer_of result ≡ opened (answer_of answer) (answer_of only) }
{
    match answer {
        Answer::Commit(_) => Answer::Suspend,
        Answer::Execute(_) => Answer::Suspend,
        Answer::Suspend => Answer::Suspend,
        Answer::Fail => only,
    }
}

// The answer so far moved on by the outcome of a rule.
fn moved(answer: Answer, rule: u8, outcome: TestOutcome) -> Answer
    ensures { answer_of result ≡ answer_after (answer_of answer) rule (outcome_of outcome) }
{
    match outcome {
        TestOutcome::Holds => opened(answer, Answer::Commit(rule)),
        TestOutcome::NotKnown => opened(answer, Answer::Execute(rule)),
        TestOutcome::Contradicted => answer,
    }
}

// The outcome of the tests of an accepted sheet's rule, which the input begins with. Of a rule that is contradicted at an argument
// up to its first compound no more is read. Not contradicted because a test is not known, nor holding where those arguments do.
fn tried(s: &[u8], arity: usize, cells: &Cells, notes: &mut [u64; 680]) -> TestOutcome
    requires { (arity ≤ 8) × (length notes.old ≡ 680) × Narrow cells.now }
    ensures by_index { (b : ℕ) (rule : Patterns) → read_rule arity s.now ≡ took b rule
        → outcome_of result ≡ cells_outcome cells.now rule }
    ensures notes_len { length notes.new ≡ 680 }
{
    if is_out(&s[0..], arity, cells) {
        return TestOutcome::Contradicted;
    }
    let Ok(rule) = sheet::read_rule(&s[0..], arity, notes) else {
        return TestOutcome::Contradicted;
    };
    rule_outcome(notes, rule.notes, cells)
}

// The answer by the rules of an accepted sheet, which the input begins with, by where each begins. Where two are open no further
// rule is read. Not suspend at the first rule that is not known, nor the last open rule where two are open.
pub fn answer_rules(
    s: &[u8],
    arity: usize,
    count: u8,
    cells: &Cells,
    notes: &mut [u64; 680],
    starts: &Starts,
) -> Answer
    requires { SheetRules s.now arity count × (length notes.old ≡ 680) × Narrow cells.now × (count ≤ 64)
        × StartsIn arity s.now starts.now count }
    ensures { answer_values (answer_of result)
        ≡ reading_values (map_reading (moved_by (cells_outcome cells.now) 1 fail)
        (read_rules arity count s.now)) }
{
    let mut answer = Answer::Fail;
    for i in 0..count {
        let outcome = tried(&s[starts[i as usize]..], arity, cells, notes);
        answer = moved(answer, i + 1, outcome);
        if let Answer::Suspend = answer {
            return answer;
        }
    }
    answer
}
