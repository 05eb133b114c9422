// The plain answer of a sheet and a piece.
#![tactic(auto)]

ghost use Rattle.std.specs.Prelude.{◌≡◌, ◌≤◌, length};
ghost use Rattle.sheet_tests.specs.views.Starts.{StartsIn};
ghost use Rattle.plain.specs.Plain.{piece_reading, plain_reading, plain_values, reading_values};
ghost use Rattle.rule_by_rule.specs.views.SheetRules.{SheetRules};

use plain::Answer;
use records::Refusal;
use rule_by_rule::rules::answer_rules;
use sheet_tests::Starts;

// The answer for a piece by an accepted sheet's rules, which s begins with: the piece's questions, then 20.
fn answer_piece(
    s: &[u8],
    arity: u8,
    count: u8,
    p: &[u8],
    notes: &mut [u64; 680],
    starts: &Starts,
) -> Result<Answer, Refusal>
    requires { SheetRules s.now arity count × (length notes.old ≡ 680) × (count ≤ 64)
        × StartsIn arity s.now starts.now count }
    ensures { (k : SheetRules s.now arity count)
        → plain_values result ≡ reading_values (piece_reading arity k.rules p.now) }
{
    let mut cells = [0u64; 680];
    let n = piece::read_piece(p, &mut cells)?;
    if n != arity {
        return Err(Refusal::AritiesDiffer);
    }
    Ok(answer_rules(s, arity as usize, count, &cells, notes, starts))
}

// The plain answer: the sheet's questions, the piece's, then 20. Not 20 where the piece itself is refused, nor suspend where one
// rule is left that is not known.
pub fn plain(sheet: &[u8], piece: &[u8]) -> Result<Answer, Refusal>
    ensures { plain_values result ≡ reading_values (plain_reading sheet.now piece.now) }
{
    let mut notes = [0u64; 680];
    let mut starts = [0usize; 64];
    let sizes = sheet_tests::check_noted(sheet, &mut notes, &mut starts)?;
    answer_piece(
        &sheet[3..],
        sizes.arity,
        sizes.rules,
        piece,
        &mut notes,
        &starts,
    )
}
