// Where a rule turns: at the two ends of what it wants by each of its place tests.
ghost use Rattle.std.specs.Prelude.{◌≡◌, suc, ◌+◌, ◌*◌, ◌^◌, ◌≤◌, ◌<◌, length};
ghost use Rattle.basics.specs.Lists.{All};
ghost use Rattle.sheet.specs.views.NoteArray.{notes_in};
ghost use Rattle.pairs.specs.views.NoteVariables.{Placed};
ghost use Rattle.cuts.specs.views.Cuts.{count_at};
ghost use Rattle.test_list.specs.views.Numbers.{Small};
ghost use Rattle.rows.specs.views.Wants.{notes_tests};
ghost use Rattle.compiled.specs.views.CutRules.{turn_in, TurnsFit, turn_all};

use rows::numbers::place_number;
use rows::wants::record_wanted;
use sheet::Ranges;

// Rule i turns at the lowest code of what it wants, and after the highest. Not at the highest itself, nor another rule.
fn turn_rule(c: &mut [u64], from: usize, least: u32, most: u32, i: usize)
    requires { (from + 5 + 2 * count_at c.old from ≤ length c.old) × (i < 64) }
    ensures { c.new
        ≡ turn_in (turn_in c.old from least (2 ^ i)) from (suc most) (2 ^ i) }
{
    let bit: u64 = 1 << i;
    cuts::turn(c, from, least as u64, bit);
    cuts::turn(c, from, most as u64 + 1, bit);
}

// Rule i, of so many rules, turns at what its notes want, in the part of each place test. Not in the part of another test, nor at
// a record that wants nothing.
pub fn cut_rule(
    notes: &[u64; 680],
    n: usize,
    ranges: Ranges,
    numbers: &[u8; 680],
    rules: usize,
    i: usize,
    c: &mut [u64],
)
    requires n_bound { (n ≤ 680) × (length notes.now ≡ 680) × All Placed (notes_in notes.now n) × Small numbers.now × (rules ≤ 64)
        × (i < 64) }
    requires turns_fit { TurnsFit numbers.now rules i (notes_tests ranges.low ranges.high (notes_in notes.now n)) c.old }
    ensures { c.new
        ≡ turn_all numbers.now rules i
        (notes_tests ranges.low ranges.high (notes_in notes.now n)) c.old }
{
    for k in 0..n {
        let code = notes[k];
        if let Some(wanted) = record_wanted(patterns::note_record(code), ranges) {
            let from = cuts::part(rules, place_number(numbers, patterns::note_place(code)));
            turn_rule(c, from, wanted.low, wanted.high, i);
        }
    }
}
