// The tables of all rules of a sheet.
ghost use Rattle.std.specs.Prelude.{◌≡◌, List, ℕ, ◌+◌, ◌≤◌, ◌<◌, length, set};
ghost use Rattle.basics.specs.Lists.{All};
ghost use Rattle.terms.specs.Pattern.{Patterns};
ghost use Rattle.sheet.specs.views.NoteArray.{notes_in};
ghost use Rattle.pairs.specs.views.NoteVariables.{Placed};
ghost use Rattle.tables.specs.views.Planes.{rules_in, place_tests_in};
ghost use Rattle.test_list.specs.views.Numbers.{Small};
ghost use Rattle.test_list.specs.views.Tests.{Counted, pairs_listed};
ghost use Rattle.rows.specs.views.Row.{notes_row};
ghost use Rattle.compiled.specs.views.Columns.{Columned};
ghost use Rattle.compiled.specs.views.CutRules.{wants_of, TurnsFit, turn_all};
ghost use Rattle.compiled.specs.views.Compiling.{Compiling, Compiled};

use crate::cut::cut_rule;
use tables::Tables;

// Rule i has these tests: its row, and the rule in the column of each. Not in the column of another test, nor the row of another
// rule.
fn put_row(s: &mut Tables, i: usize, row: u64)
    requires { (i < 64) × (length s.old ≡ 324) }
    ensures { Columned i row (set s.old (68 + i) row) s.new }
{
    s[68 + i] = row;
    let mut left = row;
    while left != 0 {
        let t = u64::trailing_zeros(left) as usize;
        s[132 + t] = masks::insert(s[132 + t], i);
        left &= left - 1;
    }
}

// Puts rule i into the tables, from its notes.
fn table_rule(
    notes: &[u64; 680],
    n: usize,
    i: usize,
    numbers: &[u8; 680],
    s: &mut Tables,
    c: &mut [u64],
)
    requires n_bound { (n ≤ 680) × (length notes.now ≡ 680) × All Placed (notes_in notes.now n) × Small numbers.now × (i < 64)
        × Counted s.old × (rules_in s.old ≤ 64) }
    requires turns_fit { TurnsFit numbers.now (rules_in s.old) i
        (wants_of (notes_in notes.now n)) c.old }
    ensures columned { Columned i
        (notes_row numbers.now (place_tests_in s.old) (pairs_listed s.old)
        (notes_in notes.now n))
        (set s.old (68 + i)
        (notes_row numbers.now (place_tests_in s.old) (pairs_listed s.old)
        (notes_in notes.now n)))
        s.new }
    ensures c_after { c.new
        ≡ turn_all numbers.now (rules_in s.old) i
        (wants_of (notes_in notes.now n))
        c.old }
{
    let rules = tables::rules(s);
    let ranges = sheet::variable_ranges(notes, n);
    let row = rows::rule_row(notes, n, ranges, numbers, s);
    put_row(s, i, row);
    cut_rule(notes, n, ranges, numbers, rules, i, c);
}

// Puts the rules that the input begins with into the tables and the cuts, which hold none yet. Not the rows of a sheet with its
// rules in another order, nor the cuts of another sheet with these tests.
pub fn table_rules(b: &[u8], arity: usize, numbers: &[u8; 680], s: &mut Tables, c: &mut [u64])
    requires { (order : List ℕ) × (all : List Patterns) × Compiling arity b.now numbers.now s.old c.old order all }
    ensures { (order : List ℕ) (all : List Patterns)
        → Compiling arity b.now numbers.now s.old c.old order all
        → Compiled all order s.new c.new }
{
    let rules = tables::rules(s);
    let mut notes = [0u64; 680];
    let mut at: usize = 0;
    for i in 0..rules {
        let Ok(read) = sheet::read_rule(&b[at..], arity, &mut notes) else {
            return;
        };
        table_rule(&notes, read.notes, i, numbers, s, c);
        at += read.bytes;
    }
}
