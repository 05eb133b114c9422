// The tests of a sheet: its rules are read one after another, and the tests of each are gathered. Its check counts them.
ghost use Rattle.std.specs.Prelude.{◌≡◌, ◌≤◌, length, replicate, drop};
ghost use Rattle.basics.specs.Lists.{All};
ghost use Rattle.records.specs.Reading.{map_reading};
ghost use Rattle.sheet.specs.views.NoteArray.{notes_in};
ghost use Rattle.sheet.specs.ReadSheet.{read_rules, end_sheet};
ghost use Rattle.pairs.specs.views.NoteVariables.{Placed};
ghost use Rattle.sheet_tests.specs.views.Gathered.{gather, gather_notes, held, gathered_in, Scanned};
ghost use Rattle.sheet_tests.specs.CheckSheet.{ask_tests, accept_sheet, sheet_check_values, sheet_values};
ghost use Rattle.sheet_tests.specs.views.Starts.{scan_starts, tests_starts, check_starts};
ghost use Rattle.sheet_tests.specs.views.TestsRead.{tests_found, sheet_found, Held};

use crate::rule::mark_rule;
use crate::tested::count_places;
use crate::{Scan, SheetSizes, Starts, TestsRead};
use marks::read_marks;
use pairs::rule::pair_rule;
use records::Refusal;
use sheet::variable::common;

// Gathers the tests of a rule's variables from its notes, and those of all records that are among them.
fn gather_rule(
    notes: &[u64; 680],
    n: usize,
    words: &mut [u64; 11],
    codes: &mut [u32; 65],
    count: usize,
) -> usize
    requires { (n ≤ 680) × (length notes.now ≡ 680) × All Placed (notes_in notes.now n)
        × (length words.old ≡ 11) × (count ≤ 65) × (length codes.old ≡ 65) }
    ensures result_after { held words.new codes.new result
        ≡ gather_notes (notes_in notes.now n) (held words.old codes.old count) }
    ensures words_len { (length words.new ≡ 11) × (result ≤ 65) × (length codes.new ≡ 65) }
{
    if n == 0 {
        return count;
    }
    let ranges = sheet::variable_ranges(notes, n);
    let high = ranges.high;
    mark_rule(notes, n, &high, words);
    pair_rule(notes, n, codes, count)
}

// Reads the rules that the input begins with, notes where each begins and gathers their tests: questions 4 to 9.
fn scan_rules(
    s: &[u8],
    arity: usize,
    rules: usize,
    notes: &mut [u64; 680],
    words: &mut [u64; 11],
    codes: &mut [u32; 65],
    starts: &mut Starts,
) -> Result<Scan, Refusal>
    requires { (arity ≤ 8) × (length notes.old ≡ 680) × (length words.old ≡ 11) × (length codes.old ≡ 65)
        × (rules ≤ 64) × (length starts.old ≡ 64) }
    ensures result_after { gathered_in words.new codes.new result
        ≡ map_reading (λ rs. gather rs (held words.old codes.old 0))
        (read_rules arity rules s.now) }
    ensures scanned { Scanned (length s.now) words.new codes.new result }
    ensures scan_starts { scan_starts arity s.now starts.new rules result × (length notes.new ≡ 680) }
{
    let mut at: usize = 0;
    let mut count: usize = 0;
    for i in 0..rules {
        starts[i] = at;
        let read = read_marks(&s[at..], arity, notes, words)?;
        if !common(notes, read.notes) {
            return Err(Refusal::NoCommonNumber);
        }
        count = gather_rule(notes, read.notes, words, codes, count);
        at += read.bytes;
    }
    Ok(Scan {
        bytes: at,
        pairs: count,
    })
}

// Reads what follows a sheet's first record, and leaves its tests and where its rules begin: questions 4 to 11.
fn read_rules(
    s: &[u8],
    arity: u8,
    rules: u8,
    words: &mut [u64; 11],
    codes: &mut [u32; 65],
    notes: &mut [u64; 680],
    starts: &mut Starts,
) -> Result<TestsRead, Refusal>
    requires { (arity ≤ 8) × (words.old ≡ replicate 11 0) × (codes.old ≡ replicate 65 0)
        × (rules ≤ 64) × (length notes.old ≡ 680) × (length starts.old ≡ 64) }
    ensures result_after { tests_found words.new codes.new result
        ≡ sheet_found (ask_tests (end_sheet arity (length s.now) (read_rules arity rules s.now))) }
    ensures held { Held words.new codes.new result }
    ensures tests_starts { tests_starts s.now starts.new result × (length notes.new ≡ 680) }
{
    let scan = scan_rules(
        s,
        arity as usize,
        rules as usize,
        notes,
        words,
        codes,
        starts,
    )?;
    if scan.bytes != s.len() {
        return Err(Refusal::BytesAfterSheet);
    }
    if 64 < scan.pairs {
        return Err(Refusal::TooManyTests);
    }
    let places = count_places(words);
    if 64 < places + scan.pairs {
        return Err(Refusal::TooManyTests);
    }
    Ok(TestsRead {
        arity,
        rules,
        places,
        pairs: scan.pairs,
    })
}

// Reads a sheet and leaves its tests and where its rules begin, with the notes lent: questions 1 to 11.
fn tests_noted(
    s: &[u8],
    words: &mut [u64; 11],
    codes: &mut [u32; 65],
    notes: &mut [u64; 680],
    starts: &mut Starts,
) -> Result<TestsRead, Refusal>
    requires { (words.old ≡ replicate 11 0) × (codes.old ≡ replicate 65 0)
        × (length notes.old ≡ 680) × (length starts.old ≡ 64) }
    ensures result_after { tests_found words.new codes.new result ≡ sheet_found (accept_sheet s.now) }
    ensures held { Held words.new codes.new result }
    ensures tests_starts { tests_starts (drop 3 s.now) starts.new result × (length notes.new ≡ 680) }
{
    let header = sheet::read_header(s)?;
    read_rules(
        &s[3..],
        header.arity,
        header.rules,
        words,
        codes,
        notes,
        starts,
    )
}

// Reads a sheet and leaves its tests: questions 1 to 11. Not the tests of all rules but the last, nor a pair of two variables.
pub fn read_tests(
    s: &[u8],
    words: &mut [u64; 11],
    codes: &mut [u32; 65],
) -> Result<TestsRead, Refusal>
    requires { (words.old ≡ replicate 11 0) × (codes.old ≡ replicate 65 0) }
    ensures result_after { tests_found words.new codes.new result ≡ sheet_found (accept_sheet s.now) }
    ensures held { Held words.new codes.new result }
{
    let mut notes = [0u64; 680];
    let mut starts = [0usize; 64];
    tests_noted(s, words, codes, &mut notes, &mut starts)
}

// Checks a sheet and leaves where its rules begin, with the notes lent: questions 1 to 11. Not the place of a rule's last byte,
// nor that of the rule after it.
pub fn check_noted(
    s: &[u8],
    notes: &mut [u64; 680],
    starts: &mut Starts,
) -> Result<SheetSizes, Refusal>
    requires { (length notes.old ≡ 680) × (length starts.old ≡ 64) }
    ensures result_value { sheet_check_values result ≡ sheet_values (accept_sheet s.now) }
    ensures check_starts { check_starts (drop 3 s.now) starts.new result × (length notes.new ≡ 680) }
{
    let mut words = [0u64; 11];
    let mut codes = [0u32; 65];
    let read = tests_noted(s, &mut words, &mut codes, notes, starts)?;
    Ok(SheetSizes {
        arity: read.arity,
        rules: read.rules,
        tests: (read.places + read.pairs) as u8,
    })
}

// Checks a sheet: questions 1 to 11. Not a sheet accepted that has 65 tests, nor one refused for its tests that has bytes left.
pub fn check_sheet(s: &[u8]) -> Result<SheetSizes, Refusal>
    ensures { sheet_check_values result ≡ sheet_values (accept_sheet s.now) }
{
    let mut notes = [0u64; 680];
    let mut starts = [0usize; 64];
    check_noted(s, &mut notes, &mut starts)
}
