// The tidy form of a sheet: its questions, its length, then its bytes.
ghost use Rattle.std.specs.Prelude.{◌≡◌, ◌+◌, ◌*◌, ◌≤◌, leb, length, drop};
ghost use Rattle.records.specs.Writing.{splice};
ghost use Rattle.tidy.specs.Tidied.{tidied};
ghost use Rattle.tidying.specs.views.HandedBack.{left_by};
ghost use Rattle.tidying.specs.views.TidyRows.{tidy_rows};

use records::Refusal;
use rule_rows::{Row, meet_row};
use tidy_rows::{measure_rule, put_rule};

// How many bytes the tidy form of a sheet has. Not those of the sheet, nor those of its rules alone.
fn measure(s: &[u8], arity: u8, rules: u8) -> usize
    requires { 3 ≤ length s.now }
    ensures value { result ≡ 3 + length (tidy_rows arity rules (drop 3 s.now)) }
    ensures upper_bound { result ≤ 3 + 4080 * rules }
{
    let mut at: usize = 3;
    let mut size: usize = 3;
    for _ in 0..rules {
        let row = Row {
            at,
            patterns: arity as usize,
            most: 680,
        };
        let mut known = [0x1_0000_0000u64; 16];
        meet_row(s, row, &mut known);
        let moved = measure_rule(s, row, &known);
        at = moved.from;
        size += moved.to;
    }
    size
}

// Whether the tidy form of a sheet fits so much room. It has at most three times the bytes of the sheet, since only a variable's
// record grows, from 2 to 6: where there is that much room, nothing is measured. What just fits fits.
fn fits(s: &[u8], arity: u8, rules: u8, room: usize) -> bool
    requires { 3 ≤ length s.now }
    ensures { result ≡ leb (3 + length (tidy_rows arity rules (drop 3 s.now))) room }
{
    if s.len() <= room / 3 {
        return true;
    }
    measure(s, arity, rules) <= room
}

// The tidy forms of a sheet's rules in a buffer that has room for them, from a position on, and the position behind them. Each rule
// has its own numbers: those of one rule do not run on into the next.
fn put_rules(s: &[u8], arity: u8, rules: u8, buf: &mut [u8], start: usize) -> usize
    requires { (3 ≤ length s.now) × (start + length (tidy_rows arity rules (drop 3 s.now)) ≤ length buf.old) }
    ensures { (result ≡ start + length (tidy_rows arity rules (drop 3 s.now)))
        × (buf.new ≡ splice buf.old start (tidy_rows arity rules (drop 3 s.now))) }
{
    let mut at: usize = 3;
    let mut end = start;
    for _ in 0..rules {
        let row = Row {
            at,
            patterns: arity as usize,
            most: 680,
        };
        let mut words = [0x1_0000_0000u64; 16];
        meet_row(s, row, &mut words);
        let moved = put_rule(s, row, &mut words, buf, end);
        at = moved.from;
        end = moved.to;
    }
    end
}

// Writes the tidy form of a sheet: the sheet's questions, then 31. Not a byte written where the sheet is refused or its tidy form
// does not fit, nor a sheet refused whose tidy form just fits.
pub fn tidy(sheet: &[u8], buffer: &mut [u8]) -> Result<u32, Refusal>
    ensures { left_by result buffer.new ≡ tidied sheet.now buffer.old }
{
    let sizes = sheet_tests::check_sheet(sheet)?;
    if !fits(sheet, sizes.arity, sizes.rules, buffer.len()) {
        return Err(Refusal::TidyTooLong);
    }
    let start = records::put(buffer, 0, &[0x10, sizes.arity, sizes.rules]);
    let end = put_rules(sheet, sizes.arity, sizes.rules, buffer, start);
    Ok(end as u32)
}
