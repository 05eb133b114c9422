// The lines of the listing, each written into the part of a lent buffer that begins at a position.
#![tactic(auto)]

ghost use Rattle.std.specs.Prelude.{◌+◌, ◌≤◌, ◌≡◌, [], ◌∷◌, ◌++◌, length};
ghost use Rattle.records.specs.Writing.{splice};
ghost use Rattle.plain.specs.Plain.{answer_of};
ghost use Rattle.terms.specs.Answer.{rule_of};
ghost use Rattle.lines.specs.Lines.{hex_digits, hex16, answer_word, sheet_line, piece_line, refused_line};

use digits::{digit, put_number};
use plain::Answer;

// The last so many hexadecimal digits of a number, and the position behind them.
fn put_hex(buf: &mut [u8], at: usize, count: usize, x: u64) -> usize
    requires { at + length (hex_digits count x) ≤ length buf.old }
    ensures { (result ≡ at + length (hex_digits count x))
        × (buf.new ≡ splice buf.old at (hex_digits count x)) }
{
    if count == 0 {
        return at;
    }
    let end = put_hex(buf, at, count - 1, x / 16);
    records::put(buf, end, &[digit(x % 16)])
}

// The word of an answer and a space, and the position behind both.
fn put_word(buf: &mut [u8], at: usize, answer: Answer) -> usize
    requires { at + length (answer_word (answer_of answer) ++ (0x20 ∷ [])) ≤ length buf.old }
    ensures { (result ≡ at + length (answer_word (answer_of answer) ++ (0x20 ∷ [])))
        × (buf.new ≡ splice buf.old at (answer_word (answer_of answer) ++ (0x20 ∷ []))) }
{
    match answer {
        Answer::Commit(_) => records::put(buf, at, b"commit "),
        Answer::Execute(_) => records::put(buf, at, b"execute "),
        Answer::Suspend => records::put(buf, at, b"suspend "),
        Answer::Fail => records::put(buf, at, b"fail "),
    }
}

// The rule of an answer, 0 for suspend and fail.
fn rule_of(answer: Answer) -> u8
    ensures { result ≡ rule_of (answer_of answer) }
{
    match answer {
        Answer::Commit(rule) => rule,
        Answer::Execute(rule) => rule,
        Answer::Suspend => 0,
        Answer::Fail => 0,
    }
}

// The 16 hexadecimal digits of a wait list and a line feed, and the position behind both.
fn put_waits(buf: &mut [u8], at: usize, waits: u64) -> usize
    requires { at + length (hex16 waits ++ (0x0a ∷ [])) ≤ length buf.old }
    ensures { (result ≡ at + length (hex16 waits ++ (0x0a ∷ [])))
        × (buf.new ≡ splice buf.old at (hex16 waits ++ (0x0a ∷ []))) }
{
    let end = put_hex(buf, at, 16, waits);
    records::put(buf, end, b"\n")
}

// The line of a sheet, at most 24 bytes, and the position behind it. Not one with a leading zero, nor one that puts tests before
// rules.
pub fn put_sheet_line(
    buf: &mut [u8],
    at: usize,
    arity: u8,
    rules: u8,
    tests: u8,
    nodes: u16,
) -> usize
    requires { at + 24 ≤ length buf.old }
    ensures value { (result ≡ at + length (sheet_line arity rules tests nodes))
        × (buf.new ≡ splice buf.old at (sheet_line arity rules tests nodes)) }
    ensures upper_bound { result ≤ at + 24 }
{
    let word = records::put(buf, at, b"sheet ");
    let first = put_number(buf, word, arity as u64, b' ');
    let second = put_number(buf, first, rules as u64, b' ');
    let third = put_number(buf, second, tests as u64, b' ');
    put_number(buf, third, nodes as u64, b'\n')
}

// The line of a piece, at most 44 bytes, and the position behind it. Not one with upper-case digits in the wait list, nor one
// without the rule 0 of a suspend.
pub fn put_piece_line(
    buf: &mut [u8],
    at: usize,
    number: u32,
    answer: Answer,
    edges: u8,
    waits: u64,
) -> usize
    requires { at + 44 ≤ length buf.old }
    ensures value { (result ≡ at + length (piece_line number (answer_of answer) edges waits))
        × (buf.new ≡ splice buf.old at (piece_line number (answer_of answer) edges waits)) }
    ensures upper_bound { result ≤ at + 44 }
{
    let rule = rule_of(answer);
    let first = put_number(buf, at, number as u64, b' ');
    let second = put_word(buf, first, answer);
    let third = put_number(buf, second, rule as u64, b' ');
    let fourth = put_number(buf, third, edges as u64, b' ');
    put_waits(buf, fourth, waits)
}

// The line of a refusal, at most 12 bytes, and the position behind it. Not one with two spaces, nor one that changes the byte
// after it.
pub fn put_refused(buf: &mut [u8], at: usize, question: u8) -> usize
    requires { at + 12 ≤ length buf.old }
    ensures value { (result ≡ at + length (refused_line question))
        × (buf.new ≡ splice buf.old at (refused_line question)) }
    ensures upper_bound { result ≤ at + 12 }
{
    let word = records::put(buf, at, b"refused ");
    put_number(buf, word, question as u64, b'\n')
}
