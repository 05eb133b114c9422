// The 16 bytes of a result.
ghost use Rattle.std.specs.Prelude.{◌+◌, ◌≤◌, ◌≡◌, length};
ghost use Rattle.records.specs.Writing.{splice};
ghost use Rattle.terms.specs.Answer.{word_of, rule_of};
ghost use Rattle.plain.specs.Plain.{answer_of};
ghost use Rattle.walk_all.specs.WalkAll.{result_bytes};

use plain::Answer;

// The answer word's number. Not suspend's for fail, nor that of the word before.
pub fn word(answer: Answer) -> u8
    ensures { result ≡ word_of (answer_of answer) }
{
    match answer {
        Answer::Commit(_) => 1,
        Answer::Execute(_) => 2,
        Answer::Suspend => 3,
        Answer::Fail => 4,
    }
}

// The answer's rule, 0 where it has none. Not 1 for a fail, nor 0 for an execute.
pub fn rule(answer: Answer) -> u8
    ensures { result ≡ rule_of (answer_of answer) }
{
    match answer {
        Answer::Commit(i) => i,
        Answer::Execute(i) => i,
        Answer::Suspend => 0,
        Answer::Fail => 0,
    }
}

// A result at a position. Not the wait list with its lowest byte first, nor a byte changed before or behind the result.
pub fn put_result(out: &mut [u8], at: usize, refusal: u8, word: u8, rule: u8, edges: u8, waits: u64)
    requires { at + 16 ≤ length out.old }
    ensures { out.new
        ≡ splice out.old at
        (result_bytes (record { refusal = refusal; word = word; rule = rule; edges = edges; waits = waits })) }
{
    let result = [
        refusal,
        word,
        rule,
        edges,
        0,
        0,
        0,
        0,
        (waits / 0x100_0000_0000_0000 % 0x100) as u8,
        (waits / 0x1_0000_0000_0000 % 0x100) as u8,
        (waits / 0x100_0000_0000 % 0x100) as u8,
        (waits / 0x1_0000_0000 % 0x100) as u8,
        (waits / 0x100_0000 % 0x100) as u8,
        (waits / 0x1_0000 % 0x100) as u8,
        (waits / 0x100 % 0x100) as u8,
        (waits % 0x100) as u8,
    ];
    records::put(out, at, &result);
}
