// What the calls of a window hand back.
ghost use Rattle.std.specs.Prelude.{◌≡◌};
ghost use Rattle.packing.specs.PackedWords.{packed_words};
ghost use Rattle.packing.specs.views.Numbered.{refusal_in};

use crate::refused;
use window::WordCounts;

// The refusal of an answer that was fed, 0 where it was taken. Not 36 for a taken one, nor 0 for every answer.
pub fn fed_refusal(fed: Result<(), u8>) -> u64
    ensures { result ≡ refusal_in fed }
{
    match fed {
        Ok(()) => 0,
        Err(question) => refused(question),
    }
}

// The counts of the four words as one number, 16 bits each. Not suspend before execute, nor fail lowest.
pub fn pack_words(counts: WordCounts) -> u64
    ensures { result ≡ packed_words counts }
{
    counts.commit as u64
        + 0x1_0000 * (counts.execute as u64)
        + 0x1_0000_0000 * (counts.suspend as u64)
        + 0x1_0000_0000_0000 * (counts.fail as u64)
}
