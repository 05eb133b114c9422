// How each result of the library is packed into one number, the refusal's number in its lowest byte. A result comes with its
// refusal's number, and any number of a byte is packed as it is.
#![tactic(auto)]

pub mod answers; // plain answers, and walks of one piece and of many
pub mod checks; // the checks of sheets, pieces, graphs and reading orders
pub mod windows; // what the calls of a window hand back
pub mod writers; // graphs, sheets and reading orders written into a lent buffer

ghost use Rattle.std.specs.Prelude.{◌≡◌, ◌<◌, [], ◌∷◌};
ghost use Rattle.packing.specs.Packed.{Packs, bits8, bits16, bits32};
ghost use Rattle.packing.specs.views.Numbered.{numbered};

use records::Refusal;

// A result with the number in its refusal's place. Not another question's number, nor a number where nothing was refused.
pub fn numbered<T: Copy>(answered: Result<T, Refusal>) -> Result<T, u8>
    ensures { result ≡ numbered answered }
{
    match answered {
        Ok(value) => Ok(value),
        Err(refusal) => Err(refusal.number()),
    }
}

// A refusal's number and three values as one number.
fn pack(refusal: u8, first: u8, second: u8, third: u8) -> u64
    ensures { Packs result (bits8 refusal ∷ bits8 first ∷ bits8 second ∷ bits8 third ∷ []) }
{
    refusal as u64
        + 0x100 * (first as u64)
        + 0x1_0000 * (second as u64)
        + 0x100_0000 * (third as u64)
}

// A refusal's number and one value of more bits as one number.
fn pack_wide(refusal: u8, value: u32) -> u64
    ensures { Packs result (bits8 refusal ∷ bits32 value ∷ []) }
{
    refusal as u64 + 0x100 * (value as u64)
}

// A refusal's number, a value of 16 bits and one of 32 as one number.
fn pack_two(refusal: u8, first: u16, second: u32) -> u64
    ensures { Packs result (bits8 refusal ∷ bits16 first ∷ bits32 second ∷ []) }
{
    refusal as u64 + 0x100 * (first as u64) + 0x100_0000 * (second as u64)
}

// A refusal's number alone: every other field is 0.
fn refused(question: u8) -> u64
    ensures { (result ≡ question) × (result < 0x100) }
{
    question as u64
}
