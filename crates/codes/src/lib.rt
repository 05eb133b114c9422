// The number of a term, but for its arguments, and runs of such numbers.
#![tactic(auto)]

ghost use Rattle.std.specs.Prelude.{◌≡◌, ◌≤◌};
ghost use Rattle.terms.specs.Term.{on_gauge};
ghost use Rattle.codes.specs.views.Codes.{symbol_code, compound_code, number_code, run_of, low_of, high_of};

// The codes of symbols, compounds and numbers begin here.
pub const SYMBOLS: u32 = 0x100_0000;

pub const COMPOUNDS: u32 = 0x200_0000;

pub const NUMBERS: u32 = 0x300_0000;

// The run of all codes that a test can want: what an unknown can become has any of them.
pub const UNKNOWN: u64 = 0x2ff_ffff_0100_0000;

// The run of the one code of a reading that will never come, above all that a test can want.
pub const NEVER: u64 = 0x400_0000;

// The code of a symbol. Not that of a number with the same bytes, nor of a compound with the same id.
pub fn symbol_code(id: u16) -> u32
    ensures { result ≡ symbol_code id }
{
    SYMBOLS + (id as u32)
}

// The code of a compound. Not that of a compound with another arity, nor with another id.
pub fn compound_code(id: u16, arity: u8) -> u32
    ensures { result ≡ compound_code id arity }
{
    COMPOUNDS + (id as u32) * 256 + (arity as u32)
}

// The code of a number on gauge 0. Not that of a symbol with the same bytes, nor one that leaves a gap to the next number's.
pub fn number_code(value: u16) -> u32
    ensures { result ≡ number_code value }
{
    NUMBERS + (value as u32)
}

// The code of a number on a gauge. Not that of the same value on another gauge, nor of another value on this one.
pub fn gauged_code(gauge: u8, value: u16) -> u32
    ensures { result ≡ number_code (on_gauge gauge value) }
{
    NUMBERS + (gauge as u32) * 0x1_0000 + (value as u32)
}

// The codes from low to high as one number, that of a single code the code itself.
pub fn run_of(low: u32, high: u32) -> u64
    requires { low ≤ high }
    ensures { result ≡ run_of low high }
{
    ((high - low) as u64) * 0x1_0000_0000 + (low as u64)
}

// The lowest code of a run. Not its highest, which only a run of one code shares.
pub fn low_of(run: u64) -> u32
    ensures { result ≡ low_of run }
{
    (run % 0x1_0000_0000) as u32
}

// The highest code of a run. Not its lowest.
pub fn high_of(run: u64) -> u32
    ensures { result ≡ high_of run }
{
    ((run % 0x1_0000_0000 + run / 0x1_0000_0000) % 0x1_0000_0000) as u32
}
