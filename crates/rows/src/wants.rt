// What a record wants at its place, as codes.
ghost use Rattle.std.specs.Prelude.{◌≡◌, Some};
ghost use Rattle.patterns.specs.views.NoteCode.{Fitting};
ghost use Rattle.rows.specs.views.Wants.{range_want, record_want, wanted_codes};

use crate::Codes;
use patterns::PatternRecord;
use sheet::Ranges;

// From one code to another.
fn codes(low: u32, high: u32) -> Option<Codes>
    ensures { result ≡ Some (record { low = low; high = high }) }
{
    Some(Codes { low, high })
}

// What a variable's common range wants: nothing where there is none.
fn range_wanted(low: u16, high: u32) -> Option<Codes>
    ensures { result ≡ wanted_codes (range_want low high) }
{
    if high < 0x1_0000 {
        return codes(0x300_0000 + low as u32, 0x300_0000 + high);
    }
    None
}

// What a record wants. Not a range of a ranged variable's own record alone, nor anything for a variable without a range, nor the
// numbers of gauge 0 for a range on a named gauge.
pub fn record_wanted(what: PatternRecord, ranges: Ranges) -> Option<Codes>
    requires { Fitting what }
    ensures { result ≡ wanted_codes (record_want ranges.low ranges.high what) }
{
    match what {
        PatternRecord::Anything => None,
        PatternRecord::Symbol(id) => {
            let code = 0x100_0000 + id as u32;
            codes(code, code)
        }
        PatternRecord::Range(low, high) => codes(0x300_0000 + low as u32, 0x300_0000 + high as u32),
        PatternRecord::Compound(id, arity) => {
            let code = 0x200_0000 + id as u32 * 256 + arity as u32;
            codes(code, code)
        }
        PatternRecord::Variable(v) | PatternRecord::Ranged(v, _, _) => {
            range_wanted(ranges.low[v as usize], ranges.high[v as usize])
        }
        PatternRecord::Series(low, high) => codes(
            0x100_0000 + low as u32,
            0x100_0000 + high as u32,
        ),
        PatternRecord::Gauged(gauge, low, high) => {
            let first = 0x300_0000 + gauge as u32 * 0x1_0000;
            codes(first + low as u32, first + high as u32)
        }
    }
}
