// The common range of each variable of a rule, off its notes, and question 9.
ghost use Rattle.std.specs.Prelude.{◌≡◌, ◌≤◌, length};
ghost use Rattle.sheet.specs.views.NoteArray.{notes_in};
ghost use Rattle.sheet.specs.views.NoteRanges.{note_ranges, ends_meet, notes_meet};

use crate::Ranges;
use patterns::PatternRecord;
use patterns::note::note_record;

// The common range of each variable, in the first n notes: the common part of all its ranges and not the last of them,
// and no range where it has none.
#[tactic(auto, using(crate::proofs::RangeArrays::ranged_fits))]
pub fn ranges(notes: &[u64; 680], n: usize) -> Ranges
    requires { (n ≤ 680) × (length notes.now ≡ 680) }
    ensures { result ≡ note_ranges (notes_in notes.now n) }
{
    let mut low = [0u16; 16];
    let mut high = [65536u32; 16];
    for code in &notes[..n] {
        if let PatternRecord::Ranged(v, l, h) = note_record(*code) {
            let u = v as usize;
            low[u] = low[u].max(l);
            high[u] = high[u].min(h as u32);
        }
    }
    Ranges { low, high }
}

// Whether each variable's range has a number. 5 to 5 has, 5 to 4 has not.
fn meet(ranges: Ranges) -> bool
    ensures { result ≡ ends_meet ranges.low ranges.high }
{
    for v in 0..16 {
        if ranges.high[v] < ranges.low[v] as u32 {
            return false;
        }
    }
    true
}

// Question 9 of the first n notes: each variable's ranges have a number in common. 5 to 9 and 7 to 12 have, 5 to 6 and
// 7 to 12 have not.
pub fn common(notes: &[u64; 680], n: usize) -> bool
    requires { (n ≤ 680) × (length notes.now ≡ 680) }
    ensures { result ≡ notes_meet (notes_in notes.now n) }
{
    n == 0 || meet(ranges(notes, n))
}
