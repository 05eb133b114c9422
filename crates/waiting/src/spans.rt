// The spans that a walk met, and the numbers of the tests that it met.
ghost use Rattle.std.specs.Prelude.{◌/◌, ◌≤◌, ◌<◌, ◌≡◌, length, take};
ghost use Rattle.basics.specs.Lists.{All, any_of};
ghost use Rattle.test_list.specs.views.Tests.{Counted};
ghost use Rattle.rule_masks.specs.views.Kept.{listed_tests};
ghost use Rattle.waiting.specs.views.SpanTests.{span_at, met_numbers};

use codes::UNKNOWN;
use piece::Cells;
use rule_masks::number::test_number;
use tables::Tables;

// Has the test with a code a span of several codes at its place, or at the first of its two? Not an unknown, nor one number.
fn is_span(cells: &Cells, code: u32) -> bool
    requires { code / 0x1_0000 < 680 }
    ensures { result ≡ span_at cells.now code }
{
    let run = cells[(code / 0x1_0000) as usize];
    if run == UNKNOWN {
        return false;
    }
    0x1_0000_0000 <= run
}

// Is a span met, among so many tests at the front of the list? Not one that stands where no test met looks, nor only one at the
// first test.
pub fn meets_span(met: &[u32; 64], edges: u8, cells: &Cells) -> bool
    requires { (length met.now ≡ 64) × (edges ≤ 64) × All (λ c. c / 0x1_0000 < 680) (take edges met.now) }
    ensures { result ≡ any_of (span_at cells.now) (take edges met.now) }
{
    for i in 0..edges as usize {
        if is_span(cells, met[i]) {
            return true;
        }
    }
    false
}

// Puts the number of each test met, so many, in the place of its code. Not the number of the edge, nor that of the place.
pub fn number_tests(met: &mut [u32; 64], edges: u8, kept: &Tables)
    requires { Counted kept.now × (length met.old ≡ 64) × (edges ≤ 64) }
    ensures { (take edges met.new ≡ met_numbers (listed_tests kept.now) (take edges met.old))
        × (length met.new ≡ 64) }
{
    for i in 0..edges as usize {
        met[i] = test_number(kept, met[i] as u64) as u32;
    }
}
