// The tests met on a walk that are not known in the piece.
ghost use Rattle.std.specs.Prelude.{◌≤◌, ◌≡◌, length, take};
ghost use Rattle.basics.specs.Lists.{All};
ghost use Rattle.outcomes.specs.views.CompareCells.{Narrow};
ghost use Rattle.rule_masks.specs.views.TestNumbers.{test_number, code_test, NearTest, KeptCode, with_if};
ghost use Rattle.rule_masks.specs.views.Kept.{Listed, listed_tests};
ghost use Rattle.waiting.specs.views.OpenTests.{open_cells, met_waits};

use codes::UNKNOWN;
use outcomes::{TestOutcome, look, pair_outcome};
use piece::Cells;
use rule_masks::number::test_number;
use tables::Tables;

// Is the test with a code not known? Not one with a place that the piece lacks, nor a pair that holds.
pub fn is_open(cells: &Cells, code: u32) -> bool
    requires { NearTest (code_test code) × Narrow cells.now }
    ensures { result ≡ open_cells cells.now (code_test code) }
{
    let p = (code / 0x1_0000) as usize;
    let q = (code % 0x1_0000) as usize;
    if p == q {
        return look(cells, p) == UNKNOWN;
    }
    match pair_outcome(cells, p, q) {
        TestOutcome::Holds => false,
        TestOutcome::NotKnown => true,
        TestOutcome::Contradicted => false,
    }
}

// The set of tests with the one that has a code, where that is not known. Not with a test that is known, nor without those of the
// set.
fn with_open(set: u64, kept: &Tables, cells: &Cells, code: u32) -> u64
    requires { Listed kept.now × KeptCode (listed_tests kept.now) code × Narrow cells.now }
    ensures { result
        ≡ with_if (open_cells cells.now (code_test code)) set
        (test_number (listed_tests kept.now) (code_test code)) }
{
    if is_open(cells, code) {
        return masks::insert(set, test_number(kept, code as u64));
    }
    set
}

// The set of the tests met, of which so many stand at the front of the list, that are not known. Not all tests met, nor those of
// the sheet that are not known, nor a test behind the walk's edges.
pub fn open_waits(met: &[u32; 64], edges: u8, kept: &Tables, cells: &Cells) -> u64
    requires listed { Listed kept.now × (length met.now ≡ 64) × (edges ≤ 64) × Narrow cells.now }
    requires all { All (KeptCode (listed_tests kept.now)) (take edges met.now) }
    ensures { result ≡ met_waits (listed_tests kept.now) cells.now (take edges met.now) }
{
    let mut set: u64 = 0;
    for i in 0..edges as usize {
        set = with_open(set, kept, cells, met[i]);
    }
    set
}
