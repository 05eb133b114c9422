// The numbers of a sheet's tests: the place of a test's code among those that are listed.
ghost use Rattle.std.specs.Prelude.{◌≡◌};
ghost use Rattle.test_list.specs.views.Tests.{Counted};
ghost use Rattle.rule_masks.specs.views.TestNumbers.{test_number, code_test};
ghost use Rattle.rule_masks.specs.views.Kept.{listed_tests};

use tables::Tables;

// The number of the test with a code among those that are listed; how many there are where it is not listed. Not that of another
// pair with the same first place, nor that of the place with a pair's number.
pub fn test_number(kept: &Tables, code: u64) -> usize
    requires { Counted kept.now }
    ensures { result ≡ test_number (listed_tests kept.now) (code_test code) }
{
    let tests = tables::tests(kept);
    for t in 0..tests {
        if tables::test(kept, t) == code {
            return t;
        }
    }
    tests
}
