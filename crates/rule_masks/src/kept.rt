// The tables that a walk is lent: the sheet's tests by their numbers and, in the plane of the rows, which no walk asks, where its
// rules begin.
ghost use Rattle.std.specs.Prelude.{◌≡◌, length, take};
ghost use Rattle.sheet_tests.specs.views.TestedPlaces.{places_in};
ghost use Rattle.test_list.specs.views.Tests.{tests_put};
ghost use Rattle.rule_masks.specs.views.Kept.{Arrays};

use tables::Tables;

// Lists the tests that the words and the first of the codes hold. Not a pair before a place, nor a pair that is not kept.
pub fn keep_tests(words: &[u64; 11], codes: &[u32; 65], pairs: usize, kept: &mut Tables)
    requires { Arrays words.now codes.now pairs × (length kept.old ≡ 324) }
    ensures { kept.new
        ≡ tests_put (places_in words.now) (take pairs codes.now) kept.old }
{
    let mut places = [0u16; 64];
    let count = test_list::list_places(words, &mut places);
    test_list::put_tests(&places, count, codes, pairs, kept);
}
