// The tables of an accepted sheet, in one lent array behind accessors: how many rules, tests and place tests there are, then a
// plane of 64 numbers for each thing that is asked of a rule or a test.
#![tactic(auto)]

ghost use Rattle.std.specs.Prelude.{◌≡◌, ◌<◌};
ghost use Rattle.tables.specs.views.Planes.{rules_in, tests_in, place_tests_in, test_in, row_in, column_in, under_in};
ghost use Rattle.tables.specs.views.Planes.{before_in, first_asked_in};

// Room for the counts and five planes.
pub type Tables = [u64; 324];

// How many rules there are.
pub fn rules(s: &Tables) -> usize
    ensures { result ≡ rules_in s.now }
{
    s[0] as usize
}

// How many tests there are.
pub fn tests(s: &Tables) -> usize
    ensures { result ≡ tests_in s.now }
{
    s[1] as usize
}

// How many of the tests are places: the first so many.
pub fn place_tests(s: &Tables) -> usize
    ensures { result ≡ place_tests_in s.now }
{
    s[2] as usize
}

// Test t as p × 65,536 + q, where place p counts as the pair p, p.
pub fn test(s: &Tables, t: usize) -> u64
    requires { t < 64 }
    ensures { result ≡ test_in s.now t }
{
    s[4 + t]
}

// The set of the tests of rule i.
pub fn row(s: &Tables, i: usize) -> u64
    requires { i < 64 }
    ensures { result ≡ row_in s.now i }
{
    s[68 + i]
}

// The set of the rules that have test t.
pub fn column(s: &Tables, t: usize) -> u64
    requires { t < 64 }
    ensures { result ≡ column_in s.now t }
{
    s[132 + t]
}

// The set of the tests that an unknown at place test t settles.
pub fn under(s: &Tables, t: usize) -> u64
    requires { t < 64 }
    ensures { result ≡ under_in s.now t }
{
    s[196 + t]
}

// The set of the tests that are asked before test t.
pub fn before(s: &Tables, t: usize) -> u64
    requires { t < 64 }
    ensures { result ≡ before_in s.now t }
{
    s[260 + t]
}

// The pending test that is asked first. Nothing else picks a test. Not the lowest where another is asked before it, nor one that is
// not pending.
pub fn first_asked(s: &Tables, pending: u64) -> usize
    requires { 0 < pending }
    ensures { (result ≡ first_asked_in s.now pending) × (result < 64) }
{
    let mut t = pending.trailing_zeros() as usize;
    let mut earlier = pending & before(s, t);
    while earlier != 0 {
        t = earlier.trailing_zeros() as usize;
        earlier = earlier & (earlier - 1) & before(s, t);
    }
    t
}
