// Builds the graph of a sheet in a lent buffer: its tests are read and listed, in document 01's order or in that of a table, and
// the graph of its rules is written.
#![tactic(auto)]

ghost use Rattle.std.specs.Prelude.{◌≡◌, ◌+◌, ◌≤◌, length, take, replicate};
ghost use Rattle.sheet_tests.specs.views.TestedPlaces.{places_in};
ghost use Rattle.test_list.specs.views.Numbers.{number_all};
ghost use Rattle.build.specs.BuildOutcome.{build_outcome, ordered_outcome, left_by};
ghost use Rattle.build.specs.views.Tabled.{tests_for};

use build::Built;
use build::graph_of::build_listed;
use records::Refusal;
use tables::Tables;

// Lists the tests of a sheet of so many rules in its tables, asked lowest first. Not the tests of another sheet, nor asked in the
// order of the rules.
fn list_sheet(
    rules: u8,
    words: &[u64; 11],
    codes: &[u32; 65],
    pairs: usize,
    s: &mut Tables,
    numbers: &mut [u8; 680],
)
    requires words_len { (length words.now ≡ 11) × (length codes.now ≡ 65) × (length (places_in words.now) + pairs ≤ 64) }
    requires s_value { (s.old ≡ replicate 324 0) × (numbers.old ≡ replicate 680 0) }
    ensures s_after { s.new ≡ tests_for (places_in words.now) (take pairs codes.now) rules }
    ensures numbers_after { numbers.new ≡ number_all (places_in words.now) 0 (replicate 680 0) }
{
    s[0] = rules as u64;
    test_list::list_tests(words, codes, pairs, s, numbers);
    turns::lowest_first(s);
}

// Builds the graph of a sheet: the sheet's questions, then 18, then 19. Not a root that always suspends, one stored graph for every
// sheet, nor a buffer with a byte changed behind the graph or on a refusal.
pub fn build(sheet: &[u8], buf: &mut [u8]) -> Result<Built, Refusal>
    ensures { left_by result buf.new ≡ build_outcome sheet.now buf.old }
{
    let mut words = [0u64; 11];
    let mut codes = [0u32; 65];
    let read = sheet_tests::read_tests(sheet, &mut words, &mut codes)?;
    let mut s = [0u64; 324];
    let mut numbers = [0u8; 680];
    list_sheet(read.rules, &words, &codes, read.pairs, &mut s, &mut numbers);
    build_listed(&sheet[3..], read.arity, &numbers, &mut s, buf)
}

// Builds the graph of a sheet in the order of a table: the sheet's questions, the table's, then 18, then 19. Not the tests in
// ascending order under every table, nor a table's refusal before the sheet's.
pub fn build_ordered(sheet: &[u8], table: &[u8], buf: &mut [u8]) -> Result<Built, Refusal>
    ensures { left_by result buf.new
        ≡ ordered_outcome sheet.now table.now buf.old }
{
    let mut words = [0u64; 11];
    let mut codes = [0u32; 65];
    let read = sheet_tests::read_tests(sheet, &mut words, &mut codes)?;
    let mut places = [0u16; 680];
    order::read_table(table, &mut places)?;
    let mut s = [0u64; 324];
    let mut numbers = [0u8; 680];
    list_sheet(read.rules, &words, &codes, read.pairs, &mut s, &mut numbers);
    turns::by_places(&places, &numbers, &mut s);
    build_listed(&sheet[3..], read.arity, &numbers, &mut s, buf)
}
