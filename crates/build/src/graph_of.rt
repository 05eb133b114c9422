// The graph of rules whose tests are listed: they are put into tables and cuts, all keys found with the graph's size, and only then
// are bytes written (document 01, "Nodes", "Questions at the counter", 18 and 19).
ghost use Rattle.std.specs.Prelude.{◌≡◌, ◌≤◌, List, ℕ, length, replicate};
ghost use Rattle.terms.specs.Pattern.{Patterns};
ghost use Rattle.decision.specs.Graph.{graph_in};
ghost use Rattle.tables.specs.views.Planes.{rules_in, place_tests_in};
ghost use Rattle.cuts.specs.views.Cuts.{Parted};
ghost use Rattle.compiled.specs.views.Compiling.{Compiling};
ghost use Rattle.build.specs.BuildOutcome.{graph_written, left_by};
ghost use Rattle.build.specs.views.Tabled.{ListedRules, grown_in};

use crate::Built;
use emit::row::put_graph;
use keys::grow::grow;
use records::Refusal;
use tables::Tables;

// The graph that is grown from tables and cuts: questions 18 and 19. Not a graph of other tables, nor a byte changed behind it.
fn build_tables(arity: u8, s: &Tables, c: &[u64], buf: &mut [u8]) -> Result<Built, Refusal>
    requires { Parted (rules_in s.now) (place_tests_in s.now) c.now }
    ensures { left_by result buf.new
        ≡ graph_written arity (rules_in s.now) (grown_in s.now c.now) buf.old }
{
    let mut keys = [0u64; 4097];
    let mut runs = [0u64; 579];
    let Some(bytes) = grow(&mut keys, s, c, &mut runs) else {
        return Err(Refusal::TooManyNodes);
    };
    if buf.len() < 5 + bytes {
        return Err(Refusal::GraphTooLong);
    }
    let end = put_graph(buf, arity, s, c, &mut runs, &keys);
    Ok(Built {
        nodes: met::count(&keys) as u16,
        bytes: end as u32,
    })
}

// The graph of the rules that the input begins with, whose tests are listed: the rules are put into tables and cuts.
fn build_cut(
    b: &[u8],
    arity: u8,
    numbers: &[u8; 680],
    s: &mut Tables,
    c: &mut [u64],
    buf: &mut [u8],
) -> Result<Built, Refusal>
    requires { (order : List ℕ) × (all : List Patterns) × Compiling arity b.now numbers.now s.old c.old order all }
    ensures { (order : List ℕ) (all : List Patterns)
        → Compiling arity b.now numbers.now s.old c.old order all
        → left_by result buf.new ≡ graph_written arity (length all) (graph_in all order) buf.old }
{
    compiled::table_rules(b, arity as usize, numbers, s, c);
    build_tables(arity, s, c, buf)
}

// The same in room for so many words of cuts: of a small sheet, of every sheet with up to 32 rules, and of every sheet. A large
// array takes longer to clear than a small graph to build.
fn build_within<const WORDS: usize>(
    b: &[u8],
    arity: u8,
    numbers: &[u8; 680],
    s: &mut Tables,
    buf: &mut [u8],
) -> Result<Built, Refusal>
    requires few_words { WORDS ≤ 16448 }
    requires compiling { (order : List ℕ) × (all : List Patterns)
        × Compiling arity b.now numbers.now s.old (replicate WORDS 0) order all }
    ensures { (order : List ℕ) (all : List Patterns)
        → Compiling arity b.now numbers.now s.old (replicate WORDS 0) order all
        → left_by result buf.new ≡ graph_written arity (length all) (graph_in all order) buf.old }
{
    let mut c = [0u64; WORDS];
    build_cut(b, arity, numbers, s, &mut c, buf)
}

// The graph of the rules that the input begins with, whose tests are listed, in this one of three rooms, or in the next where their
// cuts do not fit it. A function that calls itself takes no other's large arrays into its frame, so that the stack of a build holds
// the one room that is used. Not the graph of rules whose cuts are cut off at the room's end, nor that of all rules but the last.
fn build_in(
    room: u8,
    b: &[u8],
    arity: u8,
    numbers: &[u8; 680],
    s: &mut Tables,
    buf: &mut [u8],
) -> Result<Built, Refusal>
    requires { (order : List ℕ) × (all : List Patterns) × ListedRules arity b.now numbers.now s.old order all }
    ensures { (order : List ℕ) (all : List Patterns)
        → ListedRules arity b.now numbers.now s.old order all
        → left_by result buf.new ≡ graph_written arity (length all) (graph_in all order) buf.old }
{
    let words = cuts::part(tables::rules(s), tables::place_tests(s));
    if room == 0 {
        if 320 < words {
            return build_in(1, b, arity, numbers, s, buf);
        }
        return build_within::<320>(b, arity, numbers, s, buf);
    }
    if room == 1 {
        if 8256 < words {
            return build_in(2, b, arity, numbers, s, buf);
        }
        return build_within::<8256>(b, arity, numbers, s, buf);
    }
    build_within::<16448>(b, arity, numbers, s, buf)
}

// The graph of the rules that the input begins with, whose tests are listed, asked in the order that the tables have. Not the graph
// of all rules but the last, nor tests asked in another order.
pub fn build_listed(
    b: &[u8],
    arity: u8,
    numbers: &[u8; 680],
    s: &mut Tables,
    buf: &mut [u8],
) -> Result<Built, Refusal>
    requires { (order : List ℕ) × (all : List Patterns) × ListedRules arity b.now numbers.now s.old order all }
    ensures { (order : List ℕ) (all : List Patterns)
        → ListedRules arity b.now numbers.now s.old order all
        → left_by result buf.new ≡ graph_written arity (length all) (graph_in all order) buf.old }
{
    build_in(0, b, arity, numbers, s, buf)
}
