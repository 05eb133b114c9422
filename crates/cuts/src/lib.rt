// Where the switches of a sheet are cut (document 02, requests 4, 5 and 7): the cuts of each place test are sorted once a sheet,
// and a switch takes those of its live rules in one pass.
#![tactic(auto)]

ghost use Rattle.std.specs.Prelude.{◌≡◌, List, [], ◌++◌, ℕ, ◌+◌, ◌*◌, ◌≤◌, ◌<◌, length};
ghost use Rattle.std.proofs.Math.Seq.{slice};
ghost use Rattle.records.specs.Writing.{splice};
ghost use Rattle.cuts.specs.views.Cuts.{part_at, count_at, cut_at, cuts_in, part_words, toggle, Spot};
ghost use Rattle.cuts.specs.views.Runs.{runs_in, with_run};
ghost use Rattle.cuts.specs.views.FramedRuns.{gap_run, gauge_first, framed_run, framed_from, name_runs};
ghost use Rattle.cuts.specs.views.CaseRuns.{case_runs, switch_runs, GaugeUpTo};

// The runs of one switch: for each the lowest code, the highest and the live rules that want it. Whatever
// the cuts of 64 rules are, they make no more than 193.
pub type Runs = [u64; 579];

// Where the part of test t begins, of a sheet with so many rules. Not within the part before it, nor where a rule would have room
// for one cut only.
pub fn part(rules: usize, t: usize) -> usize
    requires { (rules ≤ 64) × (t ≤ 64) }
    ensures { result ≡ part_at rules t }
{
    (1 + 4 * rules) * t
}

// The first of the cuts of a part that is not below a code. Not one behind a cut with this code, nor one before a cut that is
// below it.
fn spot_of(c: &[u64], from: usize, count: usize, code: u64) -> usize
    requires { from + 1 + 2 * count ≤ length c.now }
    ensures { Spot c.now from count code result }
{
    for k in 0..count {
        if code <= c[from + 1 + 2 * k] {
            return k;
        }
    }
    count
}

// What stands from one place up to another moves up by two. Not what stands before or behind it, nor a word twice.
fn move_up(c: &mut [u64], from: usize, to: usize)
    requires { (from ≤ to) × (to + 2 ≤ length c.old) }
    ensures { c.new ≡ splice c.old (from + 2) (slice from to c.old) }
{
    c.copy_within(from..to, from + 2);
}

// Some rules turn at a code in a part. Not a second cut at a code that is there, nor a cut behind one with a higher code.
pub fn turn(c: &mut [u64], from: usize, code: u64, bit: u64)
    requires { from + 3 + 2 * count_at c.old from ≤ length c.old }
    ensures { c.new
        ≡ splice c.old from (part_words (toggle code bit (cuts_in c.old from))) }
{
    let count = c[from] as usize;
    let k = spot_of(c, from, count, code);
    let at = from + 1 + 2 * k;
    if k < count && c[at] == code {
        c[at + 1] ^= bit;
        return;
    }
    move_up(c, at, from + 1 + 2 * count);
    c[at + 1] = bit;
    c[at] = code;
    c[from] = count as u64 + 1;
}

// How many runs a switch has, and how many of them begin below the base, as those of symbols and compounds do.
#[derive(Clone, Copy)]
pub struct Framed {
    pub count: usize,
    pub names: usize,
}

// A row of pairs: the first run of them all, and how many runs there are.
#[derive(Clone, Copy)]
pub struct Row {
    pub first: usize,
    pub count: usize,
}

// The first code of the gauge that a code is on. Not of the next gauge.
fn gauge_first(code: u64) -> u64
    ensures { result ≡ gauge_first code }
{
    code / 0x1_0000 * 0x1_0000
}

// Writes a run behind n others. Not over one of them, nor its high before its low.
fn put_run(runs: &mut Runs, n: usize, low: u64, high: u64, set: u64)
    requires { (length runs.old ≡ 579) × (n < 193) }
    ensures { runs.new ≡ with_run runs.old n (record { low = low; high = high; set = set }) }
{
    runs[3 * n] = low;
    runs[3 * n + 1] = high;
    runs[3 * n + 2] = set;
}

// Writes the run from one code up to another that no live rule wants behind n others, if there are codes, and tells how many there
// are then. Not a run without codes.
fn put_gap(runs: &mut Runs, n: usize, start: u64, next: u64) -> usize
    requires { (length runs.old ≡ 579) × (n < 193) }
    ensures { (runs_in runs.new result ≡ runs_in runs.old n ++ gap_run start next [])
        × (n ≤ result) × (result ≤ n + 1) × (length runs.new ≡ 579) }
{
    if next <= start {
        return n;
    }
    put_run(runs, n, start, next - 1, 0);
    n + 1
}

// Ends the run from one code up to the next cut: it is written behind the others. Not a run below the base that no live rule wants,
// nor codes of a gauge between those of the two cuts, nor a wanted run without those of its codes that are below the base.
fn end_run(runs: &mut Runs, done: Framed, base: u64, start: u64, next: u64, set: u64) -> Framed
    requires { (length runs.old ≡ 579) × (done.count < 192) × (done.names ≤ done.count) × (0 < next)
        × (start < 0x1_0000_0000) × (base < 0x1_0000_0000) }
    ensures { (runs_in runs.new result.count
        ≡ runs_in runs.old done.count ++ framed_run base start next set [])
        × (result.names ≡ done.names + length (name_runs base (framed_run base start next set [])))
        × (result.count ≤ done.count + 2) × ((set ≡ 0 → ⊥) → result.count ≤ done.count + 1) × (length runs.new ≡ 579) }
{
    let n = done.count;
    let names = done.names;
    if set == 0 {
        let from = start.max(base);
        let end = gauge_first(from + 0xffff);
        let m = put_gap(runs, n, from, next.min(end));
        return Framed {
            count: put_gap(runs, m, end.max(gauge_first(next)), next),
            names,
        };
    }
    put_run(runs, n, start, next - 1, set);
    if start < base {
        return Framed {
            count: n + 1,
            names: names + 1,
        };
    }
    Framed {
        count: n + 1,
        names,
    }
}

// Cuts a switch whose test has the part that begins there into runs for the live rules, each left in `runs`: below the base those
// that a live rule wants, and from the base on all of each gauge where one turns. Not a run cut where only rules turn that are not
// live, nor all but the first or the last.
fn frame_switch(c: &[u64], from: usize, live: u64, base: u64, runs: &mut Runs) -> Framed
    requires from_in_bounds { (from + 1 + 2 * count_at c.now from ≤ length c.now) × (count_at c.now from ≤ 128)
        × (length runs.old ≡ 579) × (base < 0x1_0000_0000) }
    requires by_index { (k : ℕ) → k < count_at c.now from
        → (0 < (cut_at c.now from k).code) × ((cut_at c.now from k).code < 0x1_0000_0000) }
    ensures { (runs_in runs.new result.count ≡ framed_from base live 0 0 (cuts_in c.now from))
        × (result.names ≡ length (name_runs base (runs_in runs.new result.count)))
        × (result.count ≤ 193) × (length runs.new ≡ 579) }
{
    let count = c[from] as usize;
    let mut framed = Framed { count: 0, names: 0 };
    let mut start: u64 = 0;
    let mut set: u64 = 0;
    for k in 0..count {
        let turned = c[from + 2 + 2 * k] & live;
        if turned != 0 {
            let code = c[from + 1 + 2 * k];
            framed = end_run(runs, framed, base, start, code, set);
            set ^= turned;
            start = code;
        }
    }
    let names = framed.names;
    let last = start.max(base);
    let end = gauge_first(last + 0xffff);
    let all = put_gap(runs, framed.count, last, end);
    Framed { count: all, names }
}

// The code of the first number: from it on all codes of a gauge are in runs, whose pairs are cases.
const BASE: u64 = 0x300_0000;

// Cuts a switch whose test has the part that begins there, for the live rules: the runs that make its cases are left in `runs`.
// Those of symbols and compounds are cases by themselves. Not a run cut where only rules turn that are not live, nor numbers in a
// case by themselves alone.
pub fn cut_switch(c: &[u64], from: usize, live: u64, runs: &mut Runs) -> Framed
    requires from_in_bounds { (from + 1 + 2 * count_at c.now from ≤ length c.now) × (count_at c.now from ≤ 128)
        × (length runs.old ≡ 579) }
    requires by_index { (k : ℕ) → k < count_at c.now from
        → (0 < (cut_at c.now from k).code) × ((cut_at c.now from k).code < 0x1_0000_0000) }
    ensures { (case_runs result.names (runs_in runs.new result.count)
        ≡ switch_runs live (cuts_in c.now from))
        × (length (switch_runs live (cuts_in c.now from)) ≤ 18721)
        × (result.names ≤ result.count) × (result.count ≤ 193) × (length runs.new ≡ 579) }
{
    frame_switch(c, from, live, BASE, runs)
}

// Where the runs on the gauge of the k-th run end, of so many. Not behind a run on another gauge, nor before one on this.
pub fn gauge_end(runs: &Runs, k: usize, count: usize) -> usize
    requires { (k < count) × (count ≤ 193) × (length runs.now ≡ 579) }
    ensures { GaugeUpTo runs.now count k result }
{
    let gauge = runs[3 * k] / 0x1_0000;
    for end in k + 1..count {
        if runs[3 * end] / 0x1_0000 != gauge {
            return end;
        }
    }
    count
}

// How many cases the runs of a switch make. Not one for each run where there are pairs, nor a pair of runs on two gauges.
pub fn case_count(runs: &Runs, framed: Framed) -> usize
    requires { (framed.names ≤ framed.count) × (framed.count ≤ 193) × (length runs.now ≡ 579) }
    ensures { result ≡ length (case_runs framed.names (runs_in runs.now framed.count)) }
{
    let mut cases = framed.names;
    let mut first = framed.names;
    while first < framed.count {
        let end = gauge_end(runs, first, framed.count);
        let n = end - first;
        cases += n * (n + 1) / 2;
        first = end;
    }
    cases
}
