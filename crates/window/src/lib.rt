// A window: the counts of the last 1,000 answers fed to it, in memory that the caller lends. A feed and a question take the same
// few steps whatever was fed before: nothing is shifted, nothing counted again. The memory may hold anything; all zero is fresh.
#![tactic(auto)]

ghost use Rattle.std.specs.Prelude.{◌≡◌, ◌<◌, ◌≤◌, true, false, if◌then◌else◌, nat_eq, nat_le};
ghost use Rattle.window.specs.LastThousand.{given, is_taken};
ghost use Rattle.window.specs.Cells.{fresh_cells, code_of, answer_in, place_of, place_after, moved, moved_at};
ghost use Rattle.window.specs.Cells.{counted, with_room, stored, fed_cells, commits_in};
ghost use Rattle.window.specs.Handed.{fed_of, words_in};

use records::Refusal;

// Cell 0: where in the ring the next answer goes. Cell 1: how many it holds. Cells 2 to 5: the counts of commit, execute, suspend
// and fail. Cells 6 to 69: the commits of rules 1 to 64. Cells 70 to 1,069: the ring, a word and a rule in each.
pub type Window = [u16; 1070];

// The counts of the four words.
#[derive(Clone, Copy)]
pub struct WordCounts {
    pub commit: u16,
    pub execute: u16,
    pub suspend: u16,
    pub fail: u16,
}

// Makes a window fresh.
pub fn fresh(window: &mut Window)
    ensures { window.new ≡ fresh_cells }
{
    *window = [0; 1070];
}

// Commit and execute with a rule 1 to 64, suspend and fail with rule 0, by the least rule of the word, so that no word takes longer
// than another. Not rule 65, nor a fifth word.
fn is_taken(word: u8, rule: u8) -> bool
    ensures { result ≡ is_taken (given word rule) }
{
    if word < 1 || 4 < word {
        return false;
    }
    let least = (word <= 2) as u8;
    least <= rule && rule <= 64 * least
}

// A cell of the ring: the word in the high byte, the rule in the low. Not the rule above the word.
fn code_of(word: u8, rule: u8) -> u16
    ensures { result ≡ code_of (given word rule) }
{
    word as u16 * 256 + rule as u16
}

// The place in the ring that a cell holds, 0 for a number that is none.
fn place_of(cell: u16) -> usize
    ensures { (result ≡ place_of cell) × (result < 1000) }
{
    if cell < 1000 {
        return cell as usize;
    }
    0
}

// The place after one: the first after the last. Not a place that the ring lacks.
fn place_after(next: usize) -> u16
    requires { next < 1000 }
    ensures { result ≡ place_after next }
{
    if next < 999 {
        return next as u16 + 1;
    }
    0
}

// A count when so many enter or leave.
fn moved_count(count: u16, n: u16, enters: bool) -> u16
    ensures { result ≡ moved enters n count }
{
    if enters {
        return std::num::wrapping_add_u16(count, n);
    }
    std::num::wrapping_sub_u16(count, n)
}

// Moves the count in cell i.
fn move_at(window: &mut Window, i: usize, n: u16, enters: bool)
    requires { i < 1070 }
    ensures { window.new ≡ moved_at enters n i window.old }
{
    window[i] = moved_count(window[i], n, enters);
}

// How many commits an answer of this word is.
fn commits_of(word: u8) -> u16
    ensures { result ≡ (if nat_eq word 1 then 1 else 0) }
{
    if word == 1 {
        return 1;
    }
    0
}

// Moves the counts of an answer that enters or leaves. Not a rule's where it is no commit.
fn count(window: &mut Window, word: u8, rule: u8, enters: bool)
    ensures { window.new ≡ counted enters (given word rule) window.old }
{
    move_at(window, 1 + word as usize, 1, enters);
    move_at(window, 5 + rule as usize, commits_of(word), enters);
}

// Counts out the answer that a cell of the ring holds.
fn count_out(window: &mut Window, cell: u16)
    ensures { window.new ≡ counted false (answer_in cell) window.old }
{
    count(window, (cell / 256) as u8, (cell % 256) as u8, false);
}

// Makes room for one more answer. Not a full ring that holds one more, nor an answer that leaves before it is full.
fn make_room(window: &mut Window, next: usize)
    requires { next < 1000 }
    ensures { window.new ≡ with_room next window.old }
{
    let held = window[1];
    if held < 1000 {
        window[1] = held + 1;
        return;
    }
    let oldest = window[70 + next];
    count_out(window, oldest);
}

// Stores an answer in the ring. Not at the place after `next`.
fn store(window: &mut Window, next: usize, word: u8, rule: u8)
    requires { next < 1000 }
    ensures { window.new ≡ stored next (given word rule) window.old }
{
    window[70 + next] = code_of(word, rule);
    window[0] = place_after(next);
}

// Feeds an answer: its word's number and its rule. Not a cell changed beside a refusal.
pub fn feed(window: &mut Window, word: u8, rule: u8) -> Result<(), Refusal>
    ensures value { result ≡ fed_of (given word rule) }
    ensures window_after { window.new ≡ fed_cells (given word rule) window.old }
{
    if !is_taken(word, rule) {
        return Err(Refusal::NoSuchAnswer);
    }
    let next = place_of(window[0]);
    make_room(window, next);
    store(window, next, word, rule);
    count(window, word, rule, true);
    Ok(())
}

// The counts of the four words.
pub fn words(window: &Window) -> WordCounts
    ensures { result ≡ words_in window.now }
{
    WordCounts {
        commit: window[2],
        execute: window[3],
        suspend: window[4],
        fail: window[5],
    }
}

// The commits of a rule, 0 where it is not 1 to 64. Not the cell behind the last rule's.
pub fn commits(window: &Window, rule: u8) -> u16
    ensures { result ≡ commits_in rule window.now }
{
    if 1 <= rule && rule <= 64 {
        return window[5 + rule as usize];
    }
    0
}
