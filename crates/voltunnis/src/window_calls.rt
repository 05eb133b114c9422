// The calls of a window: the counts of the last 1,000 answers, in memory that the caller lends. A window is an array of fixed
// length and crosses as one plain pointer.
ghost use Rattle.std.specs.Prelude.{◌≡◌};
ghost use Rattle.window.specs.LastThousand.{given, refusal_of};
ghost use Rattle.window.specs.Cells.{fresh_cells, fed_cells, commits_in};
ghost use Rattle.window.specs.Handed.{words_in};
ghost use Rattle.packing.specs.PackedWords.{packed_words};

use packing::numbered;
use packing::windows::{fed_refusal, pack_words};
use window::Window;

// Makes a window fresh: every cell is 0.
#[unsafe(no_mangle)]
pub extern "C" fn vt_window_fresh(window: &mut Window) -> u64
    ensures value { result ≡ 0 }
    ensures window_after { window.new ≡ fresh_cells }
{
    window::fresh(window);
    0
}

// Feeds an answer. Not a cell changed beside a refusal's number.
#[unsafe(no_mangle)]
pub extern "C" fn vt_window_feed(window: &mut Window, word: u8, rule: u8) -> u64
    ensures value { result ≡ refusal_of (given word rule) }
    ensures window_after { window.new ≡ fed_cells (given word rule) window.old }
{
    fed_refusal(numbered(window::feed(window, word, rule)))
}

// The counts of the four words: commit in the lowest 16 bits, then execute, suspend and fail.
#[unsafe(no_mangle)]
pub extern "C" fn vt_window_words(window: &Window) -> u64
    ensures { result ≡ packed_words (words_in window.now) }
{
    pack_words(window::words(window))
}

// The commits of a rule, 0 where it is not 1 to 64.
#[unsafe(no_mangle)]
pub extern "C" fn vt_window_commits(window: &Window, rule: u8) -> u64
    ensures { result ≡ commits_in rule window.now }
{
    window::commits(window, rule) as u64
}
