// The parents of all places as text, counted out by the numbering rule: from each argument to its children, and on to theirs. The
// constant table is not read.
#![tactic(auto)]

ghost use Rattle.std.specs.Prelude.{◌+◌, ◌-◌, ◌≤◌, ◌≡◌, length};
ghost use Rattle.places.specs.Numbering.{stride};
ghost use Rattle.records.specs.Writing.{splice};
ghost use Rattle.parent_lines.specs.ParentLines.{place_line, lines_from, parent_lines};
ghost use Rattle.parent_lines.specs.views.Counting.{CountedTo};

// The text.
pub type ParentText = [u8; 5210];

// The line of a place and its parent, and the position behind it.
fn put_line(buf: &mut [u8], at: usize, place: usize, up: usize) -> usize
    requires { at + length (place_line place up) ≤ length buf.old }
    ensures { (result ≡ at + length (place_line place up))
        × (buf.new ≡ splice buf.old at (place_line place up)) }
{
    let parent = digits::put_number(buf, at, place as u64, b' ');
    digits::put_number(buf, parent, up as u64, b'\n')
}

// The lines of place p, which is at depth d and below place up, and of the places below it, and the position behind them.
fn put_place(buf: &mut [u8], at: usize, d: usize, p: usize, up: usize) -> usize
    requires { CountedTo d p up × (at + length (lines_from p (stride (5 - d))) ≤ length buf.old) }
    ensures { (result ≡ at + length (lines_from p (stride (5 - d))))
        × (buf.new ≡ splice buf.old at (lines_from p (stride (5 - d)))) }
{
    let mut end = put_line(buf, at, p, up);
    if 3 < d {
        return end;
    }
    for j in 1..=4 {
        let below = d + 1;
        let child = places::child(d, p, j);
        end = put_place(buf, end, below, child, p);
    }
    end
}

// The 680 lines, 5,210 bytes. Not an argument below itself or below 0, nor a child below its sister.
pub fn put_parents(buf: &mut ParentText)
    ensures { (buf.new ≡ parent_lines) × (length buf.new ≡ 5210) }
{
    *buf = [0; 5210];
    let mut end: usize = 0;
    for a in 1..=8 {
        let p = places::argument(a);
        end = put_place(buf, end, 1, p, 680);
    }
}
