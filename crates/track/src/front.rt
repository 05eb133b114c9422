// The places that may follow, as keys: one for each place.
ghost use Rattle.std.specs.Prelude.{ℕ, ◌+◌, ◌*◌, ◌≤◌, ◌<◌, ◌≡◌, length};
ghost use Rattle.places.specs.Numbering.{depth_at};
ghost use Rattle.places.specs.AllParents.{AllParents};
ghost use Rattle.track.specs.views.Front.{position_key, Opened, LeastOf, LeastBelow, Climbed, PutDown};

use places::Parents;

// For each place the least key of those at or below it that may follow, 2 to the power 26 where there is none. A key is a position
// × 1,024 + the place's number.
pub type Keys = [u32; 680];

// The key of a place.
fn key(positions: &[u8], p: usize) -> u32
    requires { (length positions.now ≡ 1360) × (p < 680) }
    ensures { result ≡ position_key positions.now p }
{
    let position = records::wide(positions[2 * p], positions[2 * p + 1]);
    (position as u32) * 1024 + (p as u32)
}

// Gives n places, so many apart, their keys.
// Ruled out: the key of the first of them for all; a key for the place behind the last.
pub fn open_row(positions: &[u8], keys: &mut Keys, from: usize, step: usize, n: usize)
    requires { (length positions.now ≡ 1360) × (length keys.old ≡ 680) × (step ≤ 85)
        × ((i : ℕ) → i < n → from + i * step < 680) }
    ensures { Opened positions.now from step n keys.old keys.new }
{
    for i in 0..n {
        let q = from + i * step;
        keys[q] = key(positions, q);
    }
}

// The least key of n places, so many apart.
// Ruled out: that of the first of them; 0 of none.
pub fn least_row(keys: &Keys, from: usize, step: usize, n: usize) -> u32
    requires { (length keys.now ≡ 680) × (step ≤ 85) × ((i : ℕ) → i < n → from + i * step < 680) }
    ensures { LeastOf keys.now from step n result }
{
    let mut best: u32 = 0x400_0000;
    for i in 0..n {
        best = best.min(keys[from + i * step]);
    }
    best
}

// The least key of the children of place p.
// Ruled out: a key for a place that has none; the key of p itself.
fn least_below(keys: &Keys, p: usize, depth: usize) -> u32
    requires { (length keys.now ≡ 680) × (p < 680) × (depth ≡ depth_at p) }
    ensures { LeastBelow keys.now p result }
{
    if depth == 4 {
        return 0x400_0000;
    }
    least_row(keys, p + 1, places::step(depth), 4)
}

// Finds the least key again for each place at or above p, from p upwards.
// Ruled out: the places above p left as they are; an argument before the places between it and p.
fn climb(parents: &Parents, keys: &mut Keys, p: usize, depth: usize)
    requires { AllParents parents.now × (length keys.old ≡ 680) × (p < 680) × (depth ≡ depth_at p) }
    ensures { Climbed p keys.old keys.new }
{
    let mut q = p;
    let mut d = depth;
    while q < 680 {
        keys[q] = least_below(keys, q, d);
        q = places::parent_in(parents, q);
        d -= 1;
    }
}

// Takes the key of place p away, gives its children theirs, and finds the least again for p and each place above it.
// Ruled out: a key left for p, which would be put down twice; one for the children of another place.
pub fn put_down(positions: &[u8], parents: &Parents, keys: &mut Keys, p: usize)
    requires { (length positions.now ≡ 1360) × AllParents parents.now × (length keys.old ≡ 680) × (p < 680) }
    ensures { PutDown positions.now p keys.old keys.new }
{
    let depth = places::depth(p);
    if depth < 4 {
        open_row(positions, keys, p + 1, places::step(depth), 4);
    }
    climb(parents, keys, p, depth);
}
