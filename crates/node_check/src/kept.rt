// The sheet's tests as they are kept: a set of places in words of 64 bits, and the codes of pairs.
ghost use Rattle.std.specs.Prelude.{◌≤◌, ◌≡◌, length};
ghost use Rattle.sheet_tests.specs.views.TestedPlaces.{has_place};
ghost use Rattle.node_check.specs.views.CheckNode.{has_pair};

// Is the place in the set? Not the place with the same bit in another word.
pub fn has_place(words: &[u64; 11], place: u16) -> bool
    requires { length words.now ≡ 11 }
    ensures { result ≡ has_place words.now place }
{
    let word = (place / 64) as usize;
    if 11 <= word {
        return false;
    }
    masks::has(words[word], (place % 64) as usize)
}

// Is the pair among the first so many codes? Not a pair that was left behind them.
pub fn has_pair(codes: &[u32; 65], count: usize, p: u16, q: u16) -> bool
    requires { (count ≤ 65) × (length codes.now ≡ 65) }
    ensures { result ≡ has_pair codes.now count p q }
{
    let code = (p as u32) * 0x10000 + (q as u32);
    codes[..count].contains(&code)
}
