// Pairs of places, each one number, kept in ascending order: at most 64, and a 65th to say that there are too many.
ghost use Rattle.std.specs.Prelude.{◌≡◌, cond, ◌∷◌, ◌++◌, ◌+◌, ◌≤◌, ltb, length, take, drop};
ghost use Rattle.pairs.specs.views.Slot.{slot, Passed};
ghost use Rattle.pairs.specs.views.PutAt.{PutAt};
ghost use Rattle.pairs.specs.views.KeptPairs.{keep, pairs_in};

use crate::Put;

// Where the code belongs among the first n, of which the first so many are below it.
fn position(codes: &[u32; 65], n: usize, from: usize, code: u32) -> usize
    requires { (from ≤ n) × (n ≤ 64) × (length codes.now ≡ 65) × Passed from code (take n codes.now) }
    ensures { result ≡ slot code (take n codes.now) }
{
    for i in from..n {
        if code <= codes[i] {
            return i;
        }
    }
    n
}

// Puts the code at a place among the first n, and those from there on one place further.
fn insert_at(codes: &mut [u32; 65], n: usize, at: usize, code: u32)
    requires { (at ≤ n) × (n ≤ 64) × (length codes.old ≡ 65) }
    ensures codes_after { take (n + 1) codes.new
        ≡ take at codes.old ++ (code ∷ drop at (take n codes.old)) }
    ensures codes_len { length codes.new ≡ 65 }
{
    codes.copy_within(at..n, at + 1);
    codes[at] = code;
}

// How many of the pairs kept are passed in the search for a code: those passed by the last one, where that is below the code.
fn passed_by(put: Put, code: u32) -> usize
    ensures { result ≡ cond (ltb put.last code) put.next 0 }
{
    if put.last < code { put.next } else { 0 }
}

// Keeps one pair more, if it is not there. Not one more where it is there already, nor the new one behind all others.
pub fn put_pair(codes: &mut [u32; 65], put: Put, code: u32) -> Put
    requires { PutAt codes.old put }
    ensures count_after { pairs_in codes.new result.count ≡ keep code (pairs_in codes.old put.count) }
    ensures put_at { PutAt codes.new result }
{
    if 64 < put.count {
        return put;
    }
    let n = put.count;
    let at = position(codes, n, passed_by(put, code), code);
    if at < n && codes[at] == code {
        return Put {
            count: n,
            next: at + 1,
            last: code,
        };
    }
    insert_at(codes, n, at, code);
    Put {
        count: n + 1,
        next: at + 1,
        last: code,
    }
}
