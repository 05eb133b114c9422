// The keys met so far, each at its node's number, and the search for one along the chain of the keys that have its hash.
#![tactic(auto)]

ghost use Rattle.std.specs.Prelude.{◌≡◌, ◌<◌, ◌≤◌, [], ◌∷◌, ◌++◌, length};
ghost use Rattle.decision.specs.Key.{same_key};
ghost use Rattle.decision.specs.Graph.{most_nodes};
ghost use Rattle.edges.specs.views.VertexKey.{key_with, key_in};
ghost use Rattle.met.specs.views.KeysMet.{key_number, meet, hash_of, key_at, link_at, head_at, count_in, keys_in, Chained};

use edges::Key;

// Room for 1,024 keys with their links, a head for each hash, and the count.
pub type Keys = [u64; 4097];

// How many keys there are. Not the room for keys, nor the number of the last.
pub fn count(t: &Keys) -> usize
    ensures { result ≡ count_in t.now }
{
    t[4096] as usize
}

// Key i. Not its tests as its rules, nor the key after it.
pub fn key_at(t: &Keys, i: usize) -> Key
    requires { i < 1024 }
    ensures { key_in result ≡ key_at t.now i }
{
    Key {
        live: t[i],
        pending: t[1024 + i],
    }
}

// The chain that a key is on. Not one behind the heads, nor the same for all keys.
fn hash(live: u64, pending: u64) -> usize
    ensures { (result ≡ hash_of (key_with live pending)) × (result < 1024) }
{
    (live.wrapping_mul(5).wrapping_add(pending) % 1021) as usize
}

// The number after that of the last key on a chain. Not that key's own number, nor that of the first.
fn head(t: &Keys, h: usize) -> usize
    requires { h < 1024 }
    ensures { result ≡ head_at t.now h }
{
    t[3072 + h] as usize
}

// The same of the key before key i on its chain. Not of the key after it, nor of the one before it in the array.
fn link(t: &Keys, i: usize) -> usize
    requires { i < 1024 }
    ensures { result ≡ link_at t.now i }
{
    t[2048 + i] as usize
}

// Is key i this one? Not where only the live rules are the same, nor where only the pending tests are.
fn is_at(t: &Keys, i: usize, live: u64, pending: u64) -> bool
    requires { i < 1024 }
    ensures { result ≡ same_key (key_with live pending) (key_at t.now i) }
{
    live == t[i] && pending == t[1024 + i]
}

// The number of a key, the count where it is not among them. Not the head of its chain, whatever key that is, nor the number of a
// key that stands behind the count.
pub fn find(t: &Keys, live: u64, pending: u64) -> usize
    requires { Chained t.now }
    ensures { result ≡ key_number (keys_in t.now) (key_with live pending) }
{
    let n = count(t);
    let h = hash(live, pending);
    let mut after = head(t, h);
    let number = 'search: loop {
        if after == 0 {
            break 'search n;
        }
        let i = after - 1;
        if is_at(t, i, live, pending) {
            break 'search i;
        }
        after = link(t, i);
    };
    number
}

// One key more, behind the others and at the head of its chain. Not in the place of the key that was there, nor off every chain.
pub fn add(t: &mut Keys, live: u64, pending: u64)
    requires { Chained t.old × (count_in t.old < 1024)
        × (key_number (keys_in t.old) (key_with live pending) ≡ count_in t.old) }
    ensures { (keys_in t.new ≡ keys_in t.old ++ (key_with live pending ∷ [])) × Chained t.new }
{
    let n = count(t);
    let h = hash(live, pending);
    let next = t[3072 + h];
    t[n] = live;
    t[1024 + n] = pending;
    t[2048 + n] = next;
    t[3072 + h] = n as u64 + 1;
    t[4096] = n as u64 + 1;
}

// The number of a key's node: a key met before leads to the node that already has it, and another is added where there is room;
// 1,024 where there is none. Not a new node where the key was met before, nor 1,024 where a full array has the key.
pub fn meet(t: &mut Keys, key: Key) -> usize
    requires { Chained t.old }
    ensures t_after { (result < 1024 → keys_in t.new ≡ meet (keys_in t.old) (key_in key))
        × (1024 ≤ result → most_nodes < length (meet (keys_in t.old) (key_in key))) }
    ensures chained { Chained t.new }
{
    let number = find(t, key.live, key.pending);
    let n = count(t);
    if number < n {
        return number;
    }
    if 1024 <= n {
        return number;
    }
    add(t, key.live, key.pending);
    number
}
