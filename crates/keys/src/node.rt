// What a key's node is (document 01, "Nodes"), off the key alone.
ghost use Rattle.std.specs.Prelude.{◌≡◌, List, ℕ};
ghost use Rattle.edges.specs.views.VertexKey.{key_in};
ghost use Rattle.edges.specs.views.NodeIn.{node_in};
ghost use Rattle.keys.specs.views.Expanded.{kind_node, Below};

use crate::Kind;
use edges::Key;
use graph::Leaf;
use tables::Tables;

// The leaf that a key is, or the test that its node asks. Not execute where two rules are live, nor fail where a test is pending.
pub fn kind_of(s: &Tables, key: Key) -> Kind
    ensures by_index { (c : List ℕ) → node_in s.now c (key_in key) ≡ kind_node s.now c (key_in key) result }
    ensures below { Below 64 result }
{
    if key.live == 0 {
        if key.pending == 0 {
            return Kind::End(Leaf::Fail);
        }
        return Kind::End(Leaf::Suspend);
    }
    if u64::count_ones(key.live) == 1 {
        return Kind::End(Leaf::Execute(u64::trailing_zeros(key.live) as u8 + 1));
    }
    if key.pending == 0 {
        return Kind::End(Leaf::Suspend);
    }
    Kind::Ask(tables::first_asked(s, key.pending))
}
