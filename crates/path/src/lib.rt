// The walk from node to node.
#![tactic(auto)]

ghost use Rattle.std.specs.Prelude.{◌≤◌, ◌≡◌, length};
ghost use Rattle.outcomes.specs.views.CompareCells.{Narrow};
ghost use Rattle.path.specs.views.Following.{cells_end, nodes_at, ended_of, edges_of, Index};

use graph::Leaf;
use piece::Cells;
use records::Refusal;
use steps::Step;
use steps::node::step_at;

// The leaf where following the edges ended, with the edges walked.
#[derive(Clone, Copy)]
pub struct Reached {
    pub leaf: Leaf,
    pub edges: u8,
}

// Follows edges from node 0 to a leaf, and leaves the codes of the tests met, in order, at the front of the list. After 64 edges
// only a leaf is handed back: 26 is asked before 27. How many nodes there are only the contract asks. Not the suspend leaf at the
// first unknown, nor a path without its last test, nor tests of nodes that were not walked.
pub fn follow_path(
    graph: &[u8],
    starts: &[u32; 1024],
    nodes: u16,
    cells: &Cells,
    met: &mut [u32; 64],
) -> Result<Reached, Refusal>
    requires narrow { Narrow cells.now × (length starts.now ≡ 1024) × (length met.old ≡ 64) }
    requires index { Index graph.now starts.now nodes }
    ensures result_after { ended_of met.new result
        ≡ cells_end (nodes_at graph.now starts.now nodes) cells.now }
    ensures met_len { (length met.new ≡ 64) × (edges_of result ≤ 64) }
{
    let mut node: u16 = 0;
    for edges in 0..64u8 {
        let step = step_at(graph, starts[node as usize] as usize, cells)?;
        match step {
            Step::Stop(leaf) => return Ok(Reached { leaf, edges }),
            Step::GoTo(next, test) => {
                met[edges as usize] = test;
                node = next;
            }
            Step::NoWay => return Err(Refusal::PlaceMissing),
        }
    }
    let last = step_at(graph, starts[node as usize] as usize, cells)?;
    match last {
        Step::Stop(leaf) => Ok(Reached { leaf, edges: 64 }),
        Step::GoTo(_, _) => Err(Refusal::TooManyEdges),
        Step::NoWay => Err(Refusal::TooManyEdges),
    }
}
