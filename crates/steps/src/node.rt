// What happens at a node, by its record and the cells of a piece.
ghost use Rattle.std.specs.Prelude.{◌<◌, ◌≡◌, [], Ok, drop};
ghost use Rattle.pairs.specs.views.KeptPairs.{pair_code};
ghost use Rattle.outcomes.specs.views.Look.{look};
ghost use Rattle.outcomes.specs.views.CompareCells.{Narrow};
ghost use Rattle.outcomes.specs.views.CellOutcome.{pair_cells};
ghost use Rattle.decision.specs.Key.{fail_node};
ghost use Rattle.decision.specs.Node.{end};
ghost use Rattle.graph.specs.ReadGraph.{read_cases, read_record};
ghost use Rattle.graph.specs.views.Rewriting.{read_or};
ghost use Rattle.number_search.specs.views.NumberRows.{CasesStand};
ghost use Rattle.steps.specs.views.CodeSteps.{run_step, runs_step, step_made, node_step, NodeStands};

use crate::Step;
use crate::cases::find_case;
use codes::{UNKNOWN, high_of, low_of};
use graph::{NodeRecord, SWITCH_BYTES, node_head};
use outcomes::{TestOutcome, look, pair_outcome};
use piece::Cells;
use records::Refusal;

// A test as one number: the places of a pair, or one place twice.
fn test_code(p: u16, q: u16) -> u32
    ensures { result ≡ pair_code p q }
{
    (p as u32) * 0x1_0000 + (q as u32)
}

// The step at a switch, whose cases, so many, begin at a position of the graph: run 0 says that the piece lacks the place.
fn switch_step(
    graph: &[u8],
    start: usize,
    count: u16,
    tested: u16,
    neither: u16,
    unknown: u16,
    cells: &Cells,
) -> Result<Step, Refusal>
    requires { CasesStand graph.now start count × (tested < 680) }
    ensures { result
        ≡ Ok (step_made (pair_code tested tested)
        (run_step (read_or [] (read_cases count (drop start graph.now))) neither unknown
        (look cells.now tested))) }
{
    let run = look(cells, tested as usize);
    if run == 0 {
        return Ok(Step::NoWay);
    }
    let test = test_code(tested, tested);
    if run == UNKNOWN {
        return Ok(Step::GoTo(unknown, test));
    }
    let node = find_case(graph, start, count, low_of(run), high_of(run), neither)?;
    Ok(Step::GoTo(node, test))
}

// The step at a pair: by differ only where its test is contradicted, and no way where a place is lacking.
fn pair_step(cells: &Cells, p: u16, q: u16, differ: u16, other: u16) -> Step
    requires { (p < 680) × (q < 680) × Narrow cells.now }
    ensures { result
        ≡ step_made (pair_code p q)
        (runs_step differ other (look cells.now p) (look cells.now q)
        (pair_cells cells.now p q)) }
{
    if look(cells, p as usize) == 0 {
        return Step::NoWay;
    }
    if look(cells, q as usize) == 0 {
        return Step::NoWay;
    }
    let test = test_code(p, q);
    match pair_outcome(cells, p as usize, q as usize) {
        TestOutcome::Holds => Step::GoTo(other, test),
        TestOutcome::NotKnown => Step::GoTo(other, test),
        TestOutcome::Contradicted => Step::GoTo(differ, test),
    }
}

// The step at the node whose record, which is whole, begins at a position of the graph. Not by neither where the place is
// unknown, nor by other where a place is lacking, nor with the test of another node.
pub fn step_at(graph: &[u8], at: usize, cells: &Cells) -> Result<Step, Refusal>
    requires { NodeStands graph.now at × Narrow cells.now }
    ensures { result ≡ Ok (node_step cells.now (read_or (end fail_node) (read_record (drop at graph.now)))) }
{
    let node = node_head(&graph[at..])?;
    match node {
        NodeRecord::End(leaf) => Ok(Step::Stop(leaf)),
        NodeRecord::Switch(tested, count, neither, unknown) => {
            switch_step(
                graph,
                at + SWITCH_BYTES,
                count,
                tested,
                neither,
                unknown,
                cells,
            )
        }
        NodeRecord::Pair(p, q, differ, other) => Ok(pair_step(cells, p, q, differ, other)),
    }
}
