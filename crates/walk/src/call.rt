// The walk of a piece over a graph, for a sheet.
ghost use Rattle.std.specs.Prelude.{ℕ, ◌≡◌, List, [], length, drop};
ghost use Rattle.sheet.specs.ReadSheet.{read_rules};
ghost use Rattle.accepted.specs.views.AcceptedAs.{AcceptedAs, AcceptedTests};
ghost use Rattle.outcomes.specs.views.CompareCells.{Narrow};
ghost use Rattle.plain.specs.views.ReadAs.{ReadAs};
ghost use Rattle.graph.specs.views.Rewriting.{read_or};
ghost use Rattle.path.specs.views.Following.{cells_end, nodes_at};
ghost use Rattle.rule_masks.specs.views.Kept.{Arrays, listed_tests};
ghost use Rattle.leaves.specs.views.Seeking.{Begins};
ghost use Rattle.walk.specs.views.LeafWalks.{end_walk};
ghost use Rattle.walk.specs.views.Ready.{Ready, SomePiece, Checked};
ghost use Rattle.walk.specs.Walking.{graph_reply, piece_reply, walk_reply, reply_values, walked_values, walked_reading};

use crate::leaf::at_execute;
use crate::{Sizes, Walk};
use graph::Leaf;
use graph_check::index_graph;
use path::follow_path;
use piece::Cells;
use plain::Answer;
use records::Refusal;
use rule_masks::kept::keep_tests;
use tables::Tables;
use waiting::Shape;
use waiting::list::suspend_waits;

// Follows the edges of an accepted graph, and answers at the leaf: a fail waits for nothing, a suspend for the tests met that are
// not known, where a span is met also for those not known for a rule live there.
fn walk_nodes(
    s: &[u8],
    graph: &[u8],
    starts: &[u32; 1024],
    kept: &Tables,
    sizes: Sizes,
    notes: &mut [u64; 680],
    cells: &Cells,
) -> Result<Walk, Refusal>
    requires starts_len { (length starts.now ≡ 1024) × Narrow cells.now × Begins s.now sizes.arity sizes.rules kept.now
        × (length notes.old ≡ 680) }
    requires ready { Ready s.now graph.now starts.now kept.now sizes.arity sizes.rules sizes.nodes }
    ensures result_value { walked_reading result
        ≡ end_walk (read_or [] (read_rules sizes.arity sizes.rules s.now)) (listed_tests kept.now)
        cells.now
        (cells_end (nodes_at graph.now starts.now sizes.nodes) cells.now) }
    ensures notes_len { length notes.new ≡ 680 }
{
    let mut met = [0u32; 64];
    let end = follow_path(graph, starts, sizes.nodes, cells, &mut met)?;
    let edges = end.edges;
    match end.leaf {
        Leaf::Fail => Ok(Walk {
            answer: Answer::Fail,
            edges,
            waits: 0,
        }),
        Leaf::Suspend => {
            let shape = Shape {
                arity: sizes.arity as usize,
                rules: sizes.rules,
            };
            Ok(Walk {
                answer: Answer::Suspend,
                edges,
                waits: suspend_waits(s, shape, &mut met, edges, notes, kept, cells),
            })
        }
        Leaf::Execute(rule) => at_execute(s, rule, edges, kept, sizes, notes, cells),
    }
}

// The walk of a piece that was read, where the sheet's questions and 21 to 25 refuse nothing: 26 and 27 are asked on the way. Not
// an answer where an edge leads on after 64, nor one by another node than that with the number.
pub fn walk_checked(
    sheet: &[u8],
    graph: &[u8],
    starts: &[u32; 1024],
    kept: &Tables,
    sizes: Sizes,
    notes: &mut [u64; 680],
    cells: &Cells,
) -> Result<Walk, Refusal>
    requires starts_len { (length starts.now ≡ 1024) × SomePiece cells.now sizes.arity
        × Begins (drop 3 sheet.now) sizes.arity sizes.rules kept.now × (length notes.old ≡ 680) }
    requires checked { Checked sheet.now graph.now starts.now kept.now sizes.arity sizes.rules sizes.nodes }
    ensures result_value { (t : AcceptedAs sheet.now sizes.arity sizes.rules) (p : List ℕ)
        (k : ReadAs p cells.now sizes.arity)
        → walked_reading result ≡ graph_reply t.sheet graph.now k.piece.terms }
    ensures notes_len { length notes.new ≡ 680 }
{
    walk_nodes(&sheet[3..], graph, starts, kept, sizes, notes, cells)
}

// The walk of a piece that was read over a graph, for an accepted sheet: questions 21 to 25, then 26 and 27 on the way.
fn walk_graph(
    sheet: &[u8],
    graph: &[u8],
    words: &[u64; 11],
    codes: &[u32; 65],
    sizes: Sizes,
    cells: &Cells,
) -> Result<Walk, Refusal>
    requires arrays { Arrays words.now codes.now sizes.pairs × SomePiece cells.now sizes.arity }
    requires accepted_tests { AcceptedTests sheet.now words.now codes.now sizes.arity sizes.rules sizes.pairs }
    ensures { (t : AcceptedTests sheet.now words.now codes.now sizes.arity
        sizes.rules sizes.pairs) (p : List ℕ) (k : ReadAs p cells.now sizes.arity)
        → walked_reading result ≡ graph_reply t.read.sheet graph.now k.piece.terms }
{
    let mut starts = [0u32; 1024];
    let nodes = index_graph(
        graph,
        words,
        codes,
        sizes.pairs,
        sizes.arity,
        sizes.rules,
        &mut starts,
    )?;
    let all = Sizes {
        arity: sizes.arity,
        rules: sizes.rules,
        pairs: sizes.pairs,
        nodes,
    };
    let mut kept = [0u64; 324];
    keep_tests(words, codes, sizes.pairs, &mut kept);
    let mut notes = [0u64; 680];
    walk_checked(sheet, graph, &starts, &kept, all, &mut notes, cells)
}

// The walk of a piece over a graph, for an accepted sheet: the piece's questions, 20, then the graph's.
fn walk_piece(
    sheet: &[u8],
    graph: &[u8],
    piece: &[u8],
    words: &[u64; 11],
    codes: &[u32; 65],
    sizes: Sizes,
) -> Result<Walk, Refusal>
    requires arrays { Arrays words.now codes.now sizes.pairs }
    requires accepted_tests { AcceptedTests sheet.now words.now codes.now sizes.arity sizes.rules sizes.pairs }
    ensures { (t : AcceptedTests sheet.now words.now codes.now sizes.arity
        sizes.rules sizes.pairs)
        → walked_reading result ≡ piece_reply t.read.sheet graph.now piece.now }
{
    let mut cells = [0u64; 680];
    let arity = piece::read_piece(piece, &mut cells)?;
    if arity != sizes.arity {
        return Err(Refusal::AritiesDiffer);
    }
    walk_graph(sheet, graph, words, codes, sizes, &cells)
}

// The walk: the sheet's questions, the piece's, 20, the graph's, then 26 and 27 on the way. Not 20 where the piece itself is
// refused, nor an answer that counts the nodes walked for the edges.
pub fn walk(sheet: &[u8], graph: &[u8], piece: &[u8]) -> Result<Walk, Refusal>
    ensures { walked_values result ≡ reply_values (walk_reply sheet.now graph.now piece.now) }
{
    let mut words = [0u64; 11];
    let mut codes = [0u32; 65];
    let read = sheet_tests::read_tests(sheet, &mut words, &mut codes)?;
    let sizes = Sizes {
        arity: read.arity,
        rules: read.rules,
        pairs: read.pairs,
        nodes: 0,
    };
    walk_piece(sheet, graph, piece, &words, &codes, sizes)
}
