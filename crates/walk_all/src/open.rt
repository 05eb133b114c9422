// The sheet and the graph that many pieces are walked with: read and checked once.
ghost use Rattle.std.specs.Prelude.{◌≡◌, length, replicate};
ghost use Rattle.walk_all.specs.views.Known.{OpenedAs};

use graph_check::index_graph;
use leaves::begins::rule_begins;
use records::Refusal;
use rule_masks::kept::keep_tests;
use sheet_tests::read_tests;
use tables::Tables;
use walk::Sizes;

// The sheet's questions, then 21 to 25: where each node begins, and the tables with the sheet's tests and where its rules begin.
// Not a graph accepted for another sheet, nor 21 where the sheet is refused.
pub fn open_graph(
    sheet: &[u8],
    graph: &[u8],
    starts: &mut [u32; 1024],
    notes: &mut [u64; 680],
    kept: &mut Tables,
) -> Result<Sizes, Refusal>
    requires { (length starts.old ≡ 1024) × (length notes.old ≡ 680) × (kept.old ≡ replicate 324 0) }
    ensures { OpenedAs sheet.now graph.now starts.new kept.new result
        × (length notes.new ≡ 680) }
{
    let mut words = [0u64; 11];
    let mut codes = [0u32; 65];
    let tests = read_tests(sheet, &mut words, &mut codes)?;
    let arity = tests.arity;
    let rules = tests.rules;
    let pairs = tests.pairs;
    let nodes = index_graph(graph, &words, &codes, pairs, arity, rules, starts)?;
    keep_tests(&words, &codes, pairs, kept);
    rule_begins(&sheet[3..], arity as usize, rules, notes, kept);
    Ok(Sizes {
        arity,
        rules,
        pairs,
        nodes,
    })
}
