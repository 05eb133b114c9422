// Read records written again: every node goes through the reader and the writer.
ghost use Rattle.std.specs.Prelude.{◌+◌, ◌≤◌, ◌≡◌, [], Ok, length, drop};
ghost use Rattle.records.specs.Writing.{splice};
ghost use Rattle.decision.specs.Key.{fail_node};
ghost use Rattle.decision.specs.Node.{end};
ghost use Rattle.decision.specs.GraphBytes.{cases_bytes, node_bytes, nodes_bytes};
ghost use Rattle.graph.specs.ReadGraph.{read_cases, read_record};
ghost use Rattle.graph.specs.views.Rewriting.{IsTook, read_or, read_records};

use graph::{NodeRecord, case_head, node_head};
use node_writing::{put_case, put_node};
use records::Refusal;

// So many cases from a position of the graph to the same of the buffer, and the position behind them. Not one case short, nor a
// byte changed in front of them or behind.
fn copy_cases(s: &[u8], buf: &mut [u8], start: usize, count: u16) -> Result<usize, Refusal>
    requires { (start ≤ length s.now) × (length s.now ≤ length buf.old) × IsTook (read_cases count (drop start s.now)) }
    ensures { (result ≡ Ok (start + length (cases_bytes (read_or [] (read_cases count (drop start s.now))))))
        × (buf.new
        ≡ splice buf.old start
        (cases_bytes (read_or [] (read_cases count (drop start s.now))))) }
{
    let mut at = start;
    for _ in 0..count {
        let c = case_head(&s[at..])?;
        at = put_case(buf, at, c);
    }
    Ok(at)
}

// A node from a position of the graph to the same of the buffer, and the position behind it. Not a switch without its cases, nor a
// byte changed in front of it or behind.
fn copy_node(s: &[u8], buf: &mut [u8], start: usize) -> Result<usize, Refusal>
    requires { (start ≤ length s.now) × (length s.now ≤ length buf.old) × IsTook (read_record (drop start s.now)) }
    ensures { (result ≡ Ok (start + length (node_bytes (read_or (end fail_node) (read_record (drop start s.now))))))
        × (buf.new
        ≡ splice buf.old start
        (node_bytes (read_or (end fail_node) (read_record (drop start s.now))))) }
{
    let node = node_head(&s[start..])?;
    let at = put_node(buf, start, node);
    match node {
        NodeRecord::End(_) => Ok(at),
        NodeRecord::Switch(_, count, _, _) => copy_cases(s, buf, at, count),
        NodeRecord::Pair(_, _, _, _) => Ok(at),
    }
}

// So many nodes from a position of the graph to the same of the buffer, and the position behind them. Not one node short, nor a
// byte changed in front of them or behind.
pub fn copy_nodes(s: &[u8], buf: &mut [u8], start: usize, count: u16) -> Result<usize, Refusal>
    requires { (start ≤ length s.now)
        × (length s.now ≤ length buf.old)
        × IsTook (read_records count (drop start s.now)) }
    ensures { (result ≡ Ok (start + length (nodes_bytes (read_or [] (read_records count (drop start s.now))))))
        × (buf.new
        ≡ splice buf.old start
        (nodes_bytes (read_or [] (read_records count (drop start s.now))))) }
{
    let mut at = start;
    for _ in 0..count {
        at = copy_node(s, buf, at)?;
    }
    Ok(at)
}
