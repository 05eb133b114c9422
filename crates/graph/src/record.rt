// The record of a node or a case that the input begins with: question 22.
ghost use Rattle.std.specs.Prelude.{◌≡◌};
ghost use Rattle.graph.specs.views.NodeRecord.{node_head, case_head};

use crate::{CaseRecord, Leaf, NodeRecord};
use records::{Refusal, wide};

// The node record that the input begins with. A reader that takes a switch's neither for its unknown, the low byte of a field
// before the high one, or the kind of a case for a node's, is none.
pub fn node_head(s: &[u8]) -> Result<NodeRecord, Refusal>
    ensures { result ≡ node_head s.now }
{
    let [kind, fields @ ..] = s else {
        return Err(Refusal::NotANode);
    };
    match (*kind, fields) {
        (0x40, _) => Ok(NodeRecord::End(Leaf::Fail)),
        (0x41, _) => Ok(NodeRecord::End(Leaf::Suspend)),
        (0x42, [rule, ..]) => Ok(NodeRecord::End(Leaf::Execute(*rule))),
        (0x43, [a, b, c, d, e, f, g, h, ..]) => Ok(NodeRecord::Switch(
            wide(*a, *b),
            wide(*c, *d),
            wide(*e, *f),
            wide(*g, *h),
        )),
        (0x47, [a, b, c, d, e, f, g, h, ..]) => Ok(NodeRecord::Pair(
            wide(*a, *b),
            wide(*c, *d),
            wide(*e, *f),
            wide(*g, *h),
        )),
        (0x42 | 0x43 | 0x47, _) | (0..=0x3f | 0x44..=0x46 | 0x48..=255, _) => Err(
            Refusal::NotANode,
        ),
    }
}

// The case record that the input begins with. A reader that takes a low for a high, or a node's kind for a case's, is none.
pub fn case_head(s: &[u8]) -> Result<CaseRecord, Refusal>
    ensures { result ≡ case_head s.now }
{
    let [kind, fields @ ..] = s else {
        return Err(Refusal::NotANode);
    };
    match (*kind, fields) {
        (0x44, [a, b, c, d, e, f, ..]) => Ok(CaseRecord::Symbols(
            wide(*a, *b),
            wide(*c, *d),
            wide(*e, *f),
        )),
        (0x45, [a, b, arity, c, d, ..]) => Ok(CaseRecord::Compound(
            wide(*a, *b),
            *arity,
            wide(*c, *d),
        )),
        (0x46, [gauge, a, b, c, d, e, f, ..]) => Ok(CaseRecord::Numbers(
            wide(*a, *b),
            wide(*c, *d),
            wide(*e, *f),
            *gauge,
        )),
        (0x44..=0x46, _) | (0..=0x43 | 0x47..=255, _) => Err(Refusal::NotANode),
    }
}
