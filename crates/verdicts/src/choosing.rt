ghost use Rattle.std.specs.Prelude.{◌≡◌, slice_index_or};
ghost use Rattle.verdicts.specs.Choice.{chosen, no_node, plain_verdict};

use crate::verdict::Verdict;
use lk_programs::{Legs, NodeNo};
use program_trees::Answer;

/// The node beside an item.
fn node_at(nodes: &[NodeNo], item: u32) -> NodeNo
    ensures { result ≡ slice_index_or nodes.now item no_node }
{
    match nodes.get(item as usize) {
        Some(node) => *node,
        None => NodeNo(0),
    }
}

/// The verdict on a method, from one answer for each of its legs: the first that is not Proved, at the node beside its item.
pub fn method_verdict(legs: &Legs, answers: &[Answer]) -> Verdict
    ensures { plain_verdict result ≡ chosen legs.now.nodes answers.now }
{
    let nodes = legs.nodes.as_slice();
    let count = nodes.len().min(answers.len());
    for place in 0..count {
        match answers[place] {
            Answer::Proved => {}
            Answer::Unproved { item, kind, reason } => {
                return Verdict::Unproved {
                    node: node_at(nodes[place].as_slice(), item),
                    kind,
                    reason,
                };
            }
        }
    }
    Verdict::Verified
}
