use crate::measure::Measure;
use term_nodes::Node;

/// One node of a store, with how large its tree is.
#[derive(Drop)]
pub struct Entry {
    pub node: Node,
    pub measure: Measure,
}
