ghost use Rattle.std.specs.Prelude.{◌≡◌, [], ◌∷◌, IfOk, OnOk, length};
ghost use Rattle.typed_names.specs.Nodes.{with_nodes};

use crate::NoMemory;
use lk_programs::{NodeNo, NodePlace};
use slang_tree::Place;
use sqlite_items::Items;
use std::alloc::AllocError;

/// The nodes of the text so far, and the number of the file that goes on.
#[derive(Drop)]
pub struct Nodes {
    pub file: u32,
    pub places: Items<NodePlace>,
}

impl Nodes {
    /// One node more, at a place of the file.
    pub fn add(&mut self, place: Place) -> Result<NodeNo, NoMemory>
        ensures number { IfOk result (λ node. node.0 ≡ length self.old.places) }
        ensures added { OnOk result (self.new ≡ with_nodes self.old (place ∷ [])) }
    {
        match u32::try_from(self.places.len()) {
            Err(_) => Err(AllocError),
            Ok(number) => {
                self.places.push(NodePlace {
                    file: self.file,
                    place,
                })?;
                Ok(NodeNo(number))
            }
        }
    }
}
