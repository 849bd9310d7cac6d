ghost use Rattle.std.specs.Prelude.{◌≡◌, ◌<◌, length, true, IfOk};
ghost use Rattle.term_store.specs.Store.{tree_at};
ghost use Rattle.store_reads.specs.Written.{reads_written};
ghost use Rattle.store_alternatives.specs.ReadCases.{IsWrittenAs, IsReadAt};

use crate::NoMemory;
use slang_values::Binary;
use sqlite_items::Items;
use std::alloc::Global;
use term_nodes::NodeShape;
use term_store::TermStore;
use term_trees::Sort;

/// The parts of a sequence that is written out.
#[derive(Drop)]
pub enum Written {
    /// The sequence, the place and the new element.
    Updated(usize, usize, usize),
    /// The sequence and the last element.
    Appended(usize, usize),
    /// The sort of the elements, and the elements.
    Listed(Sort, Items<usize>),
    Other,
}

/// The sequence and the place of a read.
#[derive(Clone, Copy)]
pub struct IdRead {
    pub sequence: usize,
    pub place: usize,
}

/// A list of elements.
fn listed(alloc: Global, sort: &Sort, elements: &[usize]) -> Result<Written, NoMemory>
    ensures { IfOk result (λ w. w ≡ Written.Listed sort.now elements.now) }
{
    let (sort, elements) = owned_results::both(
        sort.copy(alloc),
        Items::from_slice(alloc, elements),
    )?;
    Ok(Written::Listed(sort, elements))
}

/// How a sequence is written out.
pub fn how_written(alloc: Global, store: &TermStore, a: usize) -> Result<Written, NoMemory>
    requires { a < length store.now }
    ensures { IfOk result (λ w. IsWrittenAs store.now (tree_at store.now a) w) }
{
    match store.view(a).shape() {
        NodeShape::Update(s, i, v) => Ok(Written::Updated(s, i, v)),
        NodeShape::Binary(op, s, v) => match op {
            Binary::Append => Ok(Written::Appended(s, v)),
            Binary::Add | Binary::Sub | Binary::Mul | Binary::Div | Binary::Rem | Binary::And => Ok(
                Written::Other,
            ),
            Binary::Or | Binary::Imply | Binary::Eq | Binary::Lt | Binary::Le | Binary::Read => Ok(
                Written::Other,
            ),
        },
        NodeShape::Sequence(sort, elements) => listed(alloc, sort, elements),
        NodeShape::Literal(_) | NodeShape::Truth(_) | NodeShape::Symbol(_) | NodeShape::Bound(_) =>
            Ok(Written::Other),
        NodeShape::Unary(_, _) | NodeShape::Quantified(_, _, _, _) | NodeShape::Record(_, _) => Ok(
            Written::Other,
        ),
    }
}

/// The parts of a read of what is written out.
pub fn parts_of_read(store: &TermStore, id: usize) -> IdRead
    requires within { id < length store.now }
    requires read { reads_written (tree_at store.now id) ≡ true }
    ensures { IsReadAt store.now (tree_at store.now id) result }
{
    match store.view(id).shape() {
        NodeShape::Binary(_, sequence, place) => IdRead { sequence, place },
        _ => IdRead {
            sequence: id,
            place: id,
        },
    }
}
