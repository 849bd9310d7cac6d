use code_paths::Inside;
use expression_values::Env;
use sqlite_items::Items;

/// What is to be done in a run, as places in the code of the method that it belongs to.
#[derive(Drop)]
pub enum Frame {
    /// The statements of a block from a number on.
    Block {
        path: Items<Inside>,
        next: u32,
    },
    /// The loop that is the statement of that number in a block, which is to test its invariants, for the first time or again.
    Again {
        first: bool,
        path: Items<Inside>,
        statement: u32,
    },
    /// Such a loop, whose own test is due.
    AtTest {
        path: Items<Inside>,
        statement: u32,
    },
    /// The end of a called method. Its caller is the method of that number, and had these values.
    Back {
        method: u32,
        caller: Env,
        target: Option<u32>,
    },
}

/// Where a run is: the innermost method by its number, its values, and what is to be done, of which the last comes next.
#[derive(Drop)]
pub struct Run {
    pub method: u32,
    pub env: Env,
    pub frames: Items<Frame>,
}

/// What became of one step of a run: it goes on, it waits for a turn, or it has ended.
#[derive(Clone, Copy, Debug, PartialEq, Eq)]
pub enum Turn {
    GoesOn,
    Waits,
    Ended,
}
