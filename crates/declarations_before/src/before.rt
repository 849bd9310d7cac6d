ghost use Rattle.std.specs.Prelude.{[]};
ghost use Rattle.declarations_before.specs.IsBefore.{IsBefore};

use crate::counting::Counts;
use name_maps::NameMap;
use std::alloc::Global;

/// What stands before a declaration: the names that were declared, and how many records and methods.
#[derive(Drop)]
pub struct Before {
    pub names: NameMap<()>,
    pub counts: Counts,
}

impl Before {
    /// Nothing stands before the first declaration.
    pub fn nothing(alloc: Global) -> Before
        ensures { IsBefore result [] }
    {
        Before {
            names: NameMap::new(alloc),
            counts: Counts {
                records: 0,
                methods: 0,
            },
        }
    }
}
