use std::alloc::AllocError;

/// Why an item cannot be passed: a term of it is past a limit, or there is no memory.
#[derive(Clone, Copy, Debug, PartialEq, Eq, Drop)]
pub enum ItemEnd {
    Size,
    NoMemory,
}

impl From<AllocError> for ItemEnd {
    ghost use Rattle.std.specs.Prelude.{◌≡◌};
    ghost use Rattle.step_terms.specs.declared.end.ItemEnd.TheVariants.{NoMemory};

    ghost from_gives = { λ _ e. e ≡ NoMemory };

    fn from(_end: AllocError) -> ItemEnd {
        ItemEnd::NoMemory
    }
}
