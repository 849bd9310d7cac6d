ghost use Rattle.std.specs.Prelude.{◌≡◌};
ghost use Rattle.argument_lists.specs.Parts.{parts_of, can_end, IsNextOf};

use lk_claims::Ty;
use lk_programs::FieldTy;

/// The types of the members of a list: all of one, or one for each.
#[derive(Clone, Copy)]
pub enum Parts<'r> {
    Same(&'r Ty),
    Each(&'r [FieldTy]),
}

/// The type of the next member, and those of the ones behind it.
#[derive(Clone, Copy)]
pub struct NextPart<'r> {
    pub ty: &'r Ty,
    pub others: Parts<'r>,
}

impl<'r> Parts<'r> {
    /// Whether the list may end.
    pub fn can_end(self) -> bool
        ensures { result ≡ can_end (parts_of self.entry) }
    {
        match self {
            Parts::Same(_) => true,
            Parts::Each(types) => types.is_empty(),
        }
    }

    /// The type of the next member, where another may come.
    pub fn next(self) -> Option<NextPart<'r>>
        ensures { IsNextOf (parts_of self.entry) result }
    {
        match self {
            Parts::Same(ty) => Some(NextPart {
                ty,
                others: Parts::Same(ty),
            }),
            Parts::Each(types) => match types.split_first() {
                None => None,
                Some((first, others)) => Some(NextPart {
                    ty: &first.ty,
                    others: Parts::Each(others),
                }),
            },
        }
    }
}
