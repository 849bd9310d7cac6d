/// What may stand next while a constant is read, token by token.
#[derive(Clone, Copy, Debug, PartialEq, Eq)]
pub enum Due {
    /// A constant.
    Constant,
    /// A constant, or the end of the list.
    Member,
    /// The digits behind a minus.
    Digits,
    /// The bracket of the fields of a record.
    Fields,
    /// Behind the word of a sequence: the type of its elements, or their bracket.
    Elements,
    /// A type.
    Written,
    /// The square bracket behind the word of a sequence's type.
    Square,
    /// What stands behind a type.
    BehindType,
    /// The bracket of the elements behind their type.
    Listed,
    /// What stands behind a constant.
    Behind,
}

/// What may stand next, within so many open lists, and within so many square brackets of the type of elements.
#[derive(Clone, Copy, Debug, PartialEq, Eq)]
pub struct State {
    pub due: Due,
    pub lists: u64,
    pub squares: u64,
}
