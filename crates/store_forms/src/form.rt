/// An atom by its number, and how often it is taken.
#[derive(Clone, Copy)]
pub struct IdPart {
    pub atom: usize,
    pub times: i128,
}

/// A sum of parts in the order of their atoms, and a constant.
#[derive(Drop)]
pub struct IdForm {
    pub parts: Vec<IdPart>,
    pub constant: i128,
}
