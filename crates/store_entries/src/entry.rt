use store_forms::IdForm;

/// What was found of a term.
#[derive(Drop)]
pub enum Entry {
    Form(IdForm),
    /// The form of the term or of one of its parts has a number beyond 2^60.
    Wide,
}
