use crate::text::Text;

/// A line and a column of a text, both from 1. Columns count characters.
#[derive(Clone, Copy, Debug, PartialEq, Eq)]
pub struct Place {
    pub line: u32,
    pub col: u32,
}

/// What is wrong with a text: a code, and the place that it is said of.
#[derive(Clone, Copy, Debug, PartialEq, Eq)]
pub struct Fault {
    pub code: u8,
    pub place: Place,
}

/// What is wrong with the text of a file.
#[derive(Debug, Drop)]
pub struct FileFault {
    pub file: Text,
    pub fault: Fault,
}
