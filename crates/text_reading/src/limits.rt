/// The limits of what is read.
#[derive(Clone, Copy, Debug, PartialEq, Eq)]
pub struct Limits {
    /// The bytes of a text.
    pub bytes: u32,
    /// The bytes of one line, without its newline.
    pub line: u32,
}

/// The limits of the source.
pub const LIMITS: Limits = Limits {
    bytes: 67_108_864,
    line: 1_048_576,
};
