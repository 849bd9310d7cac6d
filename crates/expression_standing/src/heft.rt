ghost use Rattle.std.specs.Prelude.{◌≤◌};

/// What an expression adds to the weights of a text, and how much it leaves counted there. No number goes beyond one more
/// than a text may weigh.
#[derive(Clone, Copy)]
pub struct Heft {
    pub peak: u16,
    pub count: u16,
    ghost peak_within: { peak ≤ 201 },
    ghost count_within: { count ≤ 201 },
}
