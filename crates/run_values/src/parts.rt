ghost use Rattle.std.specs.Prelude.{◌≡◌, pos};
ghost use Rattle.slang_values.specs.Value.{number_of, truth_of, size_of};
ghost use Rattle.run_values.specs.Value.{plain_value};

use crate::value::Value;

impl Value {
    /// The number; of a value that is none, 0.
    #[tactic(auto, using(crate::proofs::Values::value_lines))]
    pub fn number(&self) -> i128
        ensures { result ≡ number_of (plain_value self.now) }
    {
        match self {
            Value::Z(z) => *z,
            Value::Unit | Value::B(_) | Value::Seq(_, _) | Value::Rec(_, _) => 0,
        }
    }

    /// The truth value; of a value that is none, F.
    #[tactic(auto, using(crate::proofs::Values::value_lines))]
    pub fn truth(&self) -> bool
        ensures { result ≡ truth_of (plain_value self.now) }
    {
        match self {
            Value::B(b) => *b,
            Value::Unit | Value::Z(_) | Value::Seq(_, _) | Value::Rec(_, _) => false,
        }
    }

    /// The count of the elements of a sequence; of a value that is none, 0.
    #[tactic(auto, using(crate::proofs::Values::value_lines, crate::proofs::Values::count_values))]
    pub fn size(&self) -> usize
        ensures { result ≡ size_of (plain_value self.now) }
    {
        match self {
            Value::Seq(_, elements) => elements.len(),
            Value::Unit | Value::Z(_) | Value::B(_) | Value::Rec(_, _) => 0,
        }
    }
}
