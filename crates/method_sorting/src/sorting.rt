ghost use Rattle.std.specs.Prelude.{◌≡◌, OnOk};
ghost use Rattle.std.specs.Ordering.{is_lt};
ghost use Rattle.type_rules.specs.Faults as faults;
ghost use Rattle.method_sorting.specs.Ordered.{in_turn, method_name};

use crate::NoMemory;
use lk_programs::Method;
use std::cmp::Ordering;

/// Which of two methods comes first.
fn by_name(a: &Method, b: &Method) -> Ordering
    ensures { is_lt result ≡ faults.precedes a.now.name b.now.name }
{
    a.name.as_str().cmp(b.name.as_str())
}

/// Puts methods in the order of their names' bytes.
pub fn sort_methods(methods: &mut Vec<Method>) -> Result<(), NoMemory>
    ensures { OnOk result (methods.new.items ≡ in_turn method_name methods.old.items) }
{
    methods.sort_by(|a, b| by_name(a, b))
}
