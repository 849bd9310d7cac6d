ghost use Rattle.program_numbers.specs.Numbers.{NumberedProjectsAreTyped, NumbersStandForPrograms};

/// A well-typed program is the one that stands for its own numbers.
pub fn numbers_stand_for_programs()
    ensures { NumbersStandForPrograms }
{}

/// The program of a project without faults is well typed over numbers, where no expression is too high.
pub fn numbered_projects_are_typed()
    ensures { NumberedProjectsAreTyped }
{}
