ghost use Rattle.project_typing.specs.Projects.{ProjectsAreTyped};

/// Where no file of a project has a fault and no expression is too high, its typed program is well typed.
pub fn projects_are_typed()
    ensures { ProjectsAreTyped }
{}
