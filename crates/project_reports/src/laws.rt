ghost use Rattle.project_reports.specs.Laws.{ProjectsHaveOneReport, VerifiedMethodsAreSafe};

/// A project has one report: one text and one code.
pub fn projects_have_one_report()
    ensures { ProjectsHaveOneReport }
{}

/// Where all methods that a method reaches are told as verified, no run of it fails.
pub fn verified_methods_are_safe()
    ensures { VerifiedMethodsAreSafe }
{}
