//! The laws of opened goals and of instances.
ghost use Rattle.instance_rules.specs.Laws.{InstancesKeepValidity, OpeningEnds};

/// A sequent with its instances proves the one without.
pub fn instances_keep_validity()
    ensures { InstancesKeepValidity }
{}

/// No All is left of a goal that was opened.
pub fn opening_ends()
    ensures { OpeningEnds }
{}
