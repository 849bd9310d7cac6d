ghost use Rattle.type_faults.specs.Laws.{FaultsAreToldInAnyOrder, FaultsAreToldInTurn, FirstStandsForAll};

/// Faults are told in turn: the first of all is the first with those behind it.
pub fn faults_are_told_in_turn()
    ensures { FaultsAreToldInTurn }
{}

/// The order in which faults are told does not matter.
pub fn faults_are_told_in_any_order()
    ensures { FaultsAreToldInAnyOrder }
{}

/// The first of some faults stands for all of them.
pub fn first_stands_for_all()
    ensures { FirstStandsForAll }
{}
