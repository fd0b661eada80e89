// RisingLight's own behaviour as functions on values, and the second theorem: the port agrees with it. Nothing here is code that runs; the functions
// pin what is claimed to the check.
#![tactic(auto)]

ghost use Rattle.plain_record.specs.Run.{port};
ghost use Rattle.risinglight.specs.Agreement.{Agreement};
ghost use Rattle.risinglight.specs.Selections.{SelectionLaws};
ghost use Rattle.risinglight.specs.Groupings.{GroupingLaws};
ghost use Rattle.risinglight.specs.DeleteVectors.{DeleteVectorLaws};
ghost use Rattle.risinglight.specs.Differences.{Differences};

// Every accepted call of a list is one that RisingLight does too, with the same answer.
pub fn agrees()
    ensures { Agreement port }
{}

pub fn selections_agree()
    ensures { SelectionLaws }
{}

pub fn groupings_agree()
    ensures { GroupingLaws }
{}

pub fn delete_vectors_agree()
    ensures { DeleteVectorLaws }
{}

// Where they differ, the smallest cases.
pub fn differences_hold()
    ensures { Differences }
{}
