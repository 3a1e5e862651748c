//! What is true of every machine. These functions do nothing: their clauses are the laws.

ghost use Rattle.source_machine.specs.Examples.{TogglesThrice, AddsTwoBits, HalfAdderIsAccepted, NamesAreJudged, OffSetIsOr, NoCubeIsOff, EmptyCubeIsOn, RingIsRefused, ClashIsRefused, LooseIsRefused, SpareIsAccepted};
ghost use Rattle.source_machine.specs.Laws.{ValuationExists, ValuationsAreEqual, RunsAreEqual, RunExists, FoundedIsNotRefused, RefusalsAreEqual, FitsIsJudged};

/// A well founded machine computes one thing: in each cycle, and over any vectors.
pub fn one_run()
    ensures one_valuation { ValuationExists }
    ensures same_valuation { ValuationsAreEqual }
    ensures at_least_one { RunExists }
    ensures at_most_one { RunsAreEqual }
{}

/// A machine that fits is well founded or has exactly one first refusal, and never both.
pub fn one_verdict()
    ensures judged { FitsIsJudged }
    ensures founded { FoundedIsNotRefused }
    ensures at_most_one { RefusalsAreEqual }
{}

/// What the definitions say of small machines.
pub fn examples()
    ensures toggle { TogglesThrice }
    ensures half_adder { AddsTwoBits }
    ensures half_adder_accepted { HalfAdderIsAccepted }
    ensures names { NamesAreJudged }
    ensures off_set { OffSetIsOr }
    ensures no_cube { NoCubeIsOff }
    ensures empty_cube { EmptyCubeIsOn }
    ensures ring { RingIsRefused }
    ensures clash { ClashIsRefused }
    ensures loose { LooseIsRefused }
    ensures spare { SpareIsAccepted }
{}
