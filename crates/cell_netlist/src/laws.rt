//! Laws on netlists and on the world of pulses. Each stands on a function that does nothing.

ghost use Rattle.cell_netlist.specs.Decisions.{DecisionsOfRulesAreRight, SoundDecisionIsRight, SoundIsDecided};
ghost use Rattle.cell_netlist.specs.Refused.{SoundIsNotRefused, FirstRefusalsAreEqual, UnbrokenIsSound, SoundOrRefused};
ghost use Rattle.cell_netlist.specs.LeanLaws.{UsefulIsDecided, LeanIsDecided, SoundLeanIsDecided, LeavesAreCounted, CountsOfLeavesAreEqual, LeavesAreBalanced};
ghost use Rattle.cell_netlist.specs.LeanDecisions.{RootsAreUnique, RootsAreClimbed, ClimbsEndAtRoots, LeanDecisionIsRight};
ghost use Rattle.cell_netlist.specs.RootBits.{WiresCarryRootBits};
ghost use Rattle.cell_netlist.specs.Text.{TextsAreNoPrefixes};
ghost use Rattle.cell_netlist.specs.WireLaws.{NamedWiresAreBelow, DriversAreOnTheirWires, ReadersAreOnTheirWires, OutsHavePlaces, ReadsHavePlaces, DriversAreUnique, ReadersAreUnique};
ghost use Rattle.cell_netlist.specs.WireLaws.{DrivingCellsAreUnique, ReadingCellsAreUnique, WiresAreGrounded, WiresHaveRoots, AnotherFeedLeavesRest};
ghost use Rattle.cell_netlist.specs.MoreLines.{MoreCellsAdd, MoreInputAdds, MoreOutputAdds};
ghost use Rattle.cell_netlist.specs.OneReader.{PlacesAreCounted, DeliveryIsToReader, MomentsKeepShape};

/// The decisions on soundness tell the rules: a netlist is sound just where it passes them.
pub fn sound_decisions()
    ensures rules { DecisionsOfRulesAreRight }
    ensures sound { SoundDecisionIsRight }
    ensures decided { SoundIsDecided }
{}

/// A netlist is sound just where it breaks no rule; else it has one first refusal, and no other.
pub fn one_refusal()
    ensures sound { SoundIsNotRefused }
    ensures at_most_one { FirstRefusalsAreEqual }
    ensures unbroken { UnbrokenIsSound }
    ensures refused { SoundOrRefused }
{}

/// Where no wire is driven twice a wire has one root, which the climb finds. The decisions on leanness tell its
/// properties: a netlist that passes them is lean, and a lean one in which each leaf has a root passes them. So a sound
/// netlist is lean just where it passes them.
pub fn lean_decisions()
    ensures unique { RootsAreUnique }
    ensures climbed { RootsAreClimbed }
    ensures ends { ClimbsEndAtRoots }
    ensures lean { LeanDecisionIsRight }
    ensures useful { UsefulIsDecided }
    ensures decided { LeanIsDecided }
    ensures sound { SoundLeanIsDecided }
{}

/// In a sound netlist each root has one number of readers that are no splitters; so leanness bounds the depth of each
/// of them.
pub fn leaves_of_roots()
    ensures counted { LeavesAreCounted }
    ensures one { CountsOfLeavesAreEqual }
    ensures balanced { LeavesAreBalanced }
{}

/// A wire is driven and read as often as it has places, and a delivery is what comes of the pulse at the wire's
/// one reader.
pub fn readers_of_wires()
    ensures places { PlacesAreCounted }
    ensures delivery { DeliveryIsToReader }
    ensures shape { MomentsKeepShape }
{}

/// A wire that a line names is below the number of wires, and a place of a wire is that port of that cell, or that
/// rail, which the wire is on.
pub fn places_of_wires()
    ensures below { NamedWiresAreBelow }
    ensures drivers { DriversAreOnTheirWires }
    ensures readers { ReadersAreOnTheirWires }
    ensures outs { OutsHavePlaces }
    ensures reads { ReadsHavePlaces }
{}

/// Where each wire has one driver and one reader, what drives one wire or reads one wire is one.
pub fn one_place_a_wire()
    ensures drivers { DriversAreUnique }
    ensures readers { ReadersAreUnique }
    ensures driving_cells { DrivingCellsAreUnique }
    ensures reading_cells { ReadingCellsAreUnique }
{}

/// Every wire of a sound netlist is grounded and has a root. In each cycle of each run by the equations a wire carries
/// the bit of its root.
pub fn roots_of_wires()
    ensures grounded { WiresAreGrounded }
    ensures rooted { WiresHaveRoots }
    ensures bits { WiresCarryRootBits }
{}

/// What more cells, one more input rail and one more output rail add to a netlist, and that all else stays.
pub fn more_lines()
    ensures cells { MoreCellsAdd }
    ensures input { MoreInputAdds }
    ensures output { MoreOutputAdds }
{}

/// Another feed of a DROC leaves all other cells, all that drives, all else that reads, where splitters lead and
/// the grounded wires as they were.
pub fn another_feed()
    ensures { AnotherFeedLeavesRest }
{}

/// No text of a netlist is a prefix of another's: the text tells the netlist and where it ends.
pub fn texts_of_netlists()
    ensures { TextsAreNoPrefixes }
{}
