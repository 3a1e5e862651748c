//! What the definitions say of some small netlists.

ghost use Rattle.cell_netlist.specs.ExampleRuns.{ToggleIsSound, ToggleRuns, ToggleBits, HalfAdderIsSound, HalfAdderIsLean, HalfAdderRuns, HalfAdderPlaces, HalfAdderAsks, ConstantRuns, UpsetsAreSeen};
ghost use Rattle.cell_netlist.specs.ExampleRefusals.{RulesAreRefused, FirstIsRefused};
ghost use Rattle.cell_netlist.specs.ExampleLeanness.{LeannessIsSeen};
ghost use Rattle.cell_netlist.specs.ExampleTexts.{TextsAreThese};

/// The runs and bits of a toggle flip-flop, the runs of a half adder and of a constant; places, asked rails and
/// upsets; a refusal by each rule; netlists that are lean or not; three texts.
pub fn examples_hold()
    ensures toggle_is_sound { ToggleIsSound }
    ensures toggle_runs { ToggleRuns }
    ensures toggle_bits { ToggleBits }
    ensures half_adder_is_sound { HalfAdderIsSound }
    ensures half_adder_is_lean { HalfAdderIsLean }
    ensures half_adder_runs { HalfAdderRuns }
    ensures half_adder_places { HalfAdderPlaces }
    ensures half_adder_asks { HalfAdderAsks }
    ensures constant_runs { ConstantRuns }
    ensures upsets_are_seen { UpsetsAreSeen }
    ensures rules_are_refused { RulesAreRefused }
    ensures first_is_refused { FirstIsRefused }
    ensures leanness_is_seen { LeannessIsSeen }
    ensures texts_are_these { TextsAreThese }
{}
