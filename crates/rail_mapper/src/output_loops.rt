//! All output rails.

ghost use Rattle.std.specs.Prelude.{◌≡◌, length, OnOk};
ghost use Rattle.rail_mapper.specs.Lines.{KeepsCells};
ghost use Rattle.rail_mapper.specs.OutputStages.{OutputsAt};

use crate::circuits::Circuit;
use crate::drafts::Draft;
use pulse_ids::NoMemory;

/// Adds all asked output rails, by rising ports, the positive before the negative one.
pub(crate) fn add_outputs(draft: &mut Draft, circuit: &Circuit) -> Result<(), NoMemory>
    requires { OutputsAt circuit.now.built.now circuit.now.ask 0 draft.old }
    ensures outputs { OnOk result (OutputsAt circuit.now.built.now circuit.now.ask (length circuit.now.built.now.outputs) draft.new) }
    ensures cells { OnOk result (KeepsCells draft.old draft.new) }
{
    for port in 0..circuit.built.outputs() {
        draft.put_outputs(circuit.built.output(port), port, circuit.ask)?;
    }
    Ok(())
}
