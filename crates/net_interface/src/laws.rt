//! Laws of a processor's table, each the contract of a function that does nothing.

ghost use Rattle.std.specs.Prelude.{◌≡◌, ◌<◌, ℕ, List, Some, length, replicate};
ghost use Rattle.torus.specs.Shape.{Shape, tiles_of};
ghost use Rattle.torus.specs.declared.step.Choice.{Choice};
ghost use Rattle.script_lines.specs.declared.line.Line.{Line};
ghost use Rattle.channel_number.specs.Order.{channel_count};
ghost use Rattle.flit_buffer.specs.Places.{empty_ring};
ghost use Rattle.flit_buffer.specs.Surroundings.{Surroundings, Wiring, IsPossible, IsWired};
ghost use Rattle.flit_buffer.specs.Surroundings.{ports_of};
ghost use Rattle.flit_buffer.specs.declared.want.Want.{Want};
ghost use Rattle.one_order.specs.ProcessorTable.{ProcessorState, processor_wants, processor_after};
ghost use Rattle.net_interface.specs.Beginning.{first_processor, processor_wiring, processor_ports};
ghost use Rattle.net_interface.specs.Reach.{IsProcessorState};

/// A processor wants no port that isn't there, no word but the one behind those of the memory, and to
/// put no 0: in the state in which it begins, and in each that follows by granted wants.
pub fn wanted_ports_are_there()
    ensures possible { (tiles words tile : ℕ) (p : ProcessorState) (choice : Choice) (want : Want)
        (around : Surroundings) (wiring : Wiring)
        → IsProcessorState p
        → length wiring.inputs ≡ 1 → length wiring.outputs ≡ 1 → words < length around.words
        → processor_wants tiles words tile p choice ≡ Some want → IsPossible around wiring want }
    ensures start { (tags : ℕ) (lines : List Line) → IsProcessorState (first_processor tags lines) }
    ensures kept { (tiles words tile : ℕ) (p : ProcessorState) (choice : Choice) (want : Want)
        (learned : ℕ) → IsProcessorState p
        → IsProcessorState (processor_after tiles words tile p choice want learned) }
{}

/// The ports of a new processor are those over empty channels, whatever the words behind them are, and
/// its channels are there.
pub fn new_processors_see_empty_channels()
    ensures ports { (s : Shape) (t depth : ℕ) (words : List ℕ) → t < tiles_of s → 0 < depth
        → processor_ports s t depth ≡ ports_of depth
        (record { rings = replicate (channel_count s) (empty_ring depth); words = words })
        (processor_wiring s t) }
    ensures wired { (s : Shape) (t : ℕ) → t < tiles_of s
        → IsWired (channel_count s) (processor_wiring s t) }
{}
