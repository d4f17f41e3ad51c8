//! The laws of compiled programs.
ghost use Rattle.std.specs.Prelude.{◌≡◌, ℕ, List, false};
ghost use Rattle.number_circuit.specs.Programs.{Statement};
ghost use Rattle.number_circuit.specs.Laws.{HasOneAnswer};
ghost use Rattle.number_compiler.specs.Circuits.{has_large_circuit};
ghost use Rattle.number_compiler.specs.Depths.{HasDepths};
ghost use Rattle.number_compiler.specs.Laws.{IsCompiledRight};

/// Each text is one program whose circuit is within the limits, or has one first fault, and never both.
pub fn each_text_has_one_answer()
    ensures { (text : List ℕ) → HasOneAnswer has_large_circuit text }
{}

/// A program whose circuit is within the limits has a valid one, whose outputs are the values of its output lines.
pub fn a_compiled_program_has_its_values()
    ensures { (p : List Statement) → IsCompiledRight p }
{}

/// The depths of a compiled circuit's wires, by which layers go, are depths as the laws of gates of numbers speak of
/// them: what is so by all such depths is so of this circuit.
pub fn compiled_wires_have_depths()
    ensures { (p : List Statement) → has_large_circuit p ≡ false → HasDepths p }
{}
