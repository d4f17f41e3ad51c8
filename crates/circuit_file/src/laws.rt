//! The laws of circuit files.
ghost use Rattle.std.specs.Prelude.{◌≡◌, ℕ, ◌<◌, ◌≤◌, List, Ok};
ghost use Rattle.circuit_model.specs.Netlists.{Netlist};
ghost use Rattle.circuit_model.specs.declared.layout.CircuitLayout.{CircuitLayout};
ghost use Rattle.circuit_file.specs.CircuitFiles.{circuit_in};
ghost use Rattle.circuit_file.specs.CircuitTexts.{circuit_text, IsWritable};
ghost use Rattle.circuit_file.specs.Grammar.{HasOneAnswer, StandsFor};

/// For the words of a ring a file stands for a circuit exactly where it has no fault, and for one only.
pub fn each_file_has_one_answer()
    ensures { (layout : CircuitLayout) (bits : ℕ) (bytes : List ℕ) → 0 < bits → bits ≤ 64
        → HasOneAnswer layout bits bytes }
{}

/// The text of a valid circuit stands for it, in a layout that has its operations, and is read back.
pub fn a_written_circuit_is_read_back()
    ensures stands { (layout : CircuitLayout) (c : Netlist) → IsWritable layout c
        → StandsFor layout c.bits (circuit_text c) c }
    ensures read { (layout : CircuitLayout) (c : Netlist) → IsWritable layout c
        → circuit_in layout c.bits (circuit_text c) ≡ Ok c }
{}
