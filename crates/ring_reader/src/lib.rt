//! Circuits over a ring, in the lines of Bristol Fashion with the operations `ADD`, `SUB`, `MUL`, `NEG`, `EQ` and
//! `EQW`.
#![tactic(auto)]

ghost use Rattle.circuit_model.specs.Checks.{Gives};
ghost use Rattle.circuit_file.specs.CircuitFiles.{circuit_in};
ghost use Rattle.circuit_model.specs.declared.layout.CircuitLayout.TheVariants.{Ring as of_ring};

use circuit_model::{Circuit, CircuitFault, CircuitLayout};
use mpc_ring::Ring;
use std::alloc::Global;

/// The circuit that a file stands for over a ring, or the file's first fault.
pub fn read(alloc: Global, bytes: &[u8], ring: Ring) -> Result<Circuit, CircuitFault>
    ensures { Gives result (circuit_in of_ring ring bytes.now) }
{
    circuit_file::read(alloc, bytes, CircuitLayout::Ring, ring)
}
