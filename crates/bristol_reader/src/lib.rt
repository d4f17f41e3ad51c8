//! Boolean circuits in Bristol Fashion, with the operations `XOR`, `AND`, `INV`, `EQ` and `EQW`.
#![tactic(auto)]

ghost use Rattle.circuit_model.specs.Checks.{Gives};
ghost use Rattle.circuit_file.specs.CircuitFiles.{circuit_in};
ghost use Rattle.circuit_model.specs.declared.layout.CircuitLayout.TheVariants.{Bristol};

use circuit_model::{Circuit, CircuitFault, CircuitLayout};
use mpc_ring::Ring;
use std::alloc::Global;

/// The circuit that a file stands for, or the file's first fault. Only the ring of one bit has Boolean circuits.
pub fn read(alloc: Global, bytes: &[u8], ring: Ring) -> Result<Circuit, CircuitFault>
    ensures { Gives result (circuit_in Bristol ring bytes.now) }
{
    circuit_file::read(alloc, bytes, CircuitLayout::Bristol, ring)
}
