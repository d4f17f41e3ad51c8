//! Laws of circuits.
ghost use Rattle.circuit_model.specs.Equations.{ValuesSolve, ValuesAlone};

/// The values of a valid circuit's wires solve the circuit's equations, and nothing else does.
pub fn equations_have_one_solution()
    ensures solve { ValuesSolve }
    ensures alone { ValuesAlone }
{}
