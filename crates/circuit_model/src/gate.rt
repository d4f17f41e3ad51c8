//! Gates of a circuit.
ghost use Rattle.std.specs.Prelude.{◌≡◌, ◌^◌, ◌<◌};

use mpc_ring::Ring;

/// What a gate makes of the words on its input wires. `Xor`, `And` and `Inv` are sum, product and sum with 1:
/// in the ring of one bit they are the Boolean gates (Bristol Fashion).
#[derive(Clone, Copy, Debug, PartialEq, Eq)]
pub enum Operation {
    Add,
    Sub,
    Neg,
    Mul,
    Xor,
    And,
    Inv,
    /// A constant.
    Eq,
    /// A copy.
    Eqw,
}

/// A gate: it reads the wires `first` and `second` and sets the wire `output`. A field that the operation does not
/// use is 0.
#[derive(Clone, Copy, Debug, PartialEq, Eq)]
pub struct Gate {
    pub operation: Operation,
    pub first: u32,
    pub second: u32,
    pub output: u32,
    /// The constant of `Operation::Eq`.
    pub constant: u64,
}

impl Operation {
    ghost use Rattle.std.specs.Prelude.{◌≡◌, ◌^◌, ◌<◌, ◌≤◌};
    ghost use Rattle.circuit_model.specs.Circuits.{is_product, operate};
    ghost use Rattle.circuit_model.specs.Netlists.{arity, is_constant};

    /// How many wires, or constants, the operation takes.
    #[inline]
    pub fn arity(self) -> usize
        ensures is { result ≡ arity self }
        ensures few { result ≤ 2 }
    {
        match self {
            Operation::Add | Operation::Sub | Operation::Mul | Operation::Xor | Operation::And => 2,
            Operation::Neg | Operation::Inv | Operation::Eq | Operation::Eqw => 1,
        }
    }

    /// Whether the operation takes a constant.
    #[inline]
    pub fn is_constant(self) -> bool
        ensures { result ≡ is_constant self }
    {
        match self {
            Operation::Eq => true,
            _ => false,
        }
    }

    /// Whether the operation multiplies, so that the parties have to talk to compute it.
    pub fn is_product(self) -> bool
        ensures { result ≡ is_product self }
    {
        match self {
            Operation::Mul | Operation::And => true,
            _ => false,
        }
    }

    /// What the operation with this constant makes of the words `a` and `b`.
    pub fn apply(self, ring: Ring, constant: u64, a: u64, b: u64) -> u64
        requires { (a < 2 ^ ring) × (b < 2 ^ ring) }
        ensures is { result ≡ operate (2 ^ ring) self constant a b }
        ensures below { result < 2 ^ ring }
    {
        match self {
            Operation::Add | Operation::Xor => ring.add(a, b),
            Operation::Sub => ring.sub(a, b),
            Operation::Neg => ring.neg(a),
            Operation::Mul | Operation::And => ring.mul(a, b),
            Operation::Inv => ring.add(a, ring.one()),
            Operation::Eq => ring.reduce(constant),
            Operation::Eqw => a,
        }
    }
}
