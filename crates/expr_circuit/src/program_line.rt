//! Lines of a program.
use mpc_ring::Ring;

/// A line with its number, and the ring of the program's words.
#[derive(Clone, Copy)]
pub struct ProgramLine<'a> {
    pub text: &'a [u8],
    pub number: u64,
    pub ring: Ring,
}
