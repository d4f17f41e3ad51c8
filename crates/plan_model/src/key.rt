//! Names of messages.

/// The name of a message: summand `share` of what a slot of a session sends from one party to another.
#[derive(Clone, Copy, Debug, PartialEq, Eq)]
pub struct Key {
    pub session: u32,
    pub slot: u32,
    pub share: u32,
    pub sender: u32,
    pub receiver: u32,
}
