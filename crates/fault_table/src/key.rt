//! The keys of a fault.

/// What a key tells.
#[derive(Clone, Copy)]
pub enum KeyValue<'a> {
    /// A number.
    Number(u64),
    /// A number that may be below 0.
    Signed(i64),
    /// A text of the program's own.
    Text(&'a [u8]),
    /// A name that a file gave.
    Name(&'a [u8]),
    /// The name of the party of this number.
    Party(u32),
}

/// A key, and what it tells.
#[derive(Clone, Copy)]
pub struct EntryKey<'a> {
    pub key: &'static str,
    pub value: KeyValue<'a>,
}

impl Default for EntryKey<'_> {
    fn default() -> Self {
        EntryKey {
            key: "",
            value: KeyValue::Number(0),
        }
    }
}
