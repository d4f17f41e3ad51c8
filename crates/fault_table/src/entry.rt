//! A fault as its line tells it.
ghost use Rattle.std.specs.Prelude.{◌≡◌, ◌+◌, ◌≤◌, ◌<◌, [], length, map};
ghost use Rattle.fault_table.specs.Tables.{fault, with_key, with_keys, of_party, on_line, at_place, found_for, in_session, told_value, told_key, Number, Signed, Text, Name, Party};

use crate::key::{EntryKey, KeyValue};
use arrayvec::ArrayVec;
use std::marker::Model;

/// The most keys of a fault.
pub const MOST_KEYS: usize = 5;

/// The number of a fault in its part, its name, and its keys in the order in which they are written.
#[derive(Drop)]
pub struct Entry<'a> {
    number: u32,
    name: &'static str,
    keys: ArrayVec<EntryKey<'a>, MOST_KEYS>,
}

impl<'a> Model for Entry<'a> {
    ghost use Rattle.std.specs.Prelude.{map};
    ghost use Rattle.fault_table.specs.Tables.{Entry, fault, told_key};

    ghost Value = { Entry };

    ghost view = { λ t. fault t.number t.name.now (map told_key t.keys.items) };
}

impl<'a> Entry<'a> {
    /// A fault without keys.
    pub fn new(number: u32, name: &'static str) -> Self
        ensures { result ≡ fault number name.now [] }
    {
        Entry {
            number,
            name,
            keys: ArrayVec::new(),
        }
    }

    /// A fault that tells this line alone.
    pub fn on_line(number: u32, name: &'static str, line: u64) -> Self
        ensures { result ≡ fault number name.now (on_line line) }
    {
        Entry::new(number, name).with_number("line", line)
    }

    /// A fault that tells this place alone.
    pub fn at_place(number: u32, name: &'static str, at: u64) -> Self
        ensures { result ≡ fault number name.now (at_place at) }
    {
        Entry::new(number, name).with_number("at", at)
    }

    /// A fault that tells its session alone, if it stands in one.
    pub fn in_session(number: u32, name: &'static str, session: Option<u32>) -> Self
        ensures is { result ≡ fault number name.now (in_session session) }
        ensures few { length result.keys ≤ 1 }
    {
        match session {
            Some(session) => Entry::new(number, name).with_number("session", session as u64),
            None => Entry::new(number, name),
        }
    }

    /// The number in its part, 0 for want of memory.
    pub fn number(&self) -> u32
        ensures { result ≡ self.now.number }
    {
        self.number
    }

    /// The name.
    pub fn name(&self) -> &'static str
        ensures { result.now ≡ self.now.name }
    {
        self.name
    }

    /// The keys, in the order in which they are written.
    pub fn keys(&self) -> &[EntryKey<'a>]
        ensures { map told_key result.now ≡ self.now.keys }
    {
        &self.keys
    }

    /// The same with a number behind its keys.
    pub fn with_number(self, key: &'static str, value: u64) -> Self
        requires { length self.keys < MOST_KEYS }
        ensures { result ≡ with_key self.entry key.now (Number value) }
    {
        self.with(key, KeyValue::Number(value))
    }

    /// The same with a number that may be below 0.
    pub fn with_signed(self, key: &'static str, value: i64) -> Self
        requires { length self.keys < MOST_KEYS }
        ensures { result ≡ with_key self.entry key.now (Signed value) }
    {
        self.with(key, KeyValue::Signed(value))
    }

    /// The same with a text.
    pub fn with_text(self, key: &'static str, value: &'a [u8]) -> Self
        requires { length self.keys < MOST_KEYS }
        ensures { result ≡ with_key self.entry key.now (Text value.now) }
    {
        self.with(key, KeyValue::Text(value))
    }

    /// The same with a name that a file gave.
    pub fn with_name(self, key: &'static str, value: &'a [u8]) -> Self
        requires { length self.keys < MOST_KEYS }
        ensures { result ≡ with_key self.entry key.now (Name value.now) }
    {
        self.with(key, KeyValue::Name(value))
    }

    /// The same with the name of the party of this number.
    pub fn with_party(self, key: &'static str, party: u32) -> Self
        requires { length self.keys < MOST_KEYS }
        ensures { result ≡ with_key self.entry key.now (Party party) }
    {
        self.with(key, KeyValue::Party(party))
    }

    /// The same with what is wanted, and what there is.
    pub fn with_found(self, wanted: u64, found: u64) -> Self
        requires { length self.keys + 1 < MOST_KEYS }
        ensures { result ≡ with_keys self.entry (found_for wanted found) }
    {
        self.with_number("wanted", wanted)
            .with_number("found", found)
    }

    /// The same with a party in front of its keys.
    pub fn of_party(mut self, party: u32) -> Self
        requires { length self.keys < MOST_KEYS }
        ensures { result ≡ of_party party self.entry }
    {
        let key = EntryKey {
            key: "party",
            value: KeyValue::Party(party),
        };
        self.keys.insert(0, key);
        self
    }

    fn with(mut self, key: &'static str, value: KeyValue<'a>) -> Self
        requires { length self.keys < MOST_KEYS }
        ensures { result ≡ with_key self.entry key.now (told_value value.entry) }
    {
        self.keys.push(EntryKey { key, value });
        self
    }
}
