//! Worked cases of what no call of the program shows: cells that are filled twice, an item that is out, files and sinks
//! in memory that fail, a tape that ends, and a worked product, word by word and step by step.
#![tactic(auto)]

/// That both are equal; the text of the first stands where they are not. It is a call, since the proof of a call is far
/// shorter than that of an assertion in place.
#[cfg(test)]
macro_rules! expect_same {
    ($rt:expr; $found:expr, $wanted:expr $(,)?) => {
        crate::check::expect_equal(&$rt, stringify!($found), $found, $wanted)
    };
}

#[cfg(test)]
mod boards;
#[cfg(test)]
mod check;
#[cfg(test)]
mod files;
#[cfg(test)]
mod party_data;
#[cfg(test)]
mod plain_cells;
#[cfg(test)]
mod product_plan;
#[cfg(test)]
mod product_words;
#[cfg(test)]
mod racks;
#[cfg(test)]
mod schedules;
#[cfg(test)]
mod sinks;
#[cfg(test)]
mod tapes;
