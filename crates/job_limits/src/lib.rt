//! The limits of a job's sessions, circuits, files and runs.
#![tactic(auto)]

mod limits;

pub use limits::{
    FILE_LIMIT, MOST_GATES, MOST_MESSAGES, MOST_SESSIONS, MOST_VALUES, MOST_WIRES, MOST_WORDS,
    MOST_WORKERS,
};
