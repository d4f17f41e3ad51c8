//! A run of which a text tells.
use desk_workers::Done;
use job_plan::Plan;
use party_names::Names;

/// A run that is over, with the names of its parties, its plan, and of which sessions the words are numbers.
#[derive(Clone, Copy)]
pub(crate) struct FinishedRun<'a> {
    pub names: &'a Names,
    pub plan: &'a Plan,
    pub done: &'a Done,
    pub numeric: &'a [bool],
}
