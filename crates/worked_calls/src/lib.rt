//! Calls of the program with what no peer and no file shows: a node over links in memory of which one call fails,
//! readers that are not started, and workers that are held in their first call; and of functions that the program
//! doesn't call, which are for who calls the crates.
#![tactic(auto)]

#[cfg(test)]
mod calling;
#[cfg(test)]
mod calls;
#[cfg(test)]
mod faults;
#[cfg(test)]
mod files;
#[cfg(test)]
mod links;
#[cfg(test)]
mod programs;
#[cfg(test)]
mod sockets;
#[cfg(test)]
mod talks;
#[cfg(test)]
mod workers;
