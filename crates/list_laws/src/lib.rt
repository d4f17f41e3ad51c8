//! Sums over the numbers below a number, lists that are joined of parts, and their laws.
#![tactic(auto)]
