//! What gives an input value.
ghost use Rattle.std.specs.Prelude.{◌≡◌, true, false, MatchOption, IfSome, drop, length};
ghost use Rattle.job_file.specs.Owners.{is_carry, number_below, carry_in, owner_in, IsOwner};

use job_limits::MOST_VALUES;
use party_names::Names;
use text_tokens::{is_decimal, number};

/// What gives an input value: a party, or an output value of an earlier session.
#[derive(Clone, Copy, Debug, PartialEq, Eq)]
pub enum JobOwner {
    /// The party of this number, whose input it is.
    Party(u32),
    /// This output value of an earlier session, carried unopened.
    Carried { session: u32, value: u32 },
}

// What stands behind the `@` of an owner that is to be carried, in a file of version 2 or not.
fn carry_text(version_two: bool, text: &str) -> Option<&str>
    ensures { MatchOption result (is_carry version_two text.now ≡ false)
        (λ rest. (is_carry version_two text.now ≡ true) × (rest.now ≡ drop 1 text.now)) }
{
    if version_two {
        text.strip_prefix('@')
    } else {
        None
    }
}

/// Whether an owner of this text is to be carried, in a file of version 2 or not: it begins with `@`.
pub fn is_carry(version_two: bool, text: &str) -> bool
    ensures { result ≡ is_carry version_two text.now }
{
    carry_text(version_two, text).is_some()
}

// The number that a text writes in decimal digits without leading zeros, if it is below the bound.
fn number_below(bound: u32, text: &str) -> Option<u32>
    ensures { result ≡ number_below bound text.now }
{
    if !is_decimal(text) {
        return None;
    }
    match number(text) {
        Some(value) if value < u64::from(bound) => Some(value as u32),
        _ => None,
    }
}

// The owner that `S.V` tells in the session of this number: output value V of session S, an earlier one.
#[tactic(auto, unfolding(crate::specs::Owners::carry_in))]
fn carry_in(session: u32, text: &str) -> Option<JobOwner>
    ensures { result ≡ carry_in session text.now }
{
    let (earlier, value) = text.split_once('.')?;
    let earlier = number_below(session, earlier)?;
    let value = number_below(MOST_VALUES as u32, value)?;
    Some(JobOwner::Carried {
        session: earlier,
        value,
    })
}

/// The owner that a text tells in the session of this number, in a file of version 2 or not: a party by its name, or
/// `@S.V`, which is output value V of session S, an earlier one.
#[tactic(auto, unfolding(crate::specs::Owners::owner_in))]
pub fn owner_in(version_two: bool, names: &Names, session: u32, text: &str) -> Option<JobOwner>
    ensures is { result ≡ owner_in version_two names.now session text.now }
    ensures within { IfSome result (IsOwner (length names.now) session) }
{
    match carry_text(version_two, text) {
        Some(carry) => carry_in(session, carry),
        None => Some(JobOwner::Party(names.number(text)?)),
    }
}
