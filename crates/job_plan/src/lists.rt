//! Lists where the messages of each slot begin, and each party's words.
ghost use Rattle.std.specs.Prelude.{◌≡◌, ◌<◌, ◌≤◌, IfOk, length};
ghost use Rattle.plan_model.specs.Messages.{messages};
ghost use Rattle.plan_model.specs.Firsts.{first, session_starts, starts_of, word_starts, word_starts_of};
ghost use Rattle.job_plan.specs.Tables.{AreTransfers};

use crate::counts::session_words;
use crate::outline::Outline;
use crate::patterns::Patterns;
use job_limits::MOST_MESSAGES;
use plan_model::Starts;
use std::alloc::{AllocError, Global};

// Where the messages of each slot of session s begin, after the `before` messages of earlier sessions.
fn list_starts_of(
    alloc: Global,
    outline: &Outline,
    patterns: &Patterns,
    s: u32,
    before: u32,
) -> Result<Starts, AllocError>
    requires session { s < length outline.now.sessions }
    requires transfers { AreTransfers outline.now patterns.now }
    requires few { length (messages outline.now) ≤ MOST_MESSAGES }
    requires before { before ≡ first outline.now s 0 }
    ensures { IfOk result (λ made. made ≡ session_starts outline.now s) }
{
    let slots = outline.part(s).slots();
    let mut starts = Vec::with_capacity(alloc, slots as usize + 1)?;
    let mut next = before;
    for k in 0..slots {
        starts.push(next)?;
        next += patterns.transfers(outline.pattern(s, k)).len() as u32;
    }
    starts.push(next)?;
    Ok(Starts::of(starts))
}

/// Where the messages of each slot of each session begin, in a plan that has few enough.
pub(crate) fn list_starts(
    alloc: Global,
    outline: &Outline,
    patterns: &Patterns,
) -> Result<Vec<Starts>, AllocError>
    requires transfers { AreTransfers outline.now patterns.now }
    requires few { length (messages outline.now) ≤ MOST_MESSAGES }
    ensures { IfOk result (λ made. made.items ≡ starts_of outline.now) }
{
    let mut list = Vec::new(alloc);
    let mut before = 0;
    for s in 0..outline.sessions() {
        let starts = list_starts_of(alloc, outline, patterns, s, before)?;
        before = starts.at(outline.part(s).slots());
        list.push(starts)?;
    }
    Ok(list)
}

// How many tape words p draws in the sessions before each, and at the end in all.
fn list_words_of(alloc: Global, outline: &Outline, p: u32) -> Result<Starts, AllocError>
    requires { p < outline.now.parties }
    ensures { IfOk result (λ made. made ≡ word_starts outline.now p) }
{
    let mut starts = Vec::new(alloc);
    let mut count = 0;
    for s in 0..outline.sessions() {
        starts.push(count)?;
        count += session_words(outline, p, s);
    }
    starts.push(count)?;
    Ok(Starts::of(starts))
}

/// For each party, how many tape words it draws in the sessions before each, and at the end in all.
pub(crate) fn list_words(alloc: Global, outline: &Outline) -> Result<Vec<Starts>, AllocError>
    ensures { IfOk result (λ made. made.items ≡ word_starts_of outline.now) }
{
    let mut list = Vec::new(alloc);
    for p in 0..outline.parties() {
        list.push(list_words_of(alloc, outline, p)?)?;
    }
    Ok(list)
}
