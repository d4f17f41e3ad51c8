//! The tokens of a line, read forward.
ghost use Rattle.std.specs.Prelude.{◌≡◌, take, drop, IfOk};
ghost use Rattle.circuit_file.specs.Tokens.{is_number, number_in, all_numbers, numbers_in};

use std::alloc::{AllocError, Global};
use text_tokens::{Tokens, number};

pub(crate) fn is_number(token: &str) -> bool
    ensures { result ≡ is_number token.now }
{
    number(token).is_some()
}

/// The number that a token writes, or 0 where it writes none.
pub(crate) fn number_in(token: &str) -> u64
    ensures { result ≡ number_in token.now }
{
    number(token).unwrap_or(0)
}

/// What follows the first tokens.
pub(crate) fn after(mut tokens: Tokens<'_>, count: usize) -> Tokens<'_>
    ensures { result ≡ drop count tokens.entry }
{
    for at in 0..count {
        match tokens.next() {
            Some(_) => {}
            None => return tokens,
        }
    }
    tokens
}

/// Whether the first tokens are all numbers.
pub(crate) fn all_numbers(mut tokens: Tokens<'_>, count: usize) -> bool
    ensures { result ≡ all_numbers (take count tokens.entry) }
{
    for at in 0..count {
        match tokens.next() {
            Some(token) => {
                if !is_number(token) {
                    return false;
                }
            }
            None => return true,
        }
    }
    true
}

/// The numbers of the first tokens, 0 where one writes none.
pub(crate) fn numbers(
    alloc: Global,
    mut tokens: Tokens<'_>,
    count: usize,
) -> Result<Vec<u64>, AllocError>
    ensures { IfOk result (λ v. v.items ≡ numbers_in (take count tokens.entry)) }
{
    let mut found = Vec::new(alloc);
    for at in 0..count {
        match tokens.next() {
            Some(token) => found.push(number_in(token))?,
            None => return Ok(found),
        }
    }
    Ok(found)
}
