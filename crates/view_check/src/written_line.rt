//! The line of a message as it is written, at the front of a text.
ghost use Rattle.std.specs.Prelude.{◌≡◌, ◌∷◌, ◌++◌, ◌<◌, IfSome, length, decimal};
ghost use Rattle.view_text.specs.ViewText.{message_line};

use itoa::Buffer;
use job_plan::Key;
use party_names::Names;

// What follows this part and then this byte at the front of a text.
fn after_part<'a>(text: &'a [u8], part: &[u8], end: u8) -> Option<&'a [u8]>
    ensures { IfSome result (λ rest. text.now ≡ part.now ++ end ∷ rest.now) }
{
    let (byte, rest) = text.strip_prefix(part)?.split_first()?;
    if *byte != end {
        return None;
    }
    Some(rest)
}

// What follows this number, in decimal digits, and then this byte at the front of a text.
fn after_number(text: &[u8], number: u64, end: u8) -> Option<&[u8]>
    ensures { IfSome result (λ rest. text.now ≡ decimal number ++ end ∷ rest.now) }
{
    after_part(text, Buffer::new().format(number).as_bytes(), end)
}

/// What follows the line of a message and its word at the front of a text, if it stands there just
/// as it is written.
pub(crate) fn after_line<'a>(text: &'a [u8], names: &Names, key: Key, word: u64) -> Option<&'a [u8]>
    requires sender { key.sender < length names.now }
    requires receiver { key.receiver < length names.now }
    ensures { IfSome result (λ rest. text.now ≡ message_line names.now key word ++ rest.now) }
{
    let text = after_number(text, u64::from(key.session), b' ')?;
    let text = after_number(text, u64::from(key.slot), b' ')?;
    let text = after_number(text, u64::from(key.share), b' ')?;
    let text = after_part(text, names.name(key.sender).as_bytes(), b' ')?;
    let text = after_part(text, names.name(key.receiver).as_bytes(), b' ')?;
    after_number(text, word, b'\n')
}
