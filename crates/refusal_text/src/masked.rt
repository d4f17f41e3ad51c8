//! Names from a file.
ghost use Rattle.std.specs.Prelude.{◌≡◌, ◌++◌, OnOk, nat_le, ◌&&◌, if◌then◌else◌};
ghost use Rattle.refusal_text.specs.Lines.{masked};

use std::alloc::AllocError;

/// Adds a name that a file gave: a byte that isn't one of `!` to `~` is told as `?`.
pub(crate) fn push_masked(line: &mut Vec<u8>, name: &[u8]) -> Result<(), AllocError>
    ensures { OnOk result (line.new.items ≡ line.old.items ++ masked name.now) }
{
    for byte in name {
        line.push(masked(*byte))?;
    }
    Ok(())
}

fn masked(byte: u8) -> u8
    ensures { result ≡ (if nat_le 33 byte && nat_le byte 126 then byte else 63) }
{
    if (b'!'..=b'~').contains(&byte) {
        byte
    } else {
        b'?'
    }
}
