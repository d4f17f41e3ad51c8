//! Bytes in base 16.
ghost use Rattle.std.specs.Prelude.{◌≡◌, ◌<◌};
ghost use Rattle.outer_io.specs.Blocks.{Adds};
ghost use Rattle.node_text.specs.FaultLines.{hex_digit, hex_byte, hex_text};

use outer_io::Gather;

fn hex_digit(digit: u8) -> u8
    requires { digit < 16 }
    ensures { result ≡ hex_digit digit }
{
    if digit < 10 { digit + 48 } else { digit + 87 }
}

fn gather_byte<G: Gather>(out: &mut G, byte: u8)
    ensures { Adds (hex_byte byte) (G.gathered out.old) (G.gathered out.new) }
{
    out.push(&[hex_digit(byte / 16), hex_digit(byte % 16)]);
}

/// Adds the bytes, each in two digits.
pub fn gather_hex<G: Gather>(out: &mut G, bytes: &[u8])
    ensures { Adds (hex_text bytes.now) (G.gathered out.old) (G.gathered out.new) }
{
    for byte in bytes {
        gather_byte(out, *byte);
    }
}
