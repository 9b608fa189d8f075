// The texels of four bits: two to a byte, the high nibble for an even x.
ghost use Rattle.std.specs.Prelude.{◌≡◌};
ghost use Rattle.rules.specs.Texdec.{nibble, i4_texel, ia4_texel};

use crate::channel::{alpha, ia4_level, widen4};

// The nibble of a byte that x takes.
pub fn nibble(x: usize, byte: u8) -> u8
    ensures { result ≡ nibble x byte }
{
    if x % 2 == 0 { byte >> 4 } else { byte % 16 }
}

// The I4 texel that x takes of a byte: the nibble repeated, in all channels.
pub fn decode_i4(x: usize, byte: u8) -> [u8; 4]
    ensures { result ≡ i4_texel (nibble x byte) }
{
    let i = widen4(nibble(x, byte));
    [i, i, i, i]
}

// The IA4 texel that x takes of a byte: three bits of intensity, and one of alpha.
pub fn decode_ia4(x: usize, byte: u8) -> [u8; 4]
    ensures { result ≡ ia4_texel (nibble x byte) }
{
    let n = nibble(x, byte);
    let i = ia4_level(n);
    [i, i, i, alpha(n % 2)]
}
