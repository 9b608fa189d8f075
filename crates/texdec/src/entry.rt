// An entry of 16 bits as four channels. All four made as one number are faster than each by itself.
ghost use Rattle.std.specs.Prelude.{◌≡◌, [], ◌∷◌};
ghost use Rattle.rules.specs.Texdec.{rgba16_texel, ia16_texel};

use crate::channel::{alpha, widen5};
use crate::ia8::texel_bytes;

// Five bits of colour three times, and one of alpha.
pub fn decode_rgba16_entry(v: u16) -> [u8; 4]
    ensures { result ≡ rgba16_texel v }
{
    let r5 = ((v >> 11) % 32) as u8;
    let g5 = ((v >> 6) % 32) as u8;
    let b5 = ((v >> 1) % 32) as u8;
    let a = (v % 2) as u8;
    [widen5(r5), widen5(g5), widen5(b5), alpha(a)]
}

// Intensity in the high byte, alpha in the low.
pub fn decode_ia16_entry(v: u16) -> [u8; 4]
    ensures { result ≡ ia16_texel v }
{
    let i = ((v >> 8) % 256) as u32;
    let a = (v % 256) as u32;
    texel_bytes(i * 65793 + a * 16777216)
}

// An index of 16 bits: its two bytes, twice.
pub fn decode_ci16_entry(hi: u8, lo: u8) -> [u8; 4]
    ensures { result ≡ hi ∷ lo ∷ hi ∷ lo ∷ [] }
{
    texel_bytes(hi as u32 * 65537 + lo as u32 * 16777472)
}
