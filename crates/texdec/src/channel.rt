// A few bits widened to a channel of eight.
ghost use Rattle.std.specs.Prelude.{◌≡◌, ◌<◌};
ghost use Rattle.std.specs.Int.Bits.{bit_and};
ghost use Rattle.rules.specs.Texdec.{wide5, wide4, alpha1, ia4_level};

pub(crate) fn widen5(c: u8) -> u8
    requires { c < 32 }
    ensures { result ≡ wide5 c }
{
    (c << 3) | (c >> 2)
}

pub(crate) fn widen4(c: u8) -> u8
    requires { c < 16 }
    ensures { result ≡ wide4 c }
{
    c * 16 + c
}

// The intensity of an IA4 nibble, which is its upper three bits.
pub(crate) fn ia4_level(n: u8) -> u8
    requires { n < 16 }
    ensures { result ≡ ia4_level (bit_and n 14) }
{
    let i = n & 0xe;
    (i << 4) | (i << 1) | (i >> 2)
}

pub(crate) fn alpha(bit: u8) -> u8
    ensures { result ≡ alpha1 bit }
{
    if bit == 1 { 255 } else { 0 }
}
