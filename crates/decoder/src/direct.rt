// A texel without a lookup table.
ghost use Rattle.std.specs.Prelude.{◌≡◌};
ghost use Rattle.rules.specs.Texdec.{rgba32};
ghost use Rattle.rules.specs.Picture.{direct, format_reads};
ghost use Rattle.decoder.specs.Formats.{rule_of};
ghost use Rattle.decoder.specs.Steps.{Decodes};

use crate::format::Format;
use crate::load::Spot;
use crate::texel::Texel;
use tmem::bank::Bank;

// Red and green from the low half of the bank, blue and alpha from the same places of the high half.
#[inline(always)]
fn rgba32_texel(bank: &[u8; Bank::SIZE], spot: Spot) -> Texel
    ensures { Decodes (direct rgba32 spot.base.0 spot.palette spot.odd spot.rel spot.x) bank.now result }
{
    let r = spot.load_half(bank, 0, 0);
    let g = spot.load_half(bank, 1, 0);
    let b = spot.load_half(bank, 0, Bank::PALETTE_BASE);
    let a = spot.load_half(bank, 1, Bank::PALETTE_BASE);
    Texel {
        channels: [r.byte, g.byte, b.byte, a.byte],
        reads: [r.at, g.at, b.at, a.at],
        count: 4,
    }
}

// A texel of two bytes, the high one first.
#[inline(always)]
fn two_byte_texel(bank: &[u8; Bank::SIZE], format: Format, spot: Spot) -> Texel
    requires { format_reads (rule_of format) ≡ 2 }
    ensures { Decodes (direct (rule_of format) spot.base.0 spot.palette spot.odd spot.rel spot.x)
        bank.now result }
{
    let hi = spot.load(bank, 0);
    let lo = spot.load(bank, 1);
    Texel::two(hi, lo, format.of_pair(hi.byte, lo.byte))
}

// A texel of one byte.
#[inline(always)]
fn one_byte_texel(bank: &[u8; Bank::SIZE], format: Format, spot: Spot) -> Texel
    requires { format_reads (rule_of format) ≡ 1 }
    ensures { Decodes (direct (rule_of format) spot.base.0 spot.palette spot.odd spot.rel spot.x)
        bank.now result }
{
    let load = spot.load(bank, 0);
    Texel::one(load, format.of_byte(spot.palette, spot.x, load.byte))
}

// The texel of a format.
#[inline(always)]
pub(crate) fn direct_texel(bank: &[u8; Bank::SIZE], format: Format, spot: Spot) -> Texel
    ensures { Decodes (direct (rule_of format) spot.base.0 spot.palette spot.odd spot.rel spot.x)
        bank.now result }
{
    let reads = format.reads();
    match reads {
        1 => one_byte_texel(bank, format, spot),
        2 => two_byte_texel(bank, format, spot),
        _ => rgba32_texel(bank, spot),
    }
}
