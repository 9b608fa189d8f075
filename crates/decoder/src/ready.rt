// A texel without a lookup table whose channels are taken from a table of ready texels.
ghost use Rattle.std.specs.Prelude.{◌≡◌};
ghost use Rattle.rules.specs.Texdec.{rgba16, ia4, ia8, rgba16_texel, ia8_table};
ghost use Rattle.rules.specs.Picture.{direct};
ghost use Rattle.texdec.specs.Ready.{ia4_table, halves_of};
ghost use Rattle.decoder.specs.Steps.{Decodes};

use crate::load::Spot;
use crate::table::half_sum;
use crate::texel::Texel;
use texdec::ia8::texel_bytes;
use texdec::nibble::nibble;
use tmem::bank::Bank;

// Of RGBA16 the halves of its two bytes.
#[inline(always)]
pub(crate) fn rgba16_by(bank: &[u8; Bank::SIZE], halves: &[u32; 512], spot: Spot) -> Texel
    requires { halves.now ≡ halves_of rgba16_texel }
    ensures { Decodes (direct rgba16 spot.base.0 spot.palette spot.odd spot.rel spot.x) bank.now result }
{
    let hi = spot.load(bank, 0);
    let lo = spot.load(bank, 1);
    Texel::two(hi, lo, texel_bytes(half_sum(halves, hi.byte, lo.byte)))
}

// Of IA4 the texel of the nibble.
#[inline(always)]
pub(crate) fn ia4_by(bank: &[u8; Bank::SIZE], table: &[u32; 16], spot: Spot) -> Texel
    requires { table.now ≡ ia4_table }
    ensures { Decodes (direct ia4 spot.base.0 spot.palette spot.odd spot.rel spot.x) bank.now result }
{
    let load = spot.load(bank, 0);
    let n = nibble(spot.x, load.byte);
    Texel::one(load, texel_bytes(table[n as usize]))
}

// Of IA8 that of the byte.
#[inline(always)]
pub(crate) fn ia8_by(bank: &[u8; Bank::SIZE], table: &[u32; 256], spot: Spot) -> Texel
    requires { table.now ≡ ia8_table }
    ensures { Decodes (direct ia8 spot.base.0 spot.palette spot.odd spot.rel spot.x) bank.now result }
{
    let load = spot.load(bank, 0);
    Texel::one(load, texel_bytes(table[load.byte as usize]))
}
