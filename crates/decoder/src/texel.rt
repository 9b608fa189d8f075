// One texel: four channels, and the addresses that it reads, in their order.
ghost use Rattle.std.specs.Prelude.{◌≡◌, [], ◌∷◌};
ghost use Rattle.rules.specs.Picture.{texel};
ghost use Rattle.rdp.specs.View.{tile_of};
ghost use Rattle.decoder.specs.Steps.{Decodes};

use crate::direct::direct_texel;
use crate::kind::Kind;
use crate::load::{Load, Spot};
use crate::painter::Painter;
use crate::palette::{entry_by, entry_texel, halves_by};
use crate::ready::{ia4_by, ia8_by, rgba16_by};

// Of `reads` the first `count` are meant: there is no heap, and the compiler writes out a loop over four.
#[derive(Clone, Copy)]
pub(crate) struct Texel {
    pub(crate) channels: [u8; 4],
    pub(crate) reads: [usize; 4],
    pub(crate) count: usize,
}

impl Texel {
    // The texel of one read, and of two.
    #[inline(always)]
    pub(crate) fn one(load: Load, channels: [u8; 4]) -> Texel
        ensures { result
            ≡ record { channels = channels; reads = load.at ∷ 0 ∷ 0 ∷ 0 ∷ []; count = 1 } }
    {
        Texel {
            channels,
            reads: [load.at, 0, 0, 0],
            count: 1,
        }
    }

    #[inline(always)]
    pub(crate) fn two(hi: Load, lo: Load, channels: [u8; 4]) -> Texel
        ensures { result
            ≡ record { channels = channels; reads = hi.at ∷ lo.at ∷ 0 ∷ 0 ∷ []; count = 2 } }
    {
        Texel {
            channels,
            reads: [hi.at, lo.at, 0, 0],
            count: 2,
        }
    }
}

impl<'a> Painter<'a> {
    // The picture's texel at rel and x, on an odd row or not.
    #[inline(always)]
    pub(crate) fn texel(self, rel: u32, odd: bool, x: usize) -> Texel
        ensures { Decodes (texel (tile_of self.entry.plan.picture.tile) self.entry.plan.picture.tlut self.entry.plan.picture.lane
            odd rel x) self.entry.bank.now result }
    {
        let bank = self.bank;
        let picture = self.plan.picture;
        let word = picture.tile.tmem_addr;
        let base = word.bytes();
        let spot = Spot {
            base,
            palette: picture.tile.palette,
            odd,
            rel,
            x,
        };
        match self.kind {
            Kind::Direct(format) => direct_texel(bank, format, spot),
            Kind::Rgba16By(halves) => rgba16_by(bank, halves, spot),
            Kind::Ia4By(table) => ia4_by(bank, table, spot),
            Kind::Ia8By(table) => ia8_by(bank, table, spot),
            Kind::Entry(part) => entry_texel(bank, picture, part, spot),
            Kind::EntryBy(part, table) => entry_by(bank, picture, part, table, spot),
            Kind::HalvesBy(halves) => halves_by(bank, picture, halves, spot),
        }
    }
}
