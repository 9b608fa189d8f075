// A texel through the lookup table, which modes 2 and 3 have in the high half of the bank.
ghost use Rattle.std.specs.Prelude.{◌≡◌, [], ◌∷◌, ◌+◌, ◌*◌, ◌≤◌, get_or};
ghost use Rattle.rules.specs.Reading.{given};
ghost use Rattle.rules.specs.Texdec.{index_part};
ghost use Rattle.rules.specs.Picture.{paletted, entry_texel};
ghost use Rattle.texdec.specs.Ready.{halves_of};
ghost use Rattle.rdp.specs.View.{tile_of};
ghost use Rattle.decoder.specs.Formats.{part_number};
ghost use Rattle.decoder.specs.Steps.{Decodes, EntryIs};
ghost use Rattle.decoder.specs.Tables.{entry_format, EntryTable};

use crate::load::{Load, Spot, entry_of};
use crate::part::Part;
use crate::table::half_sum;
use crate::texel::Texel;
use texdec::entry::{decode_ia16_entry, decode_rgba16_entry};
use texdec::ia8::texel_bytes;
use texdec::pair::Picture;
use tmem::bank::Bank;

// An index byte, the index that its part stands for, and where the index's entry is.
#[derive(Clone, Copy)]
pub(crate) struct Entry {
    pub(crate) load: Load,
    pub(crate) index: usize,
    pub(crate) at: usize,
}

impl Entry {
    // The entry that the part of the byte at a texel's place stands for.
    #[inline(always)]
    pub(crate) fn of_spot(
        bank: &[u8; Bank::SIZE],
        picture: Picture,
        part: Part,
        spot: Spot,
    ) -> Entry
        requires part_is { part_number part ≡ index_part (tile_of picture.tile).fmt (tile_of picture.tile).siz }
        requires base_is { spot.base.0 ≡ 8 * (tile_of picture.tile).tmem_addr }
        ensures { EntryIs (tile_of picture.tile) picture.lane spot.odd spot.rel spot.x bank.now result }
    {
        let load = spot.load_half(bank, 0, 0);
        let index = part.index(picture.tile.palette, spot.x, load.byte);
        let at = Bank::entry_addr(index as u8, picture.lane).0;
        Entry { load, index, at }
    }

    // The texel with the entry's channels. It reads the index and the two bytes of the entry.
    #[inline(always)]
    pub(crate) fn texel(self, channels: [u8; 4]) -> Texel
        requires { self.at ≤ 4095 }
        ensures { result
            ≡ record { channels = channels; reads = self.load.at ∷ self.at ∷ (self.at + 1) ∷ 0 ∷ []; count = 3 } }
    {
        Texel {
            channels,
            reads: [self.load.at, self.at, self.at + 1, 0],
            count: 3,
        }
    }
}

// The channels of the entry at an address.
#[inline(always)]
fn load_palette_entry(bank: &[u8; Bank::SIZE], at: usize, tlut_fmt: u32) -> [u8; 4]
    requires { at ≤ 4094 }
    ensures { result
        ≡ given (entry_texel tlut_fmt (get_or bank.now at 0) (get_or bank.now (at + 1) 0)) bank.now }
{
    let entry = entry_of(bank[at], bank[at + 1]);
    if tlut_fmt == 2 {
        decode_rgba16_entry(entry)
    } else {
        decode_ia16_entry(entry)
    }
}

// The texel of the entry as the bank has it.
#[inline(always)]
pub(crate) fn entry_texel(
    bank: &[u8; Bank::SIZE],
    picture: Picture,
    part: Part,
    spot: Spot,
) -> Texel
    requires part_is { part_number part ≡ index_part (tile_of picture.tile).fmt (tile_of picture.tile).siz }
    requires base_is { spot.base.0 ≡ 8 * (tile_of picture.tile).tmem_addr }
    ensures { Decodes (paletted (tile_of picture.tile) picture.tlut picture.lane spot.odd spot.rel spot.x) bank.now result }
{
    let entry = Entry::of_spot(bank, picture, part, spot);
    entry.texel(load_palette_entry(bank, entry.at, picture.tlut))
}

// From the table of entries.
#[inline(always)]
pub(crate) fn entry_by(
    bank: &[u8; Bank::SIZE],
    picture: Picture,
    part: Part,
    table: &[u32; 256],
    spot: Spot,
) -> Texel
    requires part_is { part_number part ≡ index_part (tile_of picture.tile).fmt (tile_of picture.tile).siz }
    requires base_is { spot.base.0 ≡ 8 * (tile_of picture.tile).tmem_addr }
    requires entries { EntryTable (tile_of picture.tile) picture.tlut picture.lane bank.now table.now }
    ensures { Decodes (paletted (tile_of picture.tile) picture.tlut picture.lane spot.odd spot.rel spot.x) bank.now result }
{
    let entry = Entry::of_spot(bank, picture, part, spot);
    entry.texel(texel_bytes(table[entry.index]))
}

// From the halves of the mode's entries, of an index that is a whole byte.
#[inline(always)]
pub(crate) fn halves_by(
    bank: &[u8; Bank::SIZE],
    picture: Picture,
    halves: &[u32; 512],
    spot: Spot,
) -> Texel
    requires part_is { part_number Part.WholeByte ≡ index_part (tile_of picture.tile).fmt (tile_of picture.tile).siz }
    requires base_is { spot.base.0 ≡ 8 * (tile_of picture.tile).tmem_addr }
    requires halves_are { halves.now ≡ halves_of (entry_format picture.tlut) }
    ensures { Decodes (paletted (tile_of picture.tile) picture.tlut picture.lane spot.odd spot.rel spot.x) bank.now result }
{
    let entry = Entry::of_spot(bank, picture, Part::WholeByte, spot);
    let sum = half_sum(halves, bank[entry.at], bank[entry.at + 1]);
    entry.texel(texel_bytes(sum))
}
