// Which picture a tile calls for, and how large it is.
ghost use Rattle.std.specs.Prelude.{cond, ◌≡◌, ◌^◌, max, ltb};
ghost use Rattle.rules.specs.Calls.{sampling_call};
ghost use Rattle.rules.specs.Sampling.{repeats, past_size, flag};
ghost use Rattle.rdp.specs.View.{tile_of, sampling_answered};

use rdp::answer::Sampled;
use rdp::refusal::Refusal;
use rdp::tile;
use rdp::tile::TileDescriptor;

// The Rust's `image`: its third number, 1 for a lookup, is `lookup`; its first two are the sizes, at least 1.
#[derive(Clone, Copy)]
pub struct TileSampling {
    pub lookup: bool,
    pub width: u32,
    pub height: u32,
}

// The extent to allocate for a picture.
#[derive(Clone, Copy)]
pub struct Extent {
    pub width: u32,
    pub height: u32,
}

// 2^mask exceeds the size. A mask above 31 exceeds every size.
fn exceeds(mask: u32, size: u32) -> bool
    ensures { result ≡ ltb (max size 1) (2 ^ mask) }
{
    if 31 < mask {
        return true;
    }
    size.max(1) < 1u32 << mask
}

// The axis repeats: it has a mask, and the clamp bit is clear.
pub(crate) fn repeats(cm: u32, mask: u32) -> bool
    ensures { result ≡ repeats cm mask }
{
    (mask != 0) & (cm & 2 == 0)
}

// The axis repeats past its size: 2^mask exceeds the size.
fn past_size(cm: u32, mask: u32, size: u32) -> bool
    ensures { result ≡ past_size cm mask size }
{
    if repeats(cm, mask) {
        return exceeds(mask, size);
    }
    false
}

// The rule's four tests, one after the other: most tiles are told by the first of each.
fn is_lookup(tile: TileDescriptor, tlut: u32) -> bool
    ensures { result ≡ flag (tile_of tile) tlut }
{
    if past_size(tile.cms, tile.masks, tile.width) {
        return true;
    }
    if past_size(tile.cmt, tile.maskt, tile.height) {
        return true;
    }
    if 2 <= tlut {
        return tile.fmt == 1;
    }
    let rgba32 = (tile.fmt == 0) & (tile.siz == 3);
    (256 < tile.height) & (tile.line.0 % 2 == 1) & !rgba32
}

impl TileSampling {
    pub fn from_tile(tile: TileDescriptor, tlut: u32) -> TileSampling
        ensures lookup_value { result.lookup ≡ flag (tile_of tile) tlut }
        ensures width_value { (result.width ≡ max tile.width 1) × (result.height ≡ max tile.height 1) }
    {
        TileSampling {
            lookup: is_lookup(tile, tlut),
            width: tile.width.max(1),
            height: tile.height.max(1),
        }
    }

    // 4,096 by 4 for a lookup, else the sizes. (The Rust multiplies by four lanes; that factor is left behind.)
    pub fn allocation_extent(self) -> Extent
        ensures { (result.width ≡ cond self.lookup 4096 self.width) × (result.height ≡ cond self.lookup 4 self.height) }
    {
        if self.lookup {
            return Extent {
                width: 4096,
                height: 4,
            };
        }
        Extent {
            width: self.width,
            height: self.height,
        }
    }
}

// Flag and allocation extent of a tile in a mode, or the refusal (2, 3).
pub fn sampling(tile: TileDescriptor, tlut: u32) -> Result<Sampled, Refusal>
    ensures { sampling_answered result ≡ sampling_call (tile_of tile) tlut }
{
    tile::check_tile_and_mode(tile, tlut)?;
    let found = TileSampling::from_tile(tile, tlut);
    let extent = found.allocation_extent();
    Ok(Sampled {
        lookup: found.lookup,
        width: extent.width,
        height: extent.height,
    })
}
