// The key of a picture.
ghost use Rattle.std.specs.Prelude.{◌≡◌, [], ◌∷◌, length, IfOk, OnOk};
ghost use Rattle.rules.specs.Reading.{trail};
ghost use Rattle.rules.specs.Picture.{visible_picture};
ghost use Rattle.rules.specs.Calls.{not_bytes, key_call};
ghost use Rattle.rules.specs.Key.{key, kept_count};
ghost use Rattle.rules.specs.Refusal.{◌if◌, first};
ghost use Rattle.rules.specs.Tile.{bank_size};
ghost use Rattle.key.specs.Notes.{no_notes, Notes};
ghost use Rattle.rdp.specs.Refused.{refusal_of};
ghost use Rattle.rdp.specs.View.{tile_of, answered};

use crate::cut::cut;
use crate::reads::no_notes;
use crate::rows::{note_lookup, note_plain};
use rdp::refusal::Refusal;
use rdp::tile::TileDescriptor;
use texdec::pair::Picture;
use tile_sampling::sampling::TileSampling;
use tile_sampling::visible::visible;
use tmem::bank::Bank;

// Bytes that are a bank's or a key's by their number, or the refusal.
#[tactic(auto, unfolding(rules::specs::Refusal::first))]
pub(crate) fn whole(bytes: &[u8]) -> Result<&[u8; Bank::SIZE], Refusal>
    ensures refused { refusal_of result ≡ first ((1 if not_bytes bank_size bytes.now) ∷ []) }
    ensures kept { IfOk result (λ b. b.now ≡ bytes.now) }
    ensures sized { OnOk result (length bytes.now ≡ bank_size) }
{
    bytes.try_into().map_err(|_| Refusal::Length)
}

// Notes what the visible picture reads: the lookup, or what a renderer shows of the plain one. The flag is the whole tile's.
pub(crate) fn note_picture(bank: &[u8; Bank::SIZE], notes: &mut [u8; Bank::SIZE], picture: Picture)
    requires { notes.old ≡ no_notes }
    ensures { Notes notes.new
        (trail (visible_picture (tile_of picture.tile) picture.tlut picture.lane) bank.now) }
{
    let sampling = TileSampling::from_tile(picture.tile, picture.tlut);
    if sampling.lookup {
        note_lookup(bank, notes, picture);
        return;
    }
    let shown = Picture {
        tile: visible(picture.tile),
        tlut: picture.tlut,
        lane: picture.lane,
    };
    note_plain(bank, notes, shown);
}

// The key of that picture, and its kept count.
pub(crate) fn cut_picture(
    bank: &[u8; Bank::SIZE],
    picture: Picture,
    out: &mut [u8; Bank::SIZE],
) -> u32
    ensures key_value { out.new ≡ key (tile_of picture.tile) picture.tlut picture.lane bank.now }
    ensures count_value { result
        ≡ kept_count (tile_of picture.tile) picture.tlut picture.lane bank.now }
{
    let mut notes = no_notes();
    note_picture(bank, &mut notes, picture);
    cut(bank, &notes, out)
}

// The key of a picture, with the count of kept bytes; or the refusal (1, 2, 3, 5), and `out` as it was lent.
pub fn key(
    bank: &[u8],
    tile: TileDescriptor,
    tlut: u32,
    lane: u32,
    out: &mut [u8],
) -> Result<u32, Refusal>
    ensures { answered result (out.new ∷ []) ≡ key_call bank.now (tile_of tile) tlut lane out.old }
{
    let bank = whole(bank)?;
    let Some(out) = out.as_mut_array() else {
        return Err(Refusal::Length);
    };
    let picture = Picture::new(tile, tlut, lane)?;
    Ok(cut_picture(bank, picture, out))
}
