// A decoder that refers to the lent bank, and the function above it: its contract says nothing of a decoder.
ghost use Rattle.std.specs.Prelude.{[], ◌∷◌, ◌≡◌};
ghost use Rattle.rdp.specs.View.{tile_of, answered};
ghost use Rattle.decoder.specs.Asked.{outcome_by};

use crate::asked::Asked;
use crate::decode::decode_picture;
use rdp::refusal::Refusal;
use rdp::tile::TileDescriptor;

#[derive(Drop)]
pub(crate) struct BankDecoder<'a> {
    pub(crate) bytes: &'a [u8],
}

impl<'a> BankDecoder<'a> {
    // The decoder of a bank.
    pub(crate) fn of_bank(bytes: &'a [u8]) -> BankDecoder<'a>
        ensures { result.bytes ≡ bytes.entry }
    {
        BankDecoder { bytes }
    }

    // The picture that is asked for, with the trail of its reads if it is observed; else the trail stays as it was lent.
    pub(crate) fn picture(
        self,
        asked: Asked,
        out: &mut [u8],
        seen: &mut [u8],
    ) -> Result<u32, Refusal>
        ensures { answered result (out.new ∷ seen.new ∷ [])
            ≡ outcome_by asked.observe asked.lookup self.entry.bytes.now (tile_of asked.tile) asked.tlut_fmt asked.lane
            out.old seen.old }
    {
        decode_picture(self.bytes, asked, out, seen)
    }
}

// The picture of a tile, from a bank.
pub(crate) fn picture_of(
    bank: &[u8],
    tile: TileDescriptor,
    tlut_fmt: u32,
    lane: u32,
    lookup: bool,
    observe: bool,
    out: &mut [u8],
    seen: &mut [u8],
) -> Result<u32, Refusal>
    ensures { answered result (out.new ∷ seen.new ∷ [])
        ≡ outcome_by observe lookup bank.now (tile_of tile) tlut_fmt lane out.old seen.old }
{
    let asked = Asked {
        tile,
        tlut_fmt,
        lane,
        lookup,
        observe,
    };
    BankDecoder::of_bank(bank).picture(asked, out, seen)
}
