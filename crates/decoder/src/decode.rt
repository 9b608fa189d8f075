// A picture that is asked for: refused, or decoded by a plan.
ghost use Rattle.std.specs.Prelude.{[], ◌∷◌, ◌≡◌};
ghost use Rattle.rdp.specs.View.{tile_of, answered};
ghost use Rattle.decoder.specs.Asked.{outcome_by};

use crate::asked::Asked;
use crate::paint::paint;
use crate::plan::Plan;
use crate::refused::{check_room, whole_bank};
use rdp::refusal::Refusal;
use texdec::pair::Picture;

// The picture, with the trail of its reads if it is observed, or the refusal with both as they were lent.
pub(crate) fn decode_picture(
    bank: &[u8],
    asked: Asked,
    out: &mut [u8],
    seen: &mut [u8],
) -> Result<u32, Refusal>
    ensures { answered result (out.new ∷ seen.new ∷ [])
        ≡ outcome_by asked.observe asked.lookup bank.now (tile_of asked.tile) asked.tlut_fmt asked.lane out.old seen.old }
{
    let whole = whole_bank(bank)?;
    let picture = Picture::new(asked.tile, asked.tlut_fmt, asked.lane)?;
    let plan = Plan::new(picture, asked.lookup, asked.observe);
    let reads = check_room(plan, out, seen)?;
    paint(whole, plan, out, seen);
    Ok(reads)
}
