// The refusals of a picture call beside those of its pair, in document 01's order.
ghost use Rattle.std.specs.Prelude.{◌≡◌, ◌*◌, ◌≤◌, IfOk, [], ◌∷◌, length};
ghost use Rattle.rules.specs.Calls.{not_bytes};
ghost use Rattle.rules.specs.Refusal.{first, ◌if◌};
ghost use Rattle.rules.specs.Tile.{bank_size};
ghost use Rattle.rdp.specs.Refused.{refusal_of};
ghost use Rattle.rdp.specs.View.{tile_of};
ghost use Rattle.decoder.specs.Asked.{room_tests};
ghost use Rattle.decoder.specs.Sizes.{texels_by};

use crate::plan::Plan;
use rdp::refusal::{Refusal, refuse};
use tmem::bank::Bank;

// The bank, if it is whole: else 1.
#[tactic(auto, unfolding(rules::specs::Refusal::first))]
pub(crate) fn whole_bank(bank: &[u8]) -> Result<&[u8; Bank::SIZE], Refusal>
    ensures refused { refusal_of result ≡ first ((1 if not_bytes bank_size bank.now) ∷ []) }
    ensures same { IfOk result (λ b. b.now ≡ bank.now) }
{
    bank.try_into().map_err(|_| Refusal::Length)
}

// The reads of the picture, if the buffers have room: else 6 for the picture's, then 7 for the trail's.
pub(crate) fn check_room(plan: Plan, out: &[u8], seen: &[u8]) -> Result<u32, Refusal>
    ensures refused { refusal_of result
        ≡ first (room_tests plan.observe (texels_by plan.lookup (tile_of plan.picture.tile)) plan.each out.now seen.now) }
    ensures reads { IfOk result
        (λ n. n ≡ plan.each * texels_by plan.lookup (tile_of plan.picture.tile)) }
{
    let texels = plan.texels();
    let reads = plan.each * texels;
    refuse(Refusal::Buffer, out.len() < 4 * texels)?;
    refuse(Refusal::Trail, plan.observe & (seen.len() / 2 < reads))?;
    Ok(reads as u32)
}
