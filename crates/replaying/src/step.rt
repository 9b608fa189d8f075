// What a record's key or load does, where no test refused the record.
ghost use Rattle.std.specs.Prelude.{◌≡◌, [], ◌∷◌, ◌≤◌, length};
ghost use Rattle.rules.specs.Key.{kept_count};
ghost use Rattle.rdp.specs.View.{tile_of, replay_answered};
ghost use Rattle.replaying.specs.Said.{load_done};

use crate::loading::Loading;
use key::cut::empty_key;
use key::key::key;
use rdp::answer::Replayed;
use rdp::refusal::Refusal;
use texdec::pair::Picture;
use tmem::bank::Bank;
use tmem::load::load;
use tmem::reason::Reason;

// The kept count of the picture's key, and the last number as it was. The key is cut for its count alone.
pub(crate) fn answer_key(bank: &[u8; Bank::SIZE], picture: Picture, last: u32) -> Replayed
    ensures count { result.count
        ≡ kept_count (tile_of picture.tile) picture.tlut picture.lane bank.now }
    ensures number { result.number ≡ last }
{
    let cut = key(
        bank,
        picture.tile,
        picture.tlut,
        picture.lane,
        &mut empty_key(),
    );
    Replayed {
        count: cut.unwrap(),
        number: last,
    }
}

// The load is carried out from its part of the companion file, after a load of the number `last`; its count of stores is answered, and
// its number. Where no number is left, the refusal 18.
pub(crate) fn carry_out(
    bank: &mut [u8; Bank::SIZE],
    written: &mut [u8; Bank::WRITTEN_SIZE],
    reasons: &mut [u8; Bank::REASONS_SIZE],
    asks: Loading,
    src: &[u8],
    last: u32,
) -> Result<Replayed, Refusal>
    requires { length src.now ≤ asks.size }
    ensures { replay_answered last result (bank.new ∷ written.new ∷ reasons.new ∷ [])
        ≡ load_done asks src.now last bank.old written.old reasons.old }
{
    let done = load(
        bank,
        written,
        reasons,
        src,
        asks.tile,
        asks.image,
        asks.asked,
        Reason::Ordinary,
        last,
    )?;
    Ok(Replayed {
        count: done.count,
        number: done.number,
    })
}
