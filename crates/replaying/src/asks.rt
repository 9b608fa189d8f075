// What a replay's record asks for: a picture's key, or a load, whose source is a part of the companion file.
ghost use Rattle.std.specs.Prelude.{◌≡◌, true, [], ◌∷◌, ltb, drop, IfOk, MatchOption};
ghost use Rattle.rules.specs.Calls.{number_tests, pair_tests};
ghost use Rattle.rules.specs.Refusal.{◌if◌, first};
ghost use Rattle.rules.specs.Replay.{kind_in, lane_in, tile_in, mode_in, image_in, size_in, asks_key, outside_in, beyond, record_tests};
ghost use Rattle.rdp.specs.Refused.{refusal_of};
ghost use Rattle.rdp.specs.View.{tile_of};
ghost use Rattle.replaying.specs.Said.{SaysAsked, SaysKey, SaysLoad, Says};

use crate::loading::Loading;
use crate::run::{LENGTH_AT, OFFSET_AT, RECORD};
use rdp::refusal::{Refusal, refuse};
use rdp::tile::TileDescriptor;
use record::fields::{record_mode, record_tile};
use record::numbers::{byte_at, four_at, two_at};
use texdec::pair::Picture;
use tmem::asked::Asked;
use tmem::load::check_numbers;

// Where the lister's sixteen bytes start.
const HEAD_AT: usize = 2;

// What a record that no test of its own refuses asks for.
#[derive(Clone, Copy)]
pub(crate) enum Asks {
    Key(Picture),
    Load(Loading),
}

// The lister's sixteen bytes, and what stands after them.
fn head_in(bytes: &[u8]) -> &[u8]
    ensures { result.now ≡ drop 2 bytes.now }
{
    bytes.get(HEAD_AT..).unwrap_or(&[])
}

// What its load is asked for, and none for a key; or the refusal 10. A lookup table is loaded by the hardware or by rows, as document
// 01's rule picks.
// The kinds are 0 a block, 1 a tile, 2 a lookup table, 3 a key.
fn asked_in(bytes: &[u8]) -> Result<Option<Asked>, Refusal>
    ensures refused { refusal_of result ≡ first ((10 if ltb 3 (kind_in bytes.now)) ∷ []) }
    ensures said { IfOk result (λ o. MatchOption o (asks_key bytes.now ≡ true) (SaysAsked bytes.now)) }
{
    let words = two_at(bytes, 22) as usize;
    let rows = two_at(bytes, 24) as usize;
    let count = two_at(bytes, 26) as usize;
    let stride = two_at(bytes, 28) as usize;
    match byte_at(bytes, 0) {
        0 => Ok(Some(Asked::Block {
            dxt: two_at(bytes, 20) as usize,
            words,
        })),
        1 => Ok(Some(Asked::Tile {
            rows,
            words,
            stride,
        })),
        2 => Ok(Some(Asked::tlut(two_at(bytes, 18), count, rows, stride))),
        3 => Ok(None),
        _ => Err(Refusal::Kind),
    }
}

// The picture whose key it asks for, or the refusal: 2, 3, 5.
fn key_in(bytes: &[u8]) -> Result<Picture, Refusal>
    requires { asks_key bytes.now ≡ true }
    ensures refused { refusal_of result
        ≡ first (pair_tests (tile_in bytes.now) (mode_in bytes.now) (lane_in bytes.now)) }
    ensures said { IfOk result (SaysKey bytes.now) }
{
    let head = head_in(bytes);
    Picture::new(record_tile(head), record_mode(head), byte_at(bytes, 1))
}

// Its load, which is asked for that much, or the refusal: 2, 4, and next after 4 the refusal 11.
fn load_in(bytes: &[u8], asked: Asked, end: u64) -> Result<Loading, Refusal>
    requires { SaysAsked bytes.now asked }
    ensures refused { refusal_of result
        ≡ first (number_tests (size_in bytes.now) (tile_in bytes.now) (image_in bytes.now) (outside_in bytes.now)
        (beyond end bytes.now ∷ [])) }
    ensures said { IfOk result (SaysLoad bytes.now) }
{
    let tile = record_tile(head_in(bytes));
    let image = two_at(bytes, 18);
    let offset = four_at(bytes, OFFSET_AT) as u64;
    let size = four_at(bytes, LENGTH_AT) as u64;
    check_numbers(size as usize, tile, image, asked)?;
    refuse(Refusal::Beyond, end < offset + size)?;
    Ok(Loading {
        tile,
        image,
        asked,
        offset,
        size,
    })
}

// What a record asks for, over a companion file of `end` bytes, or its first refusal: 8, 10, then those of its kind.
pub(crate) fn asks_in(bytes: &[u8], end: u64) -> Result<Asks, Refusal>
    ensures refused { refusal_of result ≡ first (record_tests end bytes.now) }
    ensures said { IfOk result (Says bytes.now) }
{
    refuse(Refusal::Torn, bytes.len() < RECORD)?;
    match asked_in(bytes)? {
        None => Ok(Asks::Key(key_in(bytes)?)),
        Some(asked) => Ok(Asks::Load(load_in(bytes, asked, end)?)),
    }
}
