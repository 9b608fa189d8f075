// The lister's text for an input, or for a piece of one that ends with a whole record.
ghost use Rattle.std.specs.Prelude.{◌≡◌, [], ◌∷◌, ◌+◌, ◌*◌, ◌/◌, ◌≤◌, length};
ghost use Rattle.rules.specs.Base.{over};
ghost use Rattle.rules.specs.Lister.{record_size, line_room, listing, list_call};
ghost use Rattle.rdp.specs.View.{text_answered};
ghost use Rattle.listing.specs.View.{record_texts};

use crate::line::record_line;
use crate::text::put_line;
use decimal::number::NUMBER_ROOM;
use rdp::refusal::{Refusal, refuse};
use record::fields::HEAD;
use tmem::bank::Bank;

// The bytes of a record.
pub const RECORD: usize = HEAD + Bank::SIZE;

// The bytes of the longest line: four numbers with a byte after each.
pub const LINE_ROOM: usize = 4 * NUMBER_ROOM;

// The lines of records, at the front of `out`.
fn put_records(records: &[[u8; RECORD]], out: &mut [u8]) -> usize
    requires { line_room * length records.now ≤ length out.old }
    ensures value { result ≡ length (record_texts records.now) }
    ensures upper_bound { result ≤ line_room * length records.now }
    ensures out_after { out.new ≡ over (record_texts records.now) out.old }
{
    let mut at = 0;
    for record in records {
        at = put_line(record_line(record), out, at);
    }
    at
}

// The lines of every whole record, and a torn tail's, at the front of `out`.
fn put_lines(input: &[u8], out: &mut [u8]) -> usize
    requires { line_room * (length input.now / record_size + 1) ≤ length out.old }
    ensures value { result ≡ length (listing input.now) }
    ensures out_after { out.new ≡ over (listing input.now) out.old }
{
    let (records, tail) = input.as_chunks();
    let at = put_records(records, out);
    if tail.is_empty() {
        return at;
    }
    put_line(Err(Refusal::Torn), out, at)
}

// The lister's text for an input at the front of `out`, and its length. Where there is less room than a line for each record and
// one for a torn tail, the refusal 6, and `out` as it was lent.
pub fn list(input: &[u8], out: &mut [u8]) -> Result<usize, Refusal>
    ensures { text_answered result (out.new ∷ []) ≡ list_call input.now out.old }
{
    let lines = input.len() / RECORD + 1;
    refuse(Refusal::Buffer, out.len() < LINE_ROOM * lines)?;
    Ok(put_lines(input, out))
}
