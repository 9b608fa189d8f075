// A line as text: decimal numbers with a space between them and a line's end after the last.
ghost use Rattle.std.specs.Prelude.{◌≡◌, [], ◌∷◌, ◌++◌, ◌+◌, ◌≤◌, length, take};
ghost use Rattle.rules.specs.Base.{over};
ghost use Rattle.rules.specs.Lister.{line_room, line_text};
ghost use Rattle.listing.specs.View.{numbers_of};

use crate::line::Listed;
use decimal::number::put_number;
use rdp::refusal::Refusal;

// The four numbers of a line, from `at` on.
fn put_numbers(refusal: u32, flag: u32, kept: u32, texels: u32, out: &mut [u8], at: usize) -> usize
    requires { at + line_room ≤ length out.old }
    ensures value { result ≡ at + length (line_text (refusal ∷ flag ∷ kept ∷ texels ∷ [])) }
    ensures upper_bound { result ≤ at + line_room }
    ensures out_after { out.new
        ≡ over (take at out.old ++ line_text (refusal ∷ flag ∷ kept ∷ texels ∷ [])) out.old }
{
    let at = put_number(refusal, b' ', out, at).unwrap();
    let at = put_number(flag, b' ', out, at).unwrap();
    let at = put_number(kept, b' ', out, at).unwrap();
    put_number(texels, b'\n', out, at).unwrap()
}

// A line's text from `at` on. The new end is answered.
pub(crate) fn put_line(line: Result<Listed, Refusal>, out: &mut [u8], at: usize) -> usize
    requires { at + line_room ≤ length out.old }
    ensures value { result ≡ at + length (line_text (numbers_of line)) }
    ensures upper_bound { result ≤ at + line_room }
    ensures out_after { out.new ≡ over (take at out.old ++ line_text (numbers_of line)) out.old }
{
    match line {
        Ok(said) => put_numbers(0, said.lookup as u32, said.kept, said.texels, out, at),
        Err(refusal) => put_numbers(refusal.number(), 0, 0, 0, out, at),
    }
}
