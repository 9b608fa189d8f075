// Writing a picture as a file.
ghost use Rattle.std.specs.Prelude.{◌≡◌, [], ◌∷◌, ◌++◌, ◌+◌, ◌≤◌, length, take};
ghost use Rattle.rules.specs.Base.{over};
ghost use Rattle.rules.specs.Pam.{pam_header, pam_write_call};
ghost use Rattle.rdp.specs.View.{answered};
ghost use Rattle.pam.specs.Tests.{header_most};

use crate::refused::{check_write, texel_bytes};
use decimal::number::put_number;
use rdp::refusal::Refusal;

// The bytes of the longest header: 63, and two numbers of ten digits.
const HEADER_MOST: usize = 63 + 2 * 10;

// A part of a text from `at` on. The new end is answered.
fn put_part(part: &[u8], out: &mut [u8], at: usize) -> usize
    requires { at + length part.now ≤ length out.old }
    ensures value { result ≡ at + length part.now }
    ensures out_after { out.new ≡ over (take at out.old ++ part.now) out.old }
{
    let end = at + part.len();
    out[at..end].copy_from_slice(part);
    end
}

// The header of a picture at the front of `out`, and its length.
fn put_header(width: u32, height: u32, out: &mut [u8]) -> usize
    requires { header_most ≤ length out.old }
    ensures value { result ≡ length (pam_header width height) }
    ensures short { result ≤ header_most }
    ensures out_after { out.new ≡ over (pam_header width height) out.old }
{
    let at = put_part(b"P7\nWIDTH ", out, 0);
    let at = put_number(width, b'\n', out, at).unwrap();
    let at = put_part(b"HEIGHT ", out, at);
    let at = put_number(height, b'\n', out, at).unwrap();
    put_part(
        b"DEPTH 4\nMAXVAL 255\nTUPLTYPE RGB_ALPHA\nENDHDR\n",
        out,
        at,
    )
}

// The header, and the `count` bytes of the texels after it. The length of both is answered.
fn put_file(header: &[u8], picture: &[u8], count: usize, file: &mut [u8]) -> usize
    requires in_picture { count ≤ length picture.now }
    requires room { length header.now + count ≤ length file.old }
    ensures value { result ≡ length header.now + count }
    ensures file_after { file.new ≡ over (header.now ++ take count picture.now) file.old }
{
    let at = put_part(header, file, 0);
    put_part(&picture[..count], file, at)
}

// A picture as a file at the front of `file`. The count of its bytes is answered.
pub fn write_pam(width: u32, height: u32, picture: &[u8], file: &mut [u8]) -> Result<u32, Refusal>
    ensures { answered result (file.new ∷ [])
        ≡ pam_write_call width height picture.now file.old }
{
    let mut header = [0u8; HEADER_MOST];
    let size = put_header(width, height, &mut header);
    check_write(width, height, picture, size, file)?;
    let count = texel_bytes(width, height);
    let end = put_file(&header[..size], picture, count, file);
    Ok(end as u32)
}
