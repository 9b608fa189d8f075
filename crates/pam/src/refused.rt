// The refusals of writing and of reading.
ghost use Rattle.std.specs.Prelude.{◌≡◌, ◌≤◌, length};
ghost use Rattle.rules.specs.Tile.{side_limit};
ghost use Rattle.rules.specs.Refusal.{first};
ghost use Rattle.rules.specs.Pam.{pam_header, texel_bytes, pam_write_tests};
ghost use Rattle.rdp.specs.Refused.{refusal_of};
ghost use Rattle.pam.specs.Gather.{other_by};
ghost use Rattle.pam.specs.Tests.{read_tests};

use crate::header::Header;
use crate::line::Tuple;
use rdp::refusal::{Refusal, refuse};
use rdp::tile::sides_outside;

// The bytes of a picture's texels.
pub(crate) fn texel_bytes(width: u32, height: u32) -> usize
    requires wide { width ≤ side_limit }
    requires high { height ≤ side_limit }
    ensures { result ≡ texel_bytes width height }
{
    4 * (width as usize * height as usize)
}

// Of a picture's size, the picture, the bytes of its header, and the file's buffer: 2, 12, 6.
pub(crate) fn check_write(
    width: u32,
    height: u32,
    picture: &[u8],
    header: usize,
    file: &[u8],
) -> Result<(), Refusal>
    requires { header ≡ length (pam_header width height) }
    ensures { refusal_of result ≡ first (pam_write_tests width height picture.now file.now) }
{
    refuse(Refusal::Tile, sides_outside(width, height))?;
    let texels = texel_bytes(width, height);
    refuse(Refusal::ZeroSide, (width == 0) | (height == 0))?;
    refuse(Refusal::Buffer, picture.len() < texels)?;
    refuse(Refusal::Buffer, file.len() < header + texels)
}

fn has_other_tuples(header: Header) -> bool
    ensures { result ≡ other_by header }
{
    !((header.depth == 4) & (header.maxval == 255) & (header.tuple == Some(Tuple::RgbAlpha)))
}

// Of a file's header that does not break the description, the file's bytes and those of the picture's buffer: 14, 2, 15, 6.
pub(crate) fn check_read(header: Header, file: usize, picture: usize) -> Result<(), Refusal>
    requires { header.size ≤ file }
    ensures { refusal_of result ≡ first (read_tests header file picture) }
{
    refuse(Refusal::Tuples, has_other_tuples(header))?;
    refuse(Refusal::Tile, sides_outside(header.width, header.height))?;
    let texels = texel_bytes(header.width, header.height);
    refuse(Refusal::Texels, file - header.size < texels)?;
    refuse(Refusal::Buffer, picture < texels)
}
