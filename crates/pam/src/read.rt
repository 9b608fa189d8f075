// Reading a picture from a file.
ghost use Rattle.std.specs.Prelude.{◌≡◌, [], ◌∷◌, ◌+◌, ◌≤◌, length, take, drop};
ghost use Rattle.rules.specs.Base.{over};
ghost use Rattle.rules.specs.Pam.{pam_read_call};
ghost use Rattle.rdp.specs.View.{size_answered};

use crate::header::read_header;
use crate::refused::{check_read, texel_bytes};
use rdp::answer::Size;
use rdp::refusal::Refusal;

// The `count` bytes of the file from `start` on, over the picture's front.
fn copy_texels(file: &[u8], start: usize, count: usize, picture: &mut [u8])
    requires in_file { start + count ≤ length file.now }
    requires in_picture { count ≤ length picture.old }
    ensures { picture.new ≡ over (take count (drop start file.now)) picture.old }
{
    let end = start + count;
    picture[..count].copy_from_slice(&file[start..end]);
}

// The picture in a file: its texels at the front of `picture`, and its size. Bytes after the texels are not read.
pub fn read_pam(file: &[u8], picture: &mut [u8]) -> Result<Size, Refusal>
    ensures { size_answered result (picture.new ∷ []) ≡ pam_read_call file.now picture.old }
{
    let header = read_header(file).ok_or(Refusal::Header)?;
    check_read(header, file.len(), picture.len())?;
    let width = header.width;
    let height = header.height;
    let count = texel_bytes(width, height);
    copy_texels(file, header.size, count, picture);
    Ok(Size { width, height })
}
