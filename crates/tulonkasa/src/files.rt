// Pictures as files in the Netpbm PAM format.
ghost use Rattle.std.specs.Prelude.{◌≡◌, [], ◌∷◌};
ghost use Rattle.rules.specs.Pam.{pam_write_call, pam_read_call};
ghost use Rattle.tulonkasa.specs.View.{answered, size_answered};

use crate::answer::{Answer, SizeAnswer};

// A picture as a file; the count of its bytes is answered.
#[unsafe(no_mangle)]
pub extern "C" fn tk_write_pam(width: u32, height: u32, picture: &[u8], file: &mut [u8]) -> Answer
    ensures { answered result (file.new ∷ []) ≡ pam_write_call width height picture.now file.old }
{
    pam::write::write_pam(width, height, picture, file).into()
}

// The picture in a file; its width and height are answered.
#[unsafe(no_mangle)]
pub extern "C" fn tk_read_pam(file: &[u8], picture: &mut [u8]) -> SizeAnswer
    ensures { size_answered result (picture.new ∷ []) ≡ pam_read_call file.now picture.old }
{
    pam::read::read_pam(file, picture).into()
}
