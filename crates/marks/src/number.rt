// The numbers of the bytes that a map marks.
ghost use Rattle.std.specs.Prelude.{◌≡◌};
ghost use Rattle.marks.specs.Number.{number_byte};

// Byte i of a written map in which the marked addresses of a map have numbers: by turns their high byte is 1 and their low one.
pub fn number_byte(map: &[u8], i: usize) -> u8
    ensures { result ≡ number_byte map.now i }
{
    let at = i / 2;
    if at / 8 < map.len() && i % 2 == at % 2 {
        map[at / 8] >> at % 8 & 1
    } else {
        0
    }
}
