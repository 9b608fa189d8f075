// What a word load takes from its source: eight bytes, and how many of them are made up, since they stand past the source's end.
ghost use Rattle.std.specs.Prelude.{◌≡◌, true, false, [], ◌∷◌, ◌<◌, length};
ghost use Rattle.std.specs.Int.{w64, from_le_bytes};
ghost use Rattle.tmem.specs.Part.{place_of, Taken};

// A word of the source: its eight bytes as one number, the first the lowest, since the compiler keeps one number at hand more easily.
#[derive(Clone, Copy)]
pub(crate) struct SourceWord {
    pub(crate) bytes: u64,
    pub(crate) made_up: u32,
}

// Eight bytes, of which the source's rest has only some.
fn cut_word(rest: &[u8]) -> SourceWord
    requires { length rest.now < 8 }
    ensures { Taken rest.now (place_of 0 false) result }
{
    let mut bytes = [0; 8];
    bytes[..rest.len()].copy_from_slice(rest);
    SourceWord {
        bytes: u64::from_le_bytes(bytes),
        made_up: 8 - rest.len() as u32,
    }
}

// Two bytes four times over.
fn pair(first: u8, second: u8, made_up: u32) -> SourceWord
    ensures bytes { result.bytes
        ≡ from_le_bytes w64 (first ∷ second ∷ first ∷ second ∷ first ∷ second ∷ first ∷ second ∷ []) }
    ensures made_up { result.made_up ≡ made_up }
{
    SourceWord {
        bytes: u16::from_le_bytes([first, second]) as u64 * 0x0001_0001_0001_0001,
        made_up,
    }
}

// A pair that fills all lanes. Each of its bytes counts as often as it is stored, four times.
fn pair_word(rest: &[u8]) -> SourceWord
    ensures { Taken rest.now (place_of 0 true) result }
{
    match rest {
        [first, second, ..] => pair(*first, *second, 0),
        [first] => pair(*first, 0, 4),
        [] => pair(0, 0, 8),
    }
}

// The word at `at`; where one pair fills all lanes, its bytes are that pair's. One test says whether all of them stand inside the
// source; only those of a word that is cut are counted.
pub(crate) fn source_word(src: &[u8], at: usize, replicate: bool) -> SourceWord
    ensures { Taken src.now (place_of at replicate) result }
{
    let rest = &src[at.min(src.len())..];
    if replicate {
        return pair_word(rest);
    }
    match rest.first_chunk() {
        Some(bytes) => SourceWord {
            bytes: u64::from_le_bytes(*bytes),
            made_up: 0,
        },
        None => cut_word(rest),
    }
}
