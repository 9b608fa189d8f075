// A run of word loads, which block, tile and TLUT loads share.
ghost use Rattle.std.specs.Prelude.{◌≡◌, ◌<◌, ◌≤◌};
ghost use Rattle.tmem.specs.Part.{load_of, Counted};
ghost use Rattle.tmem.specs.Run.{Paced, image_run, word_at, run_stores};

use crate::memory::Memory;
use crate::place::LoadTile;
use crate::tally::Tally;
use crate::word::write_load_word;

// How a run goes on from word to word.
#[derive(Clone, Copy)]
pub(crate) struct Run {
    // The columns of a word.
    pub(crate) columns: usize,
    // The first word's row, and how many 2,048ths of a row a word advances.
    pub(crate) row: usize,
    pub(crate) dxt: usize,
    // The first word's place in the source, and how many bytes a word advances.
    pub(crate) place: usize,
    pub(crate) advance: usize,
    // One pair of source bytes fills all lanes of a word.
    pub(crate) replicate: bool,
}

// The dxt that advances a whole row a word.
const DXT_SWAP: usize = 0x800;

// The bytes of a word.
const WORD_BYTES: usize = 8;

// The column, row and source place of a word.
#[derive(Clone, Copy)]
struct WordAt {
    s: usize,
    t: usize,
    source: usize,
}

impl Run {
    // Words of an image, which stand one after the other in the source.
    pub(crate) fn of_image(image_siz: u32, row: usize, dxt: usize, place: usize) -> Run
        requires { image_siz ≤ 3 }
        ensures { result ≡ image_run image_siz row dxt place }
    {
        let columns = 16usize >> image_siz;
        Run {
            columns,
            row,
            dxt,
            place,
            advance: WORD_BYTES,
            replicate: false,
        }
    }

    // Where word w of the run stands.
    fn word(self, w: usize) -> WordAt
        requires paced { Paced self }
        requires w_bound { w < 2048 }
        ensures value { result ≡ word_at self w }
        ensures t_bound { result.t < 4096 }
    {
        let s = w * self.columns;
        let t = self.row + w * self.dxt / DXT_SWAP;
        let source = self.place + w * self.advance;
        WordAt { s, t, source }
    }
}

// The words of a run, one after the other; it answers its tally of stores.
pub(crate) fn write_words(
    memory: &mut Memory,
    src: &[u8],
    tile: LoadTile,
    run: Run,
    words: usize,
) -> Tally
    requires paced { Paced run }
    requires words_bound { words ≤ 2048 }
    ensures { Counted src.now (run_stores (load_of tile) run words) memory.old memory.new result }
{
    // A memory of its own: the compiler keeps its places at hand, and does not read them again after each store.
    let mut own = Memory {
        bank: &mut *memory.bank,
        written: &mut *memory.written,
        reasons: &mut *memory.reasons,
        label: memory.label,
    };
    let mut tally = Tally::none();
    for word in 0..words {
        let at = run.word(word);
        let more = write_load_word(&mut own, src, tile, at.s, at.t, at.source, run.replicate);
        tally = tally.plus(more);
    }
    tally
}
