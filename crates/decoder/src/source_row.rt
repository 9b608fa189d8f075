// A row of a source, for the linear decoding, and its texels.
ghost use Rattle.std.specs.Prelude.{◌≡◌, true, ◌+◌, ◌*◌, ◌<◌, ◌≤◌, length, get_or};
ghost use Rattle.rules.specs.Reading.{given};
ghost use Rattle.rules.specs.Texdec.{rgba32};
ghost use Rattle.rules.specs.Linear.{linear_texel};
ghost use Rattle.rules.specs.Picture.{format_reads};
ghost use Rattle.decoder.specs.Formats.{rule_of};
ghost use Rattle.decoder.specs.Linear.{byte_of, linear_bytes};

use crate::format::Format;

// So many texels that start at a place of a source. A row that is whole has all its bytes there.
#[derive(Clone, Copy)]
pub(crate) struct SourceRow<'a> {
    pub(crate) source: &'a [u8],
    pub(crate) whole: bool,
    pub(crate) format: Format,
    pub(crate) palette: u32,
    pub(crate) start: usize,
    // Narrow: of a width that may be any `usize` the compiler tests at each row whether the places of its texels wrap, and decodes a
    // row of eight texels one by one.
    pub(crate) width: u32,
    pub(crate) ghost palette_bound: { palette ≤ 15 },
    pub(crate) ghost near: { start + 4 * width ≤ 4294967296 },
    pub(crate) ghost there: { whole ≡ true
        → start + linear_bytes (rule_of format) width ≤ length source.now },
}

impl<'a> SourceRow<'a> {
    // The same as a whole row, its format named, so that the compiler sees which it is.
    #[inline(always)]
    pub(crate) fn whole(self, format: Format) -> SourceRow<'a>
        requires format_is { format ≡ self.format }
        requires there { self.start + linear_bytes (rule_of format) self.width ≤ length self.source.now }
        ensures whole { result.whole ≡ true }
        ensures source { result.source ≡ self.entry.source }
        ensures format { result.format ≡ self.entry.format }
        ensures palette { result.palette ≡ self.entry.palette }
        ensures start { result.start ≡ self.entry.start }
        ensures width { result.width ≡ self.entry.width }
    {
        SourceRow {
            source: self.source,
            whole: true,
            format,
            palette: self.palette,
            start: self.start,
            width: self.width,
        }
    }

    // The byte at a place, 0 past the end. A whole row has it, and is not tested.
    #[inline(always)]
    fn byte(self, at: usize) -> u8
        requires { self.whole ≡ true → at < length self.source.now }
        ensures { result ≡ get_or self.entry.source.now at 0 }
    {
        if self.whole {
            return self.source[at];
        }
        self.source.get(at).copied().unwrap_or(0)
    }

    // The byte of the row that a texel of one byte stands in: two of four bits share one.
    #[inline(always)]
    fn byte_of(self, x: usize) -> usize
        ensures value { result ≡ byte_of (rule_of self.entry.format) x }
        ensures upper_bound { result ≤ x }
    {
        if self.format.halved() { x / 2 } else { x }
    }

    // The bytes that the row takes.
    pub(crate) fn bytes(self) -> usize
        requires { self.width ≤ 16384 }
        ensures value { result ≡ linear_bytes (rule_of self.entry.format) self.entry.width }
        ensures upper_bound { result ≤ 65536 }
    {
        if self.format.halved() {
            (self.width as usize + 1) / 2
        } else {
            self.format.reads() * self.width as usize
        }
    }

    // A texel of one byte, or of half of one.
    #[inline(always)]
    pub(crate) fn byte_texel(self, x: usize) -> [u8; 4]
        requires reads { format_reads (rule_of self.format) ≡ 1 }
        requires x_bound { x < self.width }
        ensures { result
            ≡ given (linear_texel (rule_of self.entry.format) self.entry.palette self.entry.start x)
            self.entry.source.now }
    {
        let byte = self.byte(self.start + self.byte_of(x));
        self.format.of_byte(self.palette, x, byte)
    }

    // A texel of two bytes, the high one first.
    #[inline(always)]
    fn pair_texel(self, x: usize) -> [u8; 4]
        requires reads { format_reads (rule_of self.format) ≡ 2 }
        requires x_bound { x < self.width }
        ensures { result
            ≡ given (linear_texel (rule_of self.entry.format) self.entry.palette self.entry.start x)
            self.entry.source.now }
    {
        let at = self.start + 2 * x;
        let hi = self.byte(at);
        let lo = self.byte(at + 1);
        self.format.of_pair(hi, lo)
    }

    // A texel of four bytes, which are its channels.
    #[inline(always)]
    fn rgba32_texel(self, x: usize) -> [u8; 4]
        requires format_is { rgba32 ≡ rule_of self.format }
        requires x_bound { x < self.width }
        ensures { result
            ≡ given (linear_texel (rule_of self.entry.format) self.entry.palette self.entry.start x)
            self.entry.source.now }
    {
        let at = self.start + 4 * x;
        let r = self.byte(at);
        let g = self.byte(at + 1);
        let b = self.byte(at + 2);
        let a = self.byte(at + 3);
        [r, g, b, a]
    }

    // Texel x.
    #[inline(always)]
    pub(crate) fn texel(self, x: usize) -> [u8; 4]
        requires { x < self.width }
        ensures { result
            ≡ given (linear_texel (rule_of self.entry.format) self.entry.palette self.entry.start x)
            self.entry.source.now }
    {
        let reads = self.format.reads();
        match reads {
            1 => self.byte_texel(x),
            2 => self.pair_texel(x),
            _ => self.rgba32_texel(x),
        }
    }
}
