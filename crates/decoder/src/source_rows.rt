// Rows of a source. Each is written through the part of the lent picture that starts at its first byte.
ghost use Rattle.std.specs.Prelude.{◌≡◌, true, ◌++◌, ◌+◌, ◌*◌, ◌%◌, ◌<◌, ◌≤◌, length};
ghost use Rattle.rules.specs.Base.{over};
ghost use Rattle.rules.specs.Reading.{given};
ghost use Rattle.rules.specs.Picture.{format_reads};
ghost use Rattle.rdp.specs.View.{tile_of};
ghost use Rattle.decoder.specs.Formats.{rule_of};
ghost use Rattle.decoder.specs.Rows.{four};
ghost use Rattle.decoder.specs.Linear.{linear_bytes, linear_part, linear_rows};

use crate::format::Format;
use crate::rows::put_channels;
use crate::source_row::SourceRow;
use rdp::tile::TileDescriptor;

// Eight channels go to the front of the picture. Byte by byte: by `put_channels` twice, short rows of IA4 took nearly twice the
// instructions.
fn put_two(first: [u8; 4], second: [u8; 4], out: &mut [u8])
    requires { 8 ≤ length out.old }
    ensures { out.new ≡ over (four first ++ four second) out.old }
{
    out[0] = first[0];
    out[1] = first[1];
    out[2] = first[2];
    out[3] = first[3];
    out[4] = second[0];
    out[5] = second[1];
    out[6] = second[2];
    out[7] = second[3];
}

impl<'a> SourceRow<'a> {
    // The row, from the front of the picture on.
    #[inline(always)]
    fn put_texels(self, out: &mut [u8])
        requires { 4 * self.width ≤ length out.old }
        ensures { out.new
            ≡ over (given (linear_part (rule_of self.entry.format) self.entry.palette self.entry.start self.entry.width)
            self.entry.source.now) out.old }
    {
        let width = self.width as usize;
        // By index, as all loops that write: a proof loses what was written through `chunks_exact_mut`.
        for x in 0..width {
            let o = 4 * x;
            let channels = self.texel(x);
            put_channels(channels, &mut out[o..]);
        }
    }

    // A row of pairs of texels, both of a pair at a step: two of four bits have one byte, which is then read once.
    #[inline(always)]
    fn put_pairs(self, out: &mut [u8])
        requires in_bounds { 4 * self.width ≤ length out.old }
        requires even { self.width % 2 ≡ 0 }
        requires reads { format_reads (rule_of self.format) ≡ 1 }
        ensures { out.new
            ≡ over (given (linear_part (rule_of self.entry.format) self.entry.palette self.entry.start self.entry.width)
            self.entry.source.now) out.old }
    {
        let pairs = self.width as usize / 2;
        for k in 0..pairs {
            let x = 2 * k;
            let o = 8 * k;
            let first = self.byte_texel(x);
            let second = self.byte_texel(x + 1);
            put_two(first, second, &mut out[o..]);
        }
    }

    // A row of four bits a texel. One of an odd width goes texel by texel.
    #[inline(always)]
    fn put_nibbles(self, out: &mut [u8])
        requires in_bounds { 4 * self.width ≤ length out.old }
        requires reads { format_reads (rule_of self.format) ≡ 1 }
        ensures { out.new
            ≡ over (given (linear_part (rule_of self.entry.format) self.entry.palette self.entry.start self.entry.width)
            self.entry.source.now) out.old }
    {
        if self.width % 2 == 0 {
            self.put_pairs(out);
            return;
        }
        self.put_texels(out);
    }

    // A row that is whole. Its format is named, so that the compiler makes a loop for each.
    fn put_whole(self, out: &mut [u8])
        requires in_bounds { 4 * self.width ≤ length out.old }
        requires there { self.start + linear_bytes (rule_of self.format) self.width ≤ length self.source.now }
        ensures { out.new
            ≡ over (given (linear_part (rule_of self.entry.format) self.entry.palette self.entry.start self.entry.width)
            self.entry.source.now) out.old }
    {
        match self.format {
            Format::Rgba16 => self.whole(Format::Rgba16).put_texels(out),
            Format::Rgba32 => self.whole(Format::Rgba32).put_texels(out),
            Format::Ci4 => self.whole(Format::Ci4).put_nibbles(out),
            Format::Ci8 => self.whole(Format::Ci8).put_texels(out),
            Format::Ci16 => self.whole(Format::Ci16).put_texels(out),
            Format::Ia4 => self.whole(Format::Ia4).put_nibbles(out),
            Format::Ia8 => self.whole(Format::Ia8).put_texels(out),
            Format::Ia16 => self.whole(Format::Ia16).put_texels(out),
            Format::I4 => self.whole(Format::I4).put_nibbles(out),
            Format::I8 => self.whole(Format::I8).put_texels(out),
        }
    }

    // A row that starts at or past the source's end: one texel again and again.
    fn put_past(self, out: &mut [u8])
        requires in_bounds { 4 * self.width ≤ length out.old }
        requires past { length self.source.now ≤ self.start }
        requires width_nonzero { 0 < self.width }
        ensures { out.new
            ≡ over (given (linear_part (rule_of self.entry.format) self.entry.palette self.entry.start self.entry.width)
            self.entry.source.now) out.old }
    {
        let channels = self.texel(0);
        let width = self.width as usize;
        for x in 0..width {
            let o = 4 * x;
            put_channels(channels, &mut out[o..]);
        }
    }

    // A row: whole, past the source's end, or cut by it.
    fn put(self, out: &mut [u8])
        requires width_bound { self.width ≤ 16384 }
        requires in_bounds { 4 * self.width ≤ length out.old }
        ensures { out.new
            ≡ over (given (linear_part (rule_of self.entry.format) self.entry.palette self.entry.start self.entry.width)
            self.entry.source.now) out.old }
    {
        if self.start + self.bytes() <= self.source.len() {
            self.put_whole(out);
            return;
        }
        if (self.source.len() <= self.start) & (0 < self.width) {
            self.put_past(out);
            return;
        }
        self.put_texels(out);
    }
}

// All rows of a tile. Row y starts at y times the stride, and is written through the part of the picture from 4 times width times y on.
pub(crate) fn put_source_rows(
    source: &[u8],
    format: Format,
    tile: TileDescriptor,
    stride: usize,
    out: &mut [u8],
)
    requires palette_bound { tile.palette ≤ 15 }
    requires stride_bound { stride ≤ 65535 }
    requires sides { (tile.width ≤ 16384) × (tile.height ≤ 16384) }
    requires rows_in_bounds { 4 * tile.width * tile.height ≤ length out.old }
    ensures { out.new
        ≡ over (given (linear_rows (rule_of format) tile.palette stride tile.width tile.height) source.now) out.old }
{
    let width = tile.width as usize;
    let rows = tile.height as usize;
    let bytes = 4 * width;
    for y in 0..rows {
        let row = SourceRow {
            source,
            whole: false,
            format,
            palette: tile.palette,
            start: y * stride,
            width: tile.width,
        };
        let o = bytes * y;
        row.put(&mut out[o..]);
    }
}
