// Rows of texels. Each is written through the part of the lent picture that starts at its first byte, and its reads through
// the part of the trail.
ghost use Rattle.std.specs.Prelude.{◌≡◌, ◌*◌, ◌<◌, ◌≤◌, length};
ghost use Rattle.rules.specs.Base.{over};
ghost use Rattle.rules.specs.Reading.{given, trail};
ghost use Rattle.decoder.specs.Rows.{four, placing, one_texel, one_row, all_rows, told};

use crate::format::Format;
use crate::kind::Kind;
use crate::painter::Painter;
use crate::part::Part;
use crate::place::row_at;
use crate::row::Row;
use crate::trail::note_reads;

// Four channels go to the front of the picture. Byte by byte: by `copy_from_slice`, which tests whether the two lie apart, most
// loops took a third more instructions. With no `inline(always)`: so the compiler joins the four stores before it puts them in line.
pub(crate) fn put_channels(channels: [u8; 4], out: &mut [u8])
    requires { 4 ≤ length out.old }
    ensures { out.new ≡ over (four channels) out.old }
{
    out[0] = channels[0];
    out[1] = channels[1];
    out[2] = channels[2];
    out[3] = channels[3];
}

impl<'a> Painter<'a> {
    // Texel i of a row goes to the front of the picture, and its reads to the front of the trail if it is observed.
    #[inline(always)]
    fn put_texel(self, observe: bool, row: Row, i: usize, out: &mut [u8], seen: &mut [u8])
        requires observe_value { observe ≡ self.plan.observe }
        requires i_bound { i < 4096 }
        requires in_bounds { 4 ≤ length out.old }
        requires step_in_bounds { self.plan.step ≤ length seen.old }
        ensures out_after { out.new ≡ over (given (one_texel self.entry.plan (placing row) i) self.entry.bank.now) out.old }
        ensures seen_after { seen.new
            ≡ over (told self.entry.plan.observe (trail (one_texel self.entry.plan (placing row) i) self.entry.bank.now)) seen.old }
    {
        let rel = row.rel(i);
        let x = row.x(i);
        let texel = self.texel(rel as u32, row.odd, x);
        let channels = texel.channels;
        put_channels(channels, out);
        if observe {
            let reads = texel.reads;
            note_reads(reads, texel.count, seen);
        }
    }

    // A row, from the front of picture and trail on.
    #[inline(always)]
    fn put_row(self, observe: bool, step: usize, row: Row, out: &mut [u8], seen: &mut [u8])
        requires observe_value { (observe ≡ self.plan.observe) × (step ≡ self.plan.step) }
        requires width_in_bounds { 4 * self.plan.width ≤ length out.old }
        requires width_in_bounds_2 { self.plan.step * self.plan.width ≤ length seen.old }
        ensures out_after { out.new ≡ over (given (one_row self.entry.plan (placing row)) self.entry.bank.now) out.old }
        ensures seen_after { seen.new
            ≡ over (told self.entry.plan.observe (trail (one_row self.entry.plan (placing row)) self.entry.bank.now)) seen.old }
    {
        let width = self.plan.width;
        // By index, as all loops that write: a proof loses what was written through `chunks_exact_mut`.
        for i in 0..width {
            let o = 4 * i;
            let s = step * i;
            self.put_texel(observe, row, i, &mut out[o..], &mut seen[s..]);
        }
    }

    // A row of its kind. `rows` names whether it is observed, with the trail's step, and here the kind is named: so the compiler makes a
    // loop for each, and joins no two of them. The kinds of small pictures, which could have a table and have none, share the last loop.
    fn row<const OBSERVE: bool>(self, step: usize, row: Row, out: &mut [u8], seen: &mut [u8])
        requires observe_value { (OBSERVE ≡ self.plan.observe) × (step ≡ self.plan.step) }
        requires width_in_bounds { 4 * self.plan.width ≤ length out.old }
        requires width_in_bounds_2 { self.plan.step * self.plan.width ≤ length seen.old }
        ensures out_after { out.new ≡ over (given (one_row self.entry.plan (placing row)) self.entry.bank.now) out.old }
        ensures seen_after { seen.new
            ≡ over (told self.entry.plan.observe (trail (one_row self.entry.plan (placing row)) self.entry.bank.now)) seen.old }
    {
        match self.kind {
            Kind::Direct(Format::Rgba32) => self
                .named(Kind::Direct(Format::Rgba32))
                .put_row(OBSERVE, step, row, out, seen),
            Kind::Direct(Format::Ci4) => self
                .named(Kind::Direct(Format::Ci4))
                .put_row(OBSERVE, step, row, out, seen),
            Kind::Direct(Format::Ci8) => self
                .named(Kind::Direct(Format::Ci8))
                .put_row(OBSERVE, step, row, out, seen),
            Kind::Direct(Format::Ci16) => self
                .named(Kind::Direct(Format::Ci16))
                .put_row(OBSERVE, step, row, out, seen),
            Kind::Direct(Format::Ia16) => self
                .named(Kind::Direct(Format::Ia16))
                .put_row(OBSERVE, step, row, out, seen),
            Kind::Direct(Format::I4) => self
                .named(Kind::Direct(Format::I4))
                .put_row(OBSERVE, step, row, out, seen),
            Kind::Direct(Format::I8) => self
                .named(Kind::Direct(Format::I8))
                .put_row(OBSERVE, step, row, out, seen),
            Kind::Rgba16By(halves) => self
                .named(Kind::Rgba16By(halves))
                .put_row(OBSERVE, step, row, out, seen),
            Kind::Ia4By(table) => self
                .named(Kind::Ia4By(table))
                .put_row(OBSERVE, step, row, out, seen),
            Kind::Ia8By(table) => self
                .named(Kind::Ia8By(table))
                .put_row(OBSERVE, step, row, out, seen),
            Kind::EntryBy(Part::WholeByte, table) => self
                .named(Kind::EntryBy(Part::WholeByte, table))
                .put_row(OBSERVE, step, row, out, seen),
            Kind::EntryBy(Part::Nibble, table) => self
                .named(Kind::EntryBy(Part::Nibble, table))
                .put_row(OBSERVE, step, row, out, seen),
            Kind::EntryBy(Part::HighNibble, table) => self
                .named(Kind::EntryBy(Part::HighNibble, table))
                .put_row(OBSERVE, step, row, out, seen),
            Kind::HalvesBy(halves) => self
                .named(Kind::HalvesBy(halves))
                .put_row(OBSERVE, step, row, out, seen),
            _ => self.put_row(OBSERVE, step, row, out, seen),
        }
    }

    // All rows, as `rows` names them. Row y is written through the part of the picture from 4 times width times y on, and of the trail
    // likewise.
    fn named_rows<const OBSERVE: bool>(self, step: usize, out: &mut [u8], seen: &mut [u8])
        requires observe_value { (OBSERVE ≡ self.plan.observe) × (step ≡ self.plan.step) }
        requires rows_in_bounds { 4 * self.plan.width * self.plan.rows ≤ length out.old }
        requires rows_in_bounds_2 { self.plan.step * self.plan.width * self.plan.rows ≤ length seen.old }
        ensures out_after { out.new ≡ over (given (all_rows self.entry.plan) self.entry.bank.now) out.old }
        ensures seen_after { seen.new
            ≡ over (told self.entry.plan.observe (trail (all_rows self.entry.plan) self.entry.bank.now)) seen.old }
    {
        let plan = self.plan;
        let rows = plan.rows;
        let bytes = 4 * plan.width;
        let told = plan.step * plan.width;
        for y in 0..rows {
            let row = row_at(plan.picture, plan.lookup, y);
            let o = bytes * y;
            let s = told * y;
            self.row::<OBSERVE>(step, row, &mut out[o..], &mut seen[s..]);
        }
    }

    // All rows. Whether they are observed is told apart at compile time: so the loops of a picture without a trail keep no number of a
    // trail, and those of 64 by 64 texels take four instructions less in a hundred.
    pub(crate) fn rows(self, out: &mut [u8], seen: &mut [u8])
        requires rows_in_bounds { 4 * self.plan.width * self.plan.rows ≤ length out.old }
        requires rows_in_bounds_2 { self.plan.step * self.plan.width * self.plan.rows ≤ length seen.old }
        ensures out_after { out.new ≡ over (given (all_rows self.entry.plan) self.entry.bank.now) out.old }
        ensures seen_after { seen.new
            ≡ over (told self.entry.plan.observe (trail (all_rows self.entry.plan) self.entry.bank.now)) seen.old }
    {
        if self.plan.observe {
            self.named_rows::<true>(self.plan.step, out, seen);
            return;
        }
        self.named_rows::<false>(0, out, seen);
    }
}
