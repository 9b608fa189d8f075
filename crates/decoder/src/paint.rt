// The table that a picture's texels are taken from, by its format and its texels, and the picture by it.
ghost use Rattle.std.specs.Prelude.{◌≡◌, ◌*◌, ◌<◌, ◌≤◌, length};
ghost use Rattle.rules.specs.Base.{over};
ghost use Rattle.rules.specs.Reading.{given, trail};
ghost use Rattle.decoder.specs.Rows.{all_rows, told};

use crate::format::Format;
use crate::kind::Kind;
use crate::painter::Painter;
use crate::part::Part;
use crate::plan::Plan;
use crate::table::{entry_table, halves_of};
use texdec::ia4::ia4_table;
use texdec::ia8::ia8_table;
use texdec::rgba16::rgba16_halves;
use tmem::bank::Bank;

// Up to so many texels no table pays for itself, and up to so many more the halves of the entries cost less than all 256 entries.
// They were chosen by time (docs/SPEED.md): the picture is the same by each.
const NO_TABLE_UP_TO: usize = 16;

const HALVES_UP_TO: usize = 256;

// All rows without a lookup table, by the table of the format that pays for so many texels, if any does.
fn paint_direct(bank: &[u8; Bank::SIZE], plan: Plan, texels: usize, out: &mut [u8], seen: &mut [u8])
    requires mode { plan.picture.tlut < 2 }
    requires rows_in_bounds { 4 * plan.width * plan.rows ≤ length out.old }
    requires rows_in_bounds_2 { plan.step * plan.width * plan.rows ≤ length seen.old }
    ensures out_after { out.new ≡ over (given (all_rows plan) bank.now) out.old }
    ensures seen_after { seen.new ≡ over (told plan.observe (trail (all_rows plan) bank.now)) seen.old }
{
    let format = Format::of_tile(plan.picture.tile);
    if texels <= NO_TABLE_UP_TO {
        return Painter::new(bank, plan, Kind::Direct(format)).rows(out, seen);
    }
    match format {
        Format::Rgba16 => Painter::new(bank, plan, Kind::Rgba16By(&rgba16_halves())).rows(
            out, seen,
        ),
        Format::Ia4 => Painter::new(bank, plan, Kind::Ia4By(&ia4_table())).rows(out, seen),
        Format::Ia8 => Painter::new(bank, plan, Kind::Ia8By(&ia8_table())).rows(out, seen),
        _ => Painter::new(bank, plan, Kind::Direct(format)).rows(out, seen),
    }
}

// All rows through the lookup table, by the table that pays for so many texels, if any does.
fn paint_entries(
    bank: &[u8; Bank::SIZE],
    plan: Plan,
    texels: usize,
    out: &mut [u8],
    seen: &mut [u8],
)
    requires mode { 2 ≤ plan.picture.tlut }
    requires rows_in_bounds { 4 * plan.width * plan.rows ≤ length out.old }
    requires rows_in_bounds_2 { plan.step * plan.width * plan.rows ≤ length seen.old }
    ensures out_after { out.new ≡ over (given (all_rows plan) bank.now) out.old }
    ensures seen_after { seen.new ≡ over (told plan.observe (trail (all_rows plan) bank.now)) seen.old }
{
    let part = Part::of_tile(plan.picture.tile);
    if texels <= NO_TABLE_UP_TO {
        return Painter::new(bank, plan, Kind::Entry(part)).rows(out, seen);
    }
    match part {
        Part::WholeByte if texels <= HALVES_UP_TO => {
            let halves = halves_of(plan.picture.tlut);
            Painter::new(bank, plan, Kind::HalvesBy(&halves)).rows(out, seen)
        }
        _ => {
            let table = entry_table(bank, plan.picture);
            Painter::new(bank, plan, Kind::EntryBy(part, &table)).rows(out, seen)
        }
    }
}

// All rows.
pub(crate) fn paint(bank: &[u8; Bank::SIZE], plan: Plan, out: &mut [u8], seen: &mut [u8])
    requires rows_in_bounds { 4 * plan.width * plan.rows ≤ length out.old }
    requires rows_in_bounds_2 { plan.step * plan.width * plan.rows ≤ length seen.old }
    ensures out_after { out.new ≡ over (given (all_rows plan) bank.now) out.old }
    ensures seen_after { seen.new ≡ over (told plan.observe (trail (all_rows plan) bank.now)) seen.old }
{
    let texels = plan.texels();
    if 2 <= plan.picture.tlut {
        return paint_entries(bank, plan, texels, out, seen);
    }
    paint_direct(bank, plan, texels, out, seen)
}
