// What the texels of a picture are, with the table that they are taken from, if one pays.
use crate::format::Format;
use crate::part::Part;

#[derive(Clone, Copy)]
pub(crate) enum Kind<'a> {
    // Without a lookup table, from the bytes of the texel alone.
    Direct(Format),
    // The same, ready: RGBA16 from its two halves, IA4 of its nibble, IA8 of its byte.
    Rgba16By(&'a [u32; 512]),
    Ia4By(&'a [u32; 16]),
    Ia8By(&'a [u32; 256]),
    // Through the lookup table: its entries as the bank has them, as ready texels, or, of whole bytes, from their halves.
    Entry(Part),
    EntryBy(Part, &'a [u32; 256]),
    HalvesBy(&'a [u32; 512]),
}
