// The texels of the IA4 format, as a table, whose rule is proved once, over all of its entries.
ghost use Rattle.std.specs.Prelude.{◌≡◌};
ghost use Rattle.texdec.specs.Ready.{ia4_table};

// The four channels of each nibble, as IA8's of each byte.
const IA4: [u32; 16] = [
    0x00000000, 0xFF000000, 0x00242424, 0xFF242424, 0x00494949, 0xFF494949, 0x006D6D6D, 0xFF6D6D6D,
    0x00929292, 0xFF929292, 0x00B6B6B6, 0xFFB6B6B6, 0x00DBDBDB, 0xFFDBDBDB, 0x00FFFFFF, 0xFFFFFFFF,
];

// The table, for a caller that reads many texels of it.
pub fn ia4_table() -> [u32; 16]
    ensures { result ≡ ia4_table }
{
    IA4
}
