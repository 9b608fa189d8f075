// Which pairs of format and size are accepted. The Rust's answer carries no more than a yes or a no.
ghost use Rattle.std.specs.Prelude.{◌≡◌};
ghost use Rattle.rules.specs.Texdec.{accepted_direct, accepted};

#[derive(Clone, Copy)]
pub struct FormatInfo {
    pub fmt: u32,
    pub siz: u32,
}

impl FormatInfo {
    // The pair is accepted without a lookup table.
    pub fn validate(self) -> bool
        ensures { result ≡ accepted_direct self.fmt self.siz }
    {
        let fmt = self.fmt;
        let siz = self.siz;
        match fmt {
            0 => (2 <= siz) & (siz <= 3),
            2 => siz <= 3,
            3 => siz <= 2,
            4 => siz <= 1,
            _ => false,
        }
    }

    // The pair is accepted in the mode `tlut`.
    pub fn validate_tlut(self, tlut: u32) -> bool
        ensures { result ≡ accepted tlut self.fmt self.siz }
    {
        ((2 <= tlut) & (self.fmt <= 7) & (self.siz <= 3)) | self.validate()
    }
}
