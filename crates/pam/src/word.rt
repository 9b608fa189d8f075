// White space, tokens and numbers in a text.
ghost use Rattle.std.specs.Prelude.{◌≡◌};
ghost use Rattle.rules.specs.Base.{same};
ghost use Rattle.rules.specs.Pam.{white, solid, front, behind, trimmed, cut};
ghost use Rattle.pam.specs.Line.{count_of};

fn is_white(b: u8) -> bool
    ensures { result ≡ white b }
{
    (b == b' ') | ((8 < b) & (b < 14))
}

// A text without the white space at its front.
pub(crate) fn without_front(s: &[u8]) -> &[u8]
    ensures { result.now ≡ trimmed s.now }
{
    let start = s.iter().position(|b| !is_white(*b)).unwrap_or(s.len());
    &s[start..]
}

// A text without the white space at its end.
pub(crate) fn without_end(s: &[u8]) -> &[u8]
    ensures { result.now ≡ cut s.now }
{
    let mut left = s;
    while let Some((last, front)) = left.split_last()
        && is_white(*last)
    {
        left = front;
    }
    left
}

// A text's bytes before the first white space, and those from there on.
pub(crate) fn split_token(s: &[u8]) -> (&[u8], &[u8])
    ensures token { result.0.now ≡ front solid s.now }
    ensures rest { result.1.now ≡ behind solid s.now }
{
    let end = s.iter().position(|b| is_white(*b)).unwrap_or(s.len());
    s.split_at(end)
}

// Whether two texts are the same, in the rules' word. (A slice is not compared with an array without a function.)
pub(crate) fn is_same(s: &[u8], t: &[u8]) -> bool
    ensures { result ≡ same s.now t.now }
{
    s == t
}

// The number that digits state, or u32::MAX where it is above that; none where a text states none, or 0.
pub(crate) fn count_of(s: &[u8]) -> Option<u32>
    ensures { result ≡ count_of s.now }
{
    let mut n: u32 = 0;
    for b in s {
        if !b.is_ascii_digit() {
            return None;
        }
        n = n.saturating_mul(10).saturating_add((*b - b'0') as u32);
    }
    if n == 0 { None } else { Some(n) }
}
