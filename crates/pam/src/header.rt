// The header of a file, line by line.
ghost use Rattle.std.specs.Prelude.{◌≡◌, cond, true, IfSome, None, [], ◌∷◌, ◌+◌, ◌-◌, ◌<◌, ◌≤◌, MatchOption, length, take, drop};
ghost use Rattle.rules.specs.Base.{same};
ghost use Rattle.rules.specs.Pam.{text, lines};
ghost use Rattle.pam.specs.Gather.{state_after, once_of, tuple_after, noted, no_lines, whole, read_from, header_by};

use crate::line::{Keyword, Line, Tuple, read_line};

// What the lines read so far state for a field: nothing, one number, or what breaks the description: a second value, or none.
#[derive(Clone, Copy)]
pub(crate) enum Field {
    Unstated,
    Once(u32),
    Bad,
}

impl Field {
    // After a line that states `count` for it.
    fn after(self, count: Option<u32>) -> Field
        ensures { result ≡ state_after self count }
    {
        match (self, count) {
            (Field::Unstated, Some(n)) => Field::Once(n),
            _ => Field::Bad,
        }
    }

    // The number that was stated exactly once, and well.
    fn once(self) -> Option<u32>
        ensures { result ≡ once_of self }
    {
        match self {
            Field::Once(n) => Some(n),
            Field::Unstated | Field::Bad => None,
        }
    }
}

// What the lines read so far state. `unknown`: a line had another keyword. `untyped`: a TUPLTYPE had no value.
#[derive(Clone, Copy)]
pub(crate) struct Stated {
    pub(crate) width: Field,
    pub(crate) height: Field,
    pub(crate) depth: Field,
    pub(crate) maxval: Field,
    pub(crate) tuple: Option<Tuple>,
    pub(crate) unknown: bool,
    pub(crate) untyped: bool,
}

// What a file's header states that does not break the description, and how many bytes it takes.
#[derive(Clone, Copy)]
pub(crate) struct Header {
    pub(crate) width: u32,
    pub(crate) height: u32,
    pub(crate) depth: u32,
    pub(crate) maxval: u32,
    pub(crate) tuple: Option<Tuple>,
    pub(crate) size: usize,
}

// The tuple type after a line that states one: two of them are another.
fn tuple_after(old: Option<Tuple>, tuple: Option<Tuple>) -> Option<Tuple>
    ensures { result ≡ tuple_after old tuple }
{
    match (old, tuple) {
        (None, Some(Tuple::RgbAlpha)) => Some(Tuple::RgbAlpha),
        _ => Some(Tuple::Other),
    }
}

fn note_line(stated: Stated, line: Line) -> Stated
    ensures { result ≡ noted stated line }
{
    let count = line.value.count;
    let tuple = line.value.tuple;
    match line.keyword {
        Keyword::Nothing => stated,
        Keyword::Width => Stated {
            width: stated.width.after(count),
            ..stated
        },
        Keyword::Height => Stated {
            height: stated.height.after(count),
            ..stated
        },
        Keyword::Depth => Stated {
            depth: stated.depth.after(count),
            ..stated
        },
        Keyword::Maxval => Stated {
            maxval: stated.maxval.after(count),
            ..stated
        },
        Keyword::Tupltype => Stated {
            tuple: tuple_after(stated.tuple, tuple),
            untyped: stated.untyped | tuple.is_none(),
            ..stated
        },
        Keyword::Endhdr | Keyword::Other => Stated {
            unknown: true,
            ..stated
        },
    }
}

fn no_lines() -> Stated
    ensures { result ≡ no_lines }
{
    Stated {
        width: Field::Unstated,
        height: Field::Unstated,
        depth: Field::Unstated,
        maxval: Field::Unstated,
        tuple: None,
        unknown: false,
        untyped: false,
    }
}

// The header of `size` bytes whose lines state this; none where it breaks the description.
fn whole(size: usize, stated: Stated) -> Option<Header>
    ensures { result ≡ whole size stated }
{
    if stated.unknown {
        return None;
    }
    let width = stated.width.once()?;
    let height = stated.height.once()?;
    let depth = stated.depth.once()?;
    let maxval = stated.maxval.once()?;
    if (65535 < maxval) | stated.untyped {
        return None;
    }
    Some(Header {
        width,
        height,
        depth,
        maxval,
        tuple: stated.tuple,
        size,
    })
}

// Where the line from `at` on ends, which is the place of its newline; none where there is no newline.
fn line_end(file: &[u8], at: usize) -> Option<usize>
    requires { at ≤ length file.now }
    ensures { MatchOption result (lines (drop at file.now) ≡ [])
        (λ end. (at ≤ end) × (end < length file.now)
        × (lines (drop at file.now) ≡ take (end - at) (drop at file.now) ∷ lines (drop (end + 1) file.now))) }
{
    let length = file[at..].iter().position(|b| *b == b'\n')?;
    Some(at + length)
}

// The lines from `start` on, up to the first ENDHDR line.
fn read_lines(file: &[u8], start: usize) -> Option<Header>
    requires { start ≤ length file.now }
    ensures value { result ≡ read_from start no_lines (lines (drop start file.now)) }
    ensures within { IfSome result (λ h. h.size ≤ length file.now) }
{
    let mut stated = no_lines();
    let mut at = start;
    loop {
        let end = line_end(file, at)?;
        let line = read_line(&file[at..end]);
        at = end + 1;
        if line.keyword == Keyword::Endhdr {
            return whole(at, stated);
        }
        stated = note_line(stated, line);
    }
}

// Whether a file begins with `P7` and a newline.
fn has_magic(file: &[u8]) -> bool
    ensures { result ≡ same (take 3 file.now) (text "P7\n") }
{
    file.starts_with(b"P7\n")
}

pub(crate) fn read_header(file: &[u8]) -> Option<Header>
    ensures value { result ≡ header_by file.now }
    ensures within { IfSome result (λ h. h.size ≤ length file.now) }
{
    if !has_magic(file) {
        return None;
    }
    read_lines(file, 3)
}
