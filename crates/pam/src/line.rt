// What a line of a header says.
ghost use Rattle.std.specs.Prelude.{◌≡◌};
ghost use Rattle.rules.specs.Pam.{comment, trimmed, cut};
ghost use Rattle.pam.specs.Line.{keyword_of, tuple_of, value_of, words_of, line_of};

use crate::word::{count_of, is_same, split_token, without_end, without_front};

// The keyword of a line.
#[derive(Clone, Copy, PartialEq, Eq)]
pub(crate) enum Keyword {
    // The line is a comment, or has no token at all.
    Nothing,
    Width,
    Height,
    Depth,
    Maxval,
    Tupltype,
    Endhdr,
    Other,
}

#[derive(Clone, Copy, PartialEq, Eq)]
pub(crate) enum Tuple {
    RgbAlpha,
    Other,
}

// What a line's value states as a number, and as a tuple type.
#[derive(Clone, Copy)]
pub(crate) struct Value {
    pub(crate) count: Option<u32>,
    pub(crate) tuple: Option<Tuple>,
}

#[derive(Clone, Copy)]
pub(crate) struct Line {
    pub(crate) keyword: Keyword,
    pub(crate) value: Value,
}

fn keyword_of(word: &[u8]) -> Keyword
    ensures { result ≡ keyword_of word.now }
{
    if word.is_empty() {
        Keyword::Nothing
    } else if is_same(word, b"WIDTH") {
        Keyword::Width
    } else if is_same(word, b"HEIGHT") {
        Keyword::Height
    } else if is_same(word, b"DEPTH") {
        Keyword::Depth
    } else if is_same(word, b"MAXVAL") {
        Keyword::Maxval
    } else if is_same(word, b"TUPLTYPE") {
        Keyword::Tupltype
    } else if is_same(word, b"ENDHDR") {
        Keyword::Endhdr
    } else {
        Keyword::Other
    }
}

fn tuple_of(value: &[u8]) -> Option<Tuple>
    ensures { result ≡ tuple_of value.now }
{
    if value.is_empty() {
        None
    } else if is_same(value, b"RGB_ALPHA") {
        Some(Tuple::RgbAlpha)
    } else {
        Some(Tuple::Other)
    }
}

fn value_of(value: &[u8]) -> Value
    ensures { result ≡ value_of value.now }
{
    Value {
        count: count_of(value),
        tuple: tuple_of(value),
    }
}

// A line without the white space at its front.
fn read_words(line: &[u8]) -> Line
    ensures { result ≡ words_of line.now }
{
    let (word, rest) = split_token(line);
    Line {
        keyword: keyword_of(word),
        value: value_of(without_end(without_front(rest))),
    }
}

fn is_comment(line: &[u8]) -> bool
    ensures { result ≡ comment line.now }
{
    line.starts_with(b"#")
}

pub(crate) fn read_line(line: &[u8]) -> Line
    ensures { result ≡ line_of line.now }
{
    let words = read_words(without_front(line));
    if is_comment(line) {
        return Line {
            keyword: Keyword::Nothing,
            ..words
        };
    }
    words
}
