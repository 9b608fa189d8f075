// An entry's body: all of it but the capture number.
ghost use Rattle.std.specs.Prelude.{◌≡◌, false, ◌+◌, ◌*◌, ◌≤◌, ◌<◌, length, get_or};
ghost use Rattle.rules.specs.Split.{entry_limit, entry_size, body_at};
ghost use Rattle.splitter.specs.Bodies.{body_size, block_size, SameUpTo};

// The most entries of one split.
pub(crate) const ENTRY_LIMIT: usize = 4096;

// The bytes of an entry.
pub(crate) const ENTRY_SIZE: usize = 4117;

// Those of its capture number, which come first.
const CAPTURE_SIZE: usize = 4;

// Those of its body.
pub(crate) const BODY_SIZE: usize = ENTRY_SIZE - CAPTURE_SIZE;

// The body of entry i.
pub(crate) fn body_at(entries: &[u8], i: usize) -> &[u8; BODY_SIZE]
    requires room { i < entry_limit }
    requires entry_within { (i + 1) * entry_size ≤ length entries.now }
    ensures { result.now ≡ body_at entries.now i }
{
    let start = i * ENTRY_SIZE + CAPTURE_SIZE;
    let end = start + BODY_SIZE;
    let body = &entries[start..end];
    body.try_into().unwrap()
}

// The bytes that are compared at once.
const BLOCK: usize = 64;

// The whole blocks of a body.
const BLOCKS: usize = BODY_SIZE / BLOCK;

// Two bodies differ in a block that starts at a place. There is no way out of the loop, so that bytes are compared many at a time.
fn block_differs(a: &[u8; BODY_SIZE], b: &[u8; BODY_SIZE], start: usize) -> bool
    requires { start + block_size ≤ body_size }
    ensures { result ≡ false → SameUpTo a.now b.now start
        → SameUpTo a.now b.now (start + block_size) }
{
    let mut differs = false;
    // By index: two arrays from one place on.
    for k in 0..BLOCK {
        differs = differs | (a[start + k] != b[start + k]);
    }
    differs
}

// The start of the first block in which two bodies differ, or of what is left after the last block.
fn same_blocks(a: &[u8; BODY_SIZE], b: &[u8; BODY_SIZE]) -> usize
    ensures within { result ≤ body_size }
    ensures same_up_to { SameUpTo a.now b.now result }
{
    // By number: a block has the same place in both.
    for k in 0..BLOCKS {
        if block_differs(a, b, BLOCK * k) {
            return BLOCK * k;
        }
    }
    BLOCK * BLOCKS
}

// The first place where two bodies differ, or the bytes of a body where they are the same.
pub(crate) fn differ(a: &[u8; BODY_SIZE], b: &[u8; BODY_SIZE]) -> usize
    ensures within { result ≤ body_size }
    ensures same_up_to { SameUpTo a.now b.now result }
    ensures differ_there { result < body_size → get_or a.now result 0 ≡ get_or b.now result 0 → ⊥ }
{
    let start = same_blocks(a, b);
    a[start..]
        .iter()
        .zip(&b[start..])
        .position(|(x, y)| x != y)
        .map_or(BODY_SIZE, |k| start + k)
}
