// A string, character by character: whether it is well-formed, and its furthest boundary within a limit. u is as in `finder`.
#![tactic(auto)]

ghost use Rattle.std.specs.Prelude.{◌≡◌};
ghost use Rattle.text.specs.Unicode.{well_formed, boundary};
ghost use Rattle.text.specs.Runs.{ascii, walked_to, block_end};
ghost use Rattle.strings.specs.Steps.{small_end, led};

// How many bytes are looked at together, whether they are all ASCII; and how many where those are not.
const BLOCK: usize = 128;

const SMALL: usize = 16;

// Whether all of s is well-formed. UTF-8 is apart, so that the compiler puts its finder into the loop.
pub fn well_formed(u: usize, s: &[u8]) -> bool
    ensures { result ≡ well_formed u s.now }
{
    if u == 0 {
        return by_blocks(s);
    }
    walked(u, s, 0, s.len()).is_some()
}

// UTF-8, block by block.
fn by_blocks(s: &[u8]) -> bool
    ensures { result ≡ well_formed 0 s.now }
{
    let mut i = 0;
    while i < s.len() {
        let Some(e) = passed(s, i) else {
            return false;
        };
        i = e;
    }
    true
}

// The place behind the characters that begin in the next block, where they are all well-formed. A block of ASCII is passed over whole.
fn passed(s: &[u8], at: usize) -> Option<usize>
    ensures { result ≡ led at (block_end s.now at) (walked_to 0 s.now at (block_end s.now at)) }
{
    let block = octets::cut(s, at, BLOCK);
    let to = at + block.len();
    if ascii(block) {
        return Some(to);
    }
    by_small(s, at, to)
}

// What `walked` gives of UTF-8, small block by small block.
fn by_small(s: &[u8], at: usize, to: usize) -> Option<usize>
    ensures { result ≡ led at to (walked_to 0 s.now at to) }
{
    let mut i = at;
    while i < to {
        i = small(s, i, to)?;
    }
    Some(i)
}

// What `walked` gives of the next small block. The SMALL bytes in front of its end are looked at, even where it is shorter: the compiler
// makes a pass over a fixed number of bytes several bytes wide.
fn small(s: &[u8], at: usize, to: usize) -> Option<usize>
    ensures { result ≡ led at (small_end at to) (walked_to 0 s.now at (small_end at to)) }
{
    let end = at + SMALL.min(to.saturating_sub(at));
    if SMALL <= end && end <= s.len() && ascii(&s[end - SMALL..end]) {
        return Some(end);
    }
    walked(0, s, at, end)
}

// Whether all bytes are 00 to 7F. The pass is not left early, as `all` would leave it, so that the compiler makes it several bytes wide.
fn ascii(s: &[u8]) -> bool
    ensures { result ≡ ascii s.now }
{
    let mut all = true;
    for byte in s {
        all &= *byte <= 0x7F;
    }
    all
}

// The place behind the characters that begin before `to`, where they are all well-formed.
fn walked(u: usize, s: &[u8], at: usize, to: usize) -> Option<usize>
    ensures { result ≡ led at to (walked_to u s.now at to) }
{
    let mut i = at;
    while i < to {
        i += finder::character(u, s, i)?;
    }
    Some(i)
}

// The last place within the limit that whole characters lead to from `at` on.
pub fn boundary(u: usize, s: &[u8], at: usize, limit: usize) -> usize
    ensures { result ≡ boundary u s.now at limit }
{
    let mut e = at;
    while e < limit {
        let Some(k) = finder::character(u, s, e) else {
            return e;
        };
        if limit - e < k {
            return e;
        }
        e += k;
    }
    e
}
