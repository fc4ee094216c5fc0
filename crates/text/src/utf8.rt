// UTF-8, by the Unicode standard's table of well-formed byte sequences.
ghost use Rattle.std.specs.Prelude.{◌≡◌, ◌+◌, ◌≤◌, ◌<◌, not, [], ◌∷◌, length, drop, replicate};
ghost use Rattle.text.specs.Utf8.{◌to◌, table, due_in, is_utf8};
ghost use Rattle.text.specs.Block.{any_from, is_high, is_ascii};
ghost use Rattle.text.specs.Due.{due_of, trailing, begins};

// What is due after a first byte: a byte in a range, which is given by its ends, and then so many from 80 to BF;
// or no row of the table begins with that byte.
#[derive(Clone, Copy)]
enum Due {
    Bytes(u8, u8, usize),
    Nothing,
}

// Whether so many bytes, from an offset on, are below 80. All are looked at: the compiler takes several at a time.
fn are_ascii(bytes: &[u8], at: usize, count: usize) -> bool
    requires { at + count ≤ length bytes.now }
    ensures { result ≡ not (any_from (is_high bytes.now) at count) }
{
    let mut i = 0;
    let mut high = false;
    while i < count {
        high = high | (0x80 <= bytes[at + i]);
        i += 1;
    }
    !high
}

// Whether all bytes are below 80: then each part of them is UTF-8.
#[tactic(auto, using(crate::proofs::Library::ascii_bytes))]
pub fn is_ascii(bytes: &[u8]) -> bool
    ensures { result ≡ is_ascii bytes.now }
{
    bytes.is_ascii()
}

// An index before which all bytes are sequences of one byte. How far it goes is its own choice: by blocks, which is quick. The
// last eight bytes are looked at together, though some of them were passed.
fn past_ascii(bytes: &[u8]) -> usize
    ensures { (result ≤ length bytes.now) × (is_utf8 (drop result bytes.now) ≡ is_utf8 bytes.now) }
{
    let n = bytes.len();
    if n < 8 {
        return past_few(bytes);
    }
    let mut i = 0;
    while 64 <= n - i {
        if are_ascii(bytes, i, 64) {
            i += 64;
        } else {
            return i;
        }
    }
    while 8 <= n - i {
        if are_ascii(bytes, i, 8) {
            i += 8;
        } else {
            return i;
        }
    }
    if are_ascii(bytes, n - 8, 8) {
        return n;
    }
    i
}

// The same of up to seven bytes: all, or none. The last four may have some of the first four among them.
fn past_few(bytes: &[u8]) -> usize
    requires { length bytes.now < 8 }
    ensures { (result ≤ length bytes.now) × (is_utf8 (drop result bytes.now) ≡ is_utf8 bytes.now) }
{
    let n = bytes.len();
    if n < 4 {
        return 0;
    }
    if are_ascii(bytes, 0, 4) & are_ascii(bytes, n - 4, 4) {
        return n;
    }
    0
}

// Whether the bytes are sequences of the table, one after another. Most are of one byte, and many of the others of three.
pub fn is_utf8(bytes: &[u8]) -> bool
    ensures { result ≡ is_utf8 bytes.now }
{
    let mut i = past_ascii(bytes);
    while i < bytes.len() {
        let first = bytes[i];
        if first < 0x80 {
            i += 1;
        } else if is_three(bytes, i) {
            i += 3;
        } else {
            let due = due_after(first);
            match due {
                Due::Nothing => return false,
                Due::Bytes(low, high, more) => {
                    if follows(bytes, i + 1, low, high, more) {
                        i += more + 2;
                    } else {
                        return false;
                    }
                }
            }
        }
    }
    true
}

// Whether the row of the table of most letters of three bytes stands at an offset. It is tried at once, and without leaving early,
// so that the compiler needs few branches.
fn is_three(bytes: &[u8], at: usize) -> bool
    requires { at ≤ length bytes.now }
    ensures { result ≡ begins (0xE1 to 0xEC ∷ trailing ∷ trailing ∷ []) (drop at bytes.now) }
{
    if bytes.len() - at < 3 {
        return false;
    }
    (0xE1 <= bytes[at])
        & (bytes[at] <= 0xEC)
        & (0x80 <= bytes[at + 1])
        & (bytes[at + 1] <= 0xBF)
        & (0x80 <= bytes[at + 2])
        & (bytes[at + 2] <= 0xBF)
}

// The row of the table that begins with a byte above 7F.
fn due_after(first: u8) -> Due
    requires { 0x80 ≤ first }
    ensures { due_of result ≡ due_in table first }
{
    if first <= 0xC1 {
        return Due::Nothing;
    }
    if first <= 0xDF {
        return Due::Bytes(0x80, 0xBF, 0);
    }
    if first <= 0xE0 {
        return Due::Bytes(0xA0, 0xBF, 1);
    }
    if first <= 0xEC {
        return Due::Bytes(0x80, 0xBF, 1);
    }
    if first <= 0xED {
        return Due::Bytes(0x80, 0x9F, 1);
    }
    if first <= 0xEF {
        return Due::Bytes(0x80, 0xBF, 1);
    }
    if first <= 0xF0 {
        return Due::Bytes(0x90, 0xBF, 2);
    }
    if first <= 0xF3 {
        return Due::Bytes(0x80, 0xBF, 2);
    }
    if first <= 0xF4 {
        return Due::Bytes(0x80, 0x8F, 2);
    }
    Due::Nothing
}

// Whether the bytes that are due stand at an offset.
fn follows(bytes: &[u8], at: usize, low: u8, high: u8, more: usize) -> bool
    requires { at ≤ length bytes.now }
    ensures { result ≡ begins (low to high ∷ replicate more trailing) (drop at bytes.now) }
{
    if bytes.len() <= at {
        return false;
    }
    if bytes[at] < low {
        return false;
    }
    if high < bytes[at] {
        return false;
    }
    continues(bytes, at + 1, more)
}

// Whether so many bytes from 80 to BF stand at an offset.
fn continues(bytes: &[u8], at: usize, count: usize) -> bool
    requires { at ≤ length bytes.now }
    ensures { result ≡ begins (replicate count trailing) (drop at bytes.now) }
{
    let mut i = at;
    let mut left = count;
    while 0 < left {
        if bytes.len() <= i {
            return false;
        }
        if bytes[i] < 0x80 {
            return false;
        }
        if 0xBF < bytes[i] {
            return false;
        }
        i += 1;
        left -= 1;
    }
    true
}
