// How the programs read their files: a file's bytes, the numbers in them, and parts that the file may cut off.

#![tactic(auto)]

ghost use Rattle.std.specs.Prelude.{◌≡◌, ◌+◌, ◌<◌, ◌≤◌, min, length};
ghost use Rattle.io.specs.Counts.{IsPrefixLen};
ghost use Rattle.files.specs.Bytes.{two_bytes, three_bytes};

use std::fs;
use std::io::Read;
use std::rt::Files;

// What came of reading: how many bytes are at the start of the buffer. Where the file cannot be read, or no further, a line on
// standard error has said why.
#[derive(Clone, Copy)]
pub struct Loaded {
    pub readable: bool,
    pub bytes: usize,
}

impl Loaded {
    const NOTHING: Loaded = Loaded {
        readable: false,
        bytes: 0,
    };
}

// One read. Of a failed one no byte counts.
fn read_some<R: Eprint, F: Read>(rt: &R, file: &mut F, path: &str, buffer: &mut [u8]) -> Loaded
    ensures { IsPrefixLen result.bytes buffer.new }
{
    match file.read(buffer) {
        Ok(bytes) => Loaded {
            readable: true,
            bytes,
        },
        Err(error) => {
            let _ = eprintln!(rt; "{path}: {error}");
            Loaded::NOTHING
        }
    }
}

// Reads until the file ends, the buffer is full or a read fails. What was read before that one counts.
fn read_all<R: Eprint, F: Read>(rt: &R, file: &mut F, path: &str, buffer: &mut [u8]) -> Loaded
    ensures { IsPrefixLen result.bytes buffer.new }
{
    let mut bytes = 0;
    while bytes < buffer.len() {
        let some = read_some(rt, file, path, &mut buffer[bytes..]);
        if some.bytes == 0 {
            return Loaded {
                readable: some.readable,
                bytes,
            };
        }
        bytes += some.bytes;
    }
    Loaded {
        readable: true,
        bytes,
    }
}

// The same of the file with that path.
fn read_file<R: Files + Eprint>(rt: &R, path: &str, buffer: &mut [u8]) -> Loaded
    ensures { IsPrefixLen result.bytes buffer.new }
{
    match fs::open(rt, path) {
        Ok(mut file) => read_all(rt, &mut file, path, buffer),
        Err(error) => {
            let _ = eprintln!(rt; "{path}: {error}");
            Loaded::NOTHING
        }
    }
}

// A file's bytes from its start on, as many as a buffer holds, which is lent: so no program needs a heap. No contract can say which
// bytes these are, nor how many. A path is as the system gave it, and need not be text.
pub fn load<R: Files + Eprint>(rt: &R, path: &[u8], buffer: &mut [u8]) -> Loaded
    ensures { IsPrefixLen result.bytes buffer.new }
{
    match str::from_utf8(path) {
        Ok(path) => read_file(rt, path, buffer),
        Err(error) => {
            let _ = eprintln!(rt; "the path of a file: {error}");
            Loaded::NOTHING
        }
    }
}

// Two bytes, low byte first.
pub fn two_bytes(bytes: &[u8], at: usize) -> u16
    requires { at + 1 < length bytes.now }
    ensures { result ≡ two_bytes bytes.now at }
{
    u16::from_le_bytes([bytes[at], bytes[at + 1]])
}

// Three bytes, low byte first.
pub fn three_bytes(bytes: &[u8], at: usize) -> usize
    requires { at + 2 < length bytes.now }
    ensures value { result ≡ three_bytes bytes.now at }
    ensures range { result < 16777216 }
{
    u32::from_le_bytes([bytes[at], bytes[at + 1], bytes[at + 2], 0]) as usize
}

// So many bytes from an offset on end here: with the buffer, if it has not as many.
pub fn end_of(buffer: &[u8], at: usize, bytes: usize) -> usize
    requires { at ≤ length buffer.now }
    ensures value { result ≡ min (length buffer.now) (at + bytes) }
    ensures range { (at ≤ result) × IsPrefixLen result buffer.now }
{
    at.saturating_add(bytes).min(buffer.len())
}

#[cfg(test)]
mod tests {
    use super::*;
    use std::io;

    // No more bytes are read than there is room for: the file has no end.
    #[test]
    fn loads_as_many_as_asked(rt: HostRuntime) {
        let mut buffer = [1u8; 5];
        let loaded = load(&rt, b"/dev/zero", &mut buffer);
        assert!(rt; loaded.readable);
        assert!(rt; loaded.bytes == 5);
        assert!(rt; buffer == [0u8; 5]);
    }

    // A file of which no read succeeds.
    #[derive(Drop)]
    struct Torn;

    impl Read for Torn {
        fn read(&mut self, _buffer: &mut [u8]) -> io::Result<usize> {
            Err(io::Error::from(io::ErrorKind::Other))
        }
    }

    // What was read before a read failed is kept.
    #[test]
    fn keeps_what_was_read_before(rt: HostRuntime) {
        let mut file = (&b"abc"[..]).chain(Torn);
        let mut buffer = [0u8; 5];
        let loaded = read_all(&rt, &mut file, "torn", &mut buffer);
        assert!(rt; !loaded.readable);
        assert!(rt; loaded.bytes == 3);
        assert!(rt; buffer == *b"abc\0\0");
    }
}
