// What the programs that replay stored vectors share. A file of vectors is records one after another.

#![tactic(auto)]

ghost use Rattle.std.specs.Prelude.{◌≡◌, List, ℕ, Bool, ◌+◌, ◌-◌, ◌^◌, ◌≤◌, ◌<◌, length};
ghost use Rattle.std.specs.Iterator.{at_most};
ghost use Rattle.logic.specs.Test.{when◌then◌else◌};
ghost use Rattle.replay.specs.Records.{record_end, IsEnd};
ghost use Rattle.replay.specs.Replayed.{Answers, GivesRecord, replayed};
ghost use Rattle.replay.specs.laws.Records.{record_is_end};

use std::rt::Files;

// Bytes of a file that are read at most.
const MOST: usize = 262144;

// How the records of a file lie in it.
pub trait Layout {
    // where the record that begins at an offset ends
    ghost end: { List ℕ → ℕ → ℕ };

    // the bytes at its start that are not handed on to be checked
    ghost HEAD: { ℕ };

    const HEAD: usize;

    fn end_of(&self, vectors: &[u8], at: usize) -> usize
        requires { at < length vectors.now }
        ensures { result ≡ end vectors.now at };

    ghost is_end: { (vectors : List ℕ) (at : ℕ) → at < length vectors → IsEnd vectors at HEAD (end vectors at) };
}

// Each record is a byte that counts the bytes after it, and those.
#[derive(Clone, Copy)]
pub struct Counted;

impl Layout for Counted {
    ghost end = { record_end };

    ghost HEAD = { 1 };

    ghost is_end = { record_is_end };

    const HEAD: usize = 1;

    fn end_of(&self, vectors: &[u8], at: usize) -> usize {
        end_of_record(vectors, at)
    }
}

// How many records there are, and how many of them differ from what is stored.
#[derive(Clone, Copy)]
pub struct Tally {
    pub records: usize,
    pub differ: usize,
}

impl Tally {
    // With one record more: a line names it where its answer is not the stored one. The first is record 0.
    fn with(self, rt: &impl Print, agrees: bool) -> Tally
        requires { (self.records < 2 ^ 63) × (self.differ ≤ self.records) }
        ensures { result ≡ record { records = self.records + 1; differ = self.differ + (when agrees then 0 else 1) } }
    {
        let Tally { records, differ } = self;
        if !agrees {
            let _ = println!(rt; "record {records} differs");
        }
        Tally {
            records: records + 1,
            differ: differ + usize::from(!agrees),
        }
    }
}

// Where the record that begins at an offset ends: with the file, if that is cut off.
pub fn end_of_record(vectors: &[u8], at: usize) -> usize
    requires { at < length vectors.now }
    ensures { (result ≡ record_end vectors.now at) × (at < result) × (result ≤ length vectors.now) }
{
    files::end_of(vectors, at + 1, usize::from(vectors[at]))
}

// The records of a file from an offset on, each without the bytes at its start that are not handed on.
#[derive(Drop)]
struct Records<'a, L> {
    vectors: &'a [u8],
    layout: L,
    at: usize,
}

impl<'a, L: Layout + Drop> Iterator for Records<'a, L> {
    type Item = &'a [u8];

    ghost next_gives = { GivesRecord L.HEAD L.end };

    ghost remaining = { λ s. at_most (length s.vectors.now - s.at) };

    fn next(&mut self) -> Option<&'a [u8]> {
        if self.vectors.len() <= self.at {
            return None;
        }
        let at = self.at;
        let end = self.layout.end_of(self.vectors, at);
        self.at = end;
        Some(&self.vectors[at + L::HEAD..end])
    }
}

// Puts each record to a check, and counts.
pub fn replay<R: Print, L: Layout + Drop, F: Fn(&[u8]) -> bool + Drop>(
    rt: &R,
    vectors: &[u8],
    layout: L,
    agrees: F,
) -> Tally
    requires { F.IsAlwaysCallable agrees }
    ensures { (answer : List ℕ → Bool) → Answers F.Fn agrees answer → result ≡ replayed L.HEAD L.end answer vectors.now }
{
    let mut tally = Tally {
        records: 0,
        differ: 0,
    };
    let records = Records {
        vectors,
        layout,
        at: 0,
    };
    for record in records {
        tally = tally.with(rt, agrees(record));
    }
    tally
}

// Replays a file, and says at last how many records there were, in how many bytes, and how many of them differ. What is read before
// a read fails is replayed too. The bytes stand in an array, so that the programs need no heap.
pub fn replay_file<R: Files + Print + Eprint, F: FnOnce(&[u8]) -> Tally>(
    rt: &R,
    path: &str,
    what: &str,
    tally: F,
)
    requires { F.IsAlwaysCallable tally }
{
    let mut vectors = [0u8; MOST];
    let bytes = files::load(rt, path.as_bytes(), &mut vectors).bytes;
    let Tally { records, differ } = tally(&vectors[..bytes]);
    let _ = println!(rt; "{records} {what} in {bytes} bytes, {differ} differ");
}

#[cfg(test)]
mod tests {
    use super::*;

    // As many bytes are handed on as are read at most: this file has no end.
    #[test]
    fn hands_on_what_it_read(rt: HostRuntime) {
        let mut bytes = 0;
        replay_file(&rt, "/dev/zero", "zeros", |vectors| {
            bytes = vectors.len();
            Tally {
                records: 0,
                differ: 0,
            }
        });
        assert!(rt; bytes == MOST);
    }
}
