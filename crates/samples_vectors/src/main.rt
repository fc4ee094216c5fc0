// Traces each batch of batches.bin, and prints the places that are there then, also where tracing is refused halfway: of each
// place all words in use, links as halves.

#![tactic(auto)]

ghost use Rattle.std.specs.Prelude.{◌≡◌, ◌≤◌, length};
ghost use Rattle.std.specs.Iterator.{at_most};
ghost use Rattle.words.specs.Word.{word};
ghost use Rattle.words.specs.Numbers.{whole_number, half_number};
ghost use Rattle.model.specs.Tracing.{place_limit};
ghost use Rattle.samples_vectors.specs.Made.{made_in};
ghost use Rattle.samples_vectors.specs.Batches.{GivesBatch};

use options::TracingOptions;
use std::fmt;
use std::fmt::Display;
use words::{Half, Place, Table, Whole};

// Bytes of the file that are read at most.
const MOST: usize = 65536;

// A place of a table, with its words.
#[derive(Drop)]
struct Row<'a> {
    table: &'a Table,
    place: Place,
}

impl Row<'_> {
    // A whole word.
    fn word(&self, field: Whole) -> u32
        ensures { result ≡ word self.now.table.now self.now.place (whole_number field) }
    {
        words::get(self.table, self.place, field)
    }

    fn link(&self, field: Half) -> usize
        ensures { result ≡ word self.now.table.now self.now.place (half_number field) }
    {
        words::link(self.table, self.place, field)
    }
}

impl Display for Row<'_> {
    // What is known of it, and its children; then what it is as a child, with the name as the part of the text that it is.
    fn fmt<W: fmt::Write>(&self, f: &mut fmt::Formatter<W>) -> fmt::Result {
        let (kind, nullable, samples) = (
            self.word(Whole::Kind),
            self.word(Whole::Nullable),
            self.word(Whole::Samples),
        );
        let (first, last) = (self.link(Half::First), self.link(Half::Last));
        let (root, block) = (self.link(Half::Root), self.link(Half::Block));
        write!(
            f,
            "{kind} {nullable} {samples} {first}/{last} {root}/{block} "
        )?;
        let (left, right) = (self.link(Half::Left), self.link(Half::Right));
        let (next, parent) = (self.link(Half::Next), self.link(Half::Parent));
        let (step, held, mark) = (
            self.word(Whole::Step),
            self.word(Whole::Held),
            self.word(Whole::Mark),
        );
        let (tag, position) = (self.word(Whole::Tag), self.word(Whole::Position));
        let name = places::given_name(self.table, self.place);
        write!(
            f,
            "{left}/{right} {next}/{parent} {step} {}+{} {held} {mark} {tag} {position}",
            name.offset, name.length
        )
    }
}

fn print_places(rt: &impl Print, table: &Table, count: usize)
    requires { count ≤ place_limit }
{
    let _ = println!(rt; "places {count}");
    for number in 0..count {
        let row = Row {
            table,
            place: Place::new(number),
        };
        let _ = println!(rt; "{row}");
    }
}

// How many places there are, where no count is given: a refusal hands back none. Each new place is its parent's last child,
// and has the next number, so that the highest number of a last child is that of the newest place.
fn made(table: &Table) -> usize
    ensures { (result ≡ made_in table.now) × (result ≤ place_limit) }
{
    let newest = (0..places::PLACES)
        .map(|number| places::link(table, Place::new(number), Half::Last).number())
        .max()
        .unwrap_or(0);
    newest + 1
}

// A batch is the options word, the lengths of commands and text, and both.
#[derive(Drop)]
struct Batch<'a> {
    options: u16,
    commands: &'a [u8],
    text: &'a [u8],
}

// The batches of a file. One that is cut off is none.
#[derive(Drop)]
struct Batches<'a>(&'a [u8]);

impl<'a> Iterator for Batches<'a> {
    type Item = Batch<'a>;

    ghost next_gives = { GivesBatch };

    ghost remaining = { λ s. at_most (length s.0.now) };

    fn next(&mut self) -> Option<Batch<'a>> {
        let (header, rest) = self.0.split_at_checked(6)?;
        let (commands, rest) = rest.split_at_checked(usize::from(files::two_bytes(header, 2)))?;
        let (text, rest) = rest.split_at_checked(usize::from(files::two_bytes(header, 4)))?;
        self.0 = rest;
        Some(Batch {
            options: files::two_bytes(header, 0),
            commands,
            text,
        })
    }
}

fn trace(rt: &impl Print, batch: &Batch<'_>, table: &mut Table) {
    words::clear(table);
    let options = TracingOptions::new(batch.options);
    match samples::from_samples(batch.commands, batch.text, options, table) {
        Ok(traced) => {
            print_places(rt, table, traced.count);
        }
        Err(refused) => {
            let _ = println!(rt; "refused {} {}", refused.refusal.number(), refused.place);
            print_places(rt, table, made(table));
        }
    }
}

// The bytes stand in an array, and no heap is needed; the table is of a fixed size, as what the call is lent is. What is read before a
// read fails is traced too.
fn main(rt: HostRuntime) {
    let mut buffer = [0u8; MOST];
    let mut table = [0u32; words::WORDS];
    let bytes = files::load(&rt, b"batches.bin", &mut buffer).bytes;
    for batch in Batches(&buffer[..bytes]) {
        trace(&rt, &batch, &mut table);
    }
    let _ = println!(rt; "{bytes} bytes");
}
