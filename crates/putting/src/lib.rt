// Field records and names put into the output buffers.

#![tactic(auto)]

ghost use Rattle.std.specs.Prelude.{◌≡◌, ◌≤◌, length};
ghost use Rattle.text.specs.Decimal.{decimal};
ghost use Rattle.places.specs.Layout.{Settled};
ghost use Rattle.places.specs.Reading.{child_name};
ghost use Rattle.putting.specs.Put.{record_bytes, Puts, Within, writing, with_record, with_name, gaps_in, entries_in};

use datatype::{DataType, Strategy};
use shapes::Step;
use words::{Place, Table};

// The nullable bytes of slots never seen and of a map's entries, which stand for no place, so that none was widened.
const NULLABLE: u8 = 1;

const NOT_NULLABLE: u8 = 0;

// The fields of a map's entries.
const ENTRIES_FIELDS: u32 = 2;

// What a field record says: among it the code of its type, its nullable byte, the length of its name in bytes, and how many fields stand
// below it. The first three are bytes, which any may be: enums would ask more of callers, who have a type from a place's kind, which is any
// word.
#[derive(Clone, Copy)]
pub struct Record {
    pub kind: u8,
    pub nullable: u8,
    pub strategy: u8,
    pub number: u8,
    pub name_length: u32,
    pub children: u32,
}

// Where the next record and the next name go.
#[derive(Clone, Copy)]
pub struct Ends {
    pub records: usize,
    pub names: usize,
}

// The output buffers, which whoever calls lends (the C interface), and where the next record and the next name go.
#[derive(Drop)]
pub struct Output<'f, 'n> {
    fields: &'f mut [u8],
    names: &'n mut [u8],
    next_record: usize,
    next_name: usize,
    ghost in_fields: { next_record ≤ length fields.now },
    ghost in_names: { next_name ≤ length names.now },
}

// Bytes, where there is room for them; the first walk has seen that there is. They are put one by one, for `copy_from_slice` would need
// memcpy and memmove, which a library for C would have to be given.
#[tactic(auto, using(crate::proofs::Puts::in_room), unfolding(crate::specs::Put::put_bytes))]
fn put_bytes(bytes: &[u8], buffer: &mut [u8], at: usize) -> usize
    requires { at ≤ length buffer.old }
    ensures { Puts bytes.now buffer at result }
{
    if buffer.len() - at < bytes.len() {
        return at;
    }
    let end = at + bytes.len();
    for (i, byte) in bytes.iter().enumerate() {
        buffer[at + i] = *byte;
    }
    end
}

impl Record {
    // The eight bytes.
    fn bytes(self) -> [u8; 8]
        ensures { result ≡ record_bytes self }
    {
        let [length, length_high, ..] = self.name_length.to_le_bytes();
        let [children, children_high, ..] = self.children.to_le_bytes();
        [
            self.kind,
            self.nullable,
            self.strategy,
            self.number,
            length,
            length_high,
            children,
            children_high,
        ]
    }
}

impl<'f, 'n> Output<'f, 'n> {
    ghost use Rattle.putting.specs.Output.{written_by, Writes};

    // Nothing is written yet.
    pub fn new(fields: &'f mut [u8], names: &'n mut [u8]) -> Output<'f, 'n>
        ensures nothing { written_by result ≡ writing 0 0 fields.old names.old }
        ensures same_fields { result.fields.ghost_name ≡ fields.entry.ghost_name }
        ensures same_names { result.names.ghost_name ≡ names.entry.ghost_name }
    {
        Output {
            fields,
            names,
            next_record: 0,
            next_name: 0,
        }
    }

    // So much is written already: what follows goes behind these ends.
    pub fn at(fields: &'f mut [u8], names: &'n mut [u8], ends: Ends) -> Output<'f, 'n>
        requires { Within ends fields.old names.old }
        ensures behind { written_by result ≡ writing ends.records ends.names fields.old names.old }
        ensures same_fields { result.fields.ghost_name ≡ fields.entry.ghost_name }
        ensures same_names { result.names.ghost_name ≡ names.entry.ghost_name }
    {
        Output {
            fields,
            names,
            next_record: ends.records,
            next_name: ends.names,
        }
    }

    // Where the next record and the next name go.
    pub fn ends(&self) -> Ends
        ensures reached { writing result.records result.names self.now.fields.now self.now.names.now ≡ written_by self.now }
        ensures within { Within result self.now.fields.now self.now.names.now }
    {
        Ends {
            records: self.next_record,
            names: self.next_name,
        }
    }

    // One field record.
    #[tactic(auto, unfolding(crate::specs::Put::with_record))]
    pub fn put_record(&mut self, field: Record)
        ensures { Writes (with_record (record_bytes field)) self.old self.new }
    {
        self.next_record = put_bytes(&field.bytes(), self.fields, self.next_record);
    }

    // A name.
    #[tactic(auto, unfolding(crate::specs::Put::with_name))]
    fn put_text(&mut self, name: &[u8])
        ensures { Writes (with_name name.now) self.old self.new }
    {
        self.next_name = put_bytes(name, self.names, self.next_name);
    }

    // A position in decimal, which is its name.
    #[tactic(auto, using(crate::proofs::Puts::in_room), unfolding(crate::specs::Put::put_bytes, crate::specs::Put::with_name))]
    fn put_position(&mut self, i: u16)
        ensures { Writes (with_name (decimal i)) self.old self.new }
    {
        if self.names.len() - self.next_name < text::decimal_length(i) {
            return;
        }
        self.next_name = text::put_decimal(self.names, self.next_name, i);
    }

    // The name of a child. A `walk::Source` would ask for options, which a name does not need.
    #[tactic(auto, using(crate::proofs::Puts::names_end), unfolding(places::specs::Reading::child_name))]
    pub fn put_name(&mut self, text: &[u8], table: &Table, child: Place)
        requires settled { Settled text.now table.now }
        ensures { Writes (with_name (child_name text.now table.now child)) self.old self.new }
    {
        match places::step_at(table, child) {
            Step::Element => self.put_text(&places::ELEMENT_NAME),
            Step::Key => self.put_text(&places::KEY_NAME),
            Step::Value => self.put_text(&places::VALUE_NAME),
            Step::Field(name) => self.put_text(name.bytes(text)),
            Step::Position(i) => self.put_position(i),
            Step::Variant(_, name) => self.put_text(name.bytes(text)),
        }
    }

    // Union slots never seen.
    pub fn put_gaps(&mut self, slot: u32, count: u32)
        ensures { Writes (gaps_in slot count) self.old self.new }
    {
        for i in 0..count {
            self.put_record(Record {
                kind: DataType::Null.code(),
                nullable: NULLABLE,
                strategy: Strategy::UnknownVariant.code(),
                number: (slot.wrapping_add(i) % 256) as u8,
                name_length: 0,
                children: 0,
            });
        }
    }

    // The entries of a map.
    #[tactic(auto, using(crate::proofs::Puts::entries), unfolding(crate::specs::Put::entries_in))]
    pub fn put_entries(&mut self, kind: u32)
        ensures { Writes (entries_in kind) self.old self.new }
    {
        if kind != shapes::MAP {
            return;
        }
        self.put_record(Record {
            kind: DataType::Struct.code(),
            nullable: NOT_NULLABLE,
            strategy: Strategy::None.code(),
            number: 0,
            name_length: places::ENTRIES_NAME.len() as u32,
            children: ENTRIES_FIELDS,
        });
        self.put_text(&places::ENTRIES_NAME);
    }
}
