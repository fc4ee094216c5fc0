// The second walk, which writes the field of a place and all below it; and the schema as a whole, with refusals 15 to 18
// (Tracer::to_schema). Nothing is written before everything is decided.

#![tactic(auto)]

ghost use Rattle.std.specs.Prelude.{◌≡◌, ◌≤◌};
ghost use Rattle.model.specs.Tracing.{place_limit};
ghost use Rattle.places.specs.Layout.{Settled};
ghost use Rattle.putting.specs.Output.{Writes};
ghost use Rattle.schema.specs.Emit.{over, field_at, emitted_at, emitted_below, child_at, Finishes, Emits};

use datatype::Strategy;
use options::TracingOptions;
use places::Children;
use putting::{Output, Record};
use refusal::Refusal;
use walk::{Counts, Source};
use words::{Place, Table, Whole};

// The bytes of a field record.
const RECORD: usize = 8;

// More than the tree is deep: a place's number is above its parent's.
const LEVELS: usize = places::PLACES;

// The record and the name of a place, with nothing below it. What is read and what is written come apart, here and below: of a struct of
// both each function would have to promise that it leaves the source as it was, which is no plainer.
fn put_field(source: &Source, place: Place, nullable: u8, number: u8, out: &mut Output)
    ensures { Writes (over field_at source.now place nullable number) out.old out.new }
{
    let kind = words::get(source.table, place, Whole::Kind);
    let name_length = places::name_length(source.text, source.table, place);
    out.put_name(source.text, source.table, place);
    if fields::is_dictionary(source.options, source.table, place) {
        out.put_record(Record {
            kind: source.options.dictionary_type().code(),
            nullable,
            strategy: Strategy::None.code(),
            number,
            name_length,
            children: 0,
        });
        return;
    }
    out.put_record(Record {
        kind: fields::type_of(source.options, kind),
        nullable,
        strategy: fields::strategy_of(kind).code(),
        number,
        name_length,
        children: fields::field_count(source.table, kind, place),
    });
}

// The field of a place, and all below it.
#[cycle(emitting)]
fn emit(source: &Source, levels: usize, place: Place, lacking: bool, number: u8, out: &mut Output)
    ensures { Writes (over emitted_at source.now levels place lacking number) out.old out.new }
{
    let nullable = fields::nullable(source.table, place, lacking);
    put_field(source, place, nullable, number, out);
    if fields::is_leaf(source.options, levels, source.table, place) {
        return;
    }
    let kind = words::get(source.table, place, Whole::Kind);
    emit_children(source, levels - 1, kind, place, out);
}

// The fields below a place.
#[cycle(emitting)]
fn emit_children(source: &Source, levels: usize, kind: u32, place: Place, out: &mut Output)
    ensures { Writes (over emitted_below source.now levels kind place) out.old out.new }
{
    out.put_entries(kind);
    let mut slot: u32 = 0;
    for child in Children::new(source.table, true, kind, place) {
        emit_child(source, levels, kind, place, slot, child, out);
        slot = walk::slot_behind(source.table, child);
    }
}

// A child, after the slots of a union that were never seen.
#[cycle(emitting)]
fn emit_child(
    source: &Source,
    levels: usize,
    kind: u32,
    place: Place,
    slot: u32,
    child: Place,
    out: &mut Output,
)
    ensures { Writes (over child_at source.now levels kind place slot child) out.old out.new }
{
    out.put_gaps(slot, walk::gaps(kind, source.table, slot, child));
    let number = (places::variant(source.table, child) % 256) as u8;
    let lacking = fields::is_lacking(source.table, kind, place, child);
    emit(source, levels, child, lacking, number, out);
}

// Refusals 15 to 18, and else the schema is written.
fn finish(
    source: &Source,
    counts: Counts,
    fields: &mut [u8],
    names: &mut [u8],
) -> Result<Counts, Refusal>
    ensures { Finishes source.now fields names counts result }
{
    let kind = words::get(source.table, Place::ROOT, Whole::Kind);
    if places::is_null(source.table, Place::ROOT) {
        return Err(Refusal::NullableRoot);
    }
    if kind == shapes::UNKNOWN {
        return Err(Refusal::NullRoot);
    }
    if !kinds::emits_struct(kind) {
        return Err(Refusal::RootNotStruct);
    }
    if fields.len() < counts.records as usize * RECORD {
        return Err(Refusal::ShortBuffer);
    }
    if names.len() < counts.names as usize {
        return Err(Refusal::ShortBuffer);
    }
    let mut out = Output::new(fields, names);
    emit_children(source, LEVELS, kind, Place::ROOT, &mut out);
    Ok(counts)
}

// The schema of what was traced, so many places whose root is place 0: the counts of field records, name bytes and columns, or a
// refusal (12 to 18). Their children are put in order first. What is lent comes one by one, as from the C interface, and the table is
// handed over whole.
pub fn to_schema(
    options: TracingOptions,
    text: &[u8],
    count: usize,
    table: &mut Table,
    fields: &mut [u8],
    names: &mut [u8],
) -> Result<Counts, Refusal>
    requires settled { Settled text.now table.old }
    requires most { count ≤ place_limit }
    ensures { Emits options.word count text table fields names result }
{
    order::sort_places(text, count, table);
    let source = Source {
        options,
        text,
        table,
    };
    let counts = source.walk_place(LEVELS, Place::ROOT)?;
    finish(&source, counts, fields, names)
}
