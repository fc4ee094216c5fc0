// What the field of a place is: its type and strategy, its nullable byte, and how many fields stand below it.

#![tactic(auto)]

ghost use Rattle.std.specs.Prelude.{◌≡◌, ◌&&◌, ◌||◌, ◌%◌, eqb};
ghost use Rattle.datatype.specs.Codes.{utf8, large_utf8, strategy_code};
ghost use Rattle.options.specs.Word.{string_dictionary_encoding};
ghost use Rattle.model.specs.Emission.{type_of, strategy_of};
ghost use Rattle.fields.specs.Fields.{count_with, count_below, field_count, nullable_at, lacking_at, is_dictionary, is_leaf};

use datatype::{DataType, Strategy};
use options::TracingOptions;
use places::Children;
use words::{Place, Table, Whole};

// The count of fields after a child: the slots of a union up to its own.
#[tactic(auto, using(logic::specs::laws::Test::choice))]
fn count_with(kind: u32, table: &Table, child: Place, count: u32) -> u32
    ensures { result ≡ count_with kind table.now child count }
{
    if kind == shapes::UNION {
        walk::slot_behind(table, child)
    } else {
        count.wrapping_add(1)
    }
}

// How many fields stand below a place.
fn count_children(table: &Table, kind: u32, place: Place) -> u32
    ensures { result ≡ count_below table.now kind place }
{
    Children::new(table, false, kind, place).fold(
        0,
        |count, child| count_with(kind, table, child, count),
    )
}

// How many fields a place's field has: the entries of a map, the slots of a union up to the highest seen, else its
// children.
#[tactic(auto, using(logic::specs::laws::Test::choice), unfolding(crate::specs::Fields::field_count))]
pub fn field_count(table: &Table, kind: u32, place: Place) -> u32
    ensures { result ≡ field_count table.now kind place }
{
    if kind == shapes::MAP {
        return 1;
    }
    count_children(table, kind, place)
}

// A string.
fn is_text(kind: u32) -> bool
    ensures { result ≡ (eqb kind utf8 || eqb kind large_utf8) }
{
    kind == u32::from(DataType::Utf8.code()) || kind == u32::from(DataType::LargeUtf8.code())
}

// A string that is emitted as a dictionary.
fn is_encoded(options: TracingOptions, kind: u32) -> bool
    ensures { result ≡ ((eqb kind utf8 || eqb kind large_utf8) && string_dictionary_encoding options.word) }
{
    is_text(kind) && options.string_dictionary_encoding()
}

// The type of a place of that kind.
#[tactic(auto, using(logic::specs::laws::Test::choice), unfolding(model::specs::Emission::type_of))]
pub fn type_of(options: TracingOptions, kind: u32) -> u8
    ensures { result ≡ type_of options.word kind % 256 }
{
    if kind == shapes::SEQUENCE {
        return options.list_type().code();
    }
    if kinds::emits_struct(kind) {
        return DataType::Struct.code();
    }
    if is_encoded(options, kind) {
        return options.dictionary_type().code();
    }
    (kind % 256) as u8
}

// How a field of that kind is to be read.
#[tactic(auto, using(logic::specs::laws::Test::choice), unfolding(model::specs::Emission::strategy_of))]
pub fn strategy_of(kind: u32) -> Strategy
    ensures { strategy_code result ≡ strategy_of kind }
{
    if kind == shapes::TUPLE {
        return Strategy::TupleAsStruct;
    }
    if kind == shapes::MAP_MODE {
        return Strategy::MapAsStruct;
    }
    Strategy::None
}

// The nullable byte: null was seen, or a sample lacks the field; and the place was widened or not.
#[tactic(auto, using(logic::specs::laws::Test::choice))]
pub fn nullable(table: &Table, place: Place, lacking: bool) -> u8
    ensures { result ≡ nullable_at table.now place lacking }
{
    let byte = words::get(table, place, Whole::Nullable);
    if lacking {
        (places::admitting(byte) % 256) as u8
    } else {
        (byte % 256) as u8
    }
}

// A struct field that some sample lacks.
pub fn is_lacking(table: &Table, kind: u32, place: Place, child: Place) -> bool
    ensures { result ≡ lacking_at table.now kind place child }
{
    kinds::is_struct(kind)
        && words::get(table, child, Whole::Held) < words::get(table, place, Whole::Samples)
}

// A union that is emitted as a dictionary.
pub fn is_dictionary(options: TracingOptions, table: &Table, place: Place) -> bool
    ensures { result ≡ is_dictionary options.word table.now place }
{
    words::get(table, place, Whole::Kind) == shapes::UNION
        && options.enums_without_data_as_strings()
        && walk::is_dataless(table, place)
}

// Whether nothing is emitted below a place.
#[tactic(auto, unfolding(crate::specs::Fields::is_leaf))]
pub fn is_leaf(options: TracingOptions, levels: usize, table: &Table, place: Place) -> bool
    ensures { result ≡ is_leaf options.word table.now (eqb levels 0) place }
{
    words::get(table, place, Whole::Kind) < shapes::SEQUENCE
        || levels == 0
        || is_dictionary(options, table, place)
}
