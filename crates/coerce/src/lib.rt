// The joint of two primitive types that meet at one place (tracer.rs, coerce_primitive_type; the edition is not the Rust's). Samples
// give no strategy on primitives, and nullability is the caller's affair.

#![tactic(auto)]

ghost use Rattle.std.specs.Prelude.{◌≡◌, true, ◌&&◌, leb};
ghost use Rattle.datatype.specs.Codes.{code_of};
ghost use Rattle.coerce.specs.Joint.{is_integer, is_float, is_number, is_string, is_timestamp, is_to_string, yields_to_string, is_mixed, is_forbidden, number_joint, joint_of_numbers, joint_with_string, joint_of_timestamps, joint_of_unequal, joint, codes_of, differ, pairing, paired_by};

use datatype::DataType;
use datatype::DataType::{
    Float32 as F32, Float64 as F64, Int8 as I8, Int16 as I16, Int32 as I32, Int64 as I64,
    UInt8 as U8, UInt16 as U16, UInt32 as U32, UInt64 as U64,
};
use options::TracingOptions;

// The joint of two number types, a row and a column for each in the order of their codes.
const NUMBERS: [[DataType; 10]; 10] = [
    [I8, I64, I64, I64, I64, I64, I64, I64, F64, F64],
    [I64, I16, I64, I64, I64, I64, I64, I64, F64, F64],
    [I64, I64, I32, I64, I64, I64, I64, I64, F64, F64],
    [I64, I64, I64, I64, I64, I64, I64, I64, F64, F64],
    [I64, I64, I64, I64, U8, U64, U64, U64, F64, F64],
    [I64, I64, I64, I64, U64, U16, U64, U64, F64, F64],
    [I64, I64, I64, I64, U64, U64, U32, U64, F64, F64],
    [I64, I64, I64, I64, U64, U64, U64, U64, F64, F64],
    [F64, F64, F64, F64, F64, F64, F64, F64, F32, F64],
    [F64, F64, F64, F64, F64, F64, F64, F64, F64, F64],
];

// What two types come to that meet at one place: their joint, and whether they differed. Null differs from nothing.
#[derive(Clone, Copy)]
pub enum Pairing {
    // Equal ones, or Null and another.
    Alike(DataType),
    // Different ones, of which a place is widened.
    Widened(DataType),
    // Different ones that have no joint (refusal 10).
    Apart,
}

// Whether a type is one from `first` to `last`. Families of types are ranges of codes, or two types (document 01, "Field records").
fn is_within(data_type: DataType, first: DataType, last: DataType) -> bool
    ensures { result ≡ (leb (code_of first) (code_of data_type) && leb (code_of data_type) (code_of last)) }
{
    first.code() <= data_type.code() && data_type.code() <= last.code()
}

fn is_number(data_type: DataType) -> bool
    ensures { result ≡ is_number (code_of data_type) }
{
    is_within(data_type, DataType::Int8, DataType::Float64)
}

fn is_integer(data_type: DataType) -> bool
    ensures { result ≡ is_integer (code_of data_type) }
{
    is_within(data_type, DataType::Int8, DataType::UInt64)
}

fn is_float(data_type: DataType) -> bool
    ensures { result ≡ is_float (code_of data_type) }
{
    is_within(data_type, DataType::Float32, DataType::Float64)
}

fn is_string(data_type: DataType) -> bool
    ensures { result ≡ is_string (code_of data_type) }
{
    matches!(data_type, DataType::Utf8 | DataType::LargeUtf8)
}

// In either zone.
fn is_timestamp(data_type: DataType) -> bool
    ensures { result ≡ is_timestamp (code_of data_type) }
{
    matches!(data_type, DataType::Timestamp(_))
}

// Whether an integer meets a float, in either order.
fn are_mixed(a: DataType, b: DataType) -> bool
    ensures { result ≡ is_mixed (code_of a) (code_of b) }
{
    is_integer(a) && is_float(b) || is_integer(b) && is_float(a)
}

// Whether the edition forbids a joint of two number types.
fn are_forbidden(a: DataType, b: DataType, options: TracingOptions) -> bool
    ensures { result ≡ is_forbidden options.word (code_of a) (code_of b) }
{
    options.edition_2() && are_mixed(a, b)
}

// Whether the type gives way to a string under allow_to_string.
fn is_to_string(data_type: DataType) -> bool
    ensures { result ≡ is_to_string (code_of data_type) }
{
    data_type == DataType::Boolean || is_number(data_type)
}

// Whether the type gives way to a string that it meets.
fn yields_to_string(data_type: DataType, options: TracingOptions) -> bool
    ensures { result ≡ yields_to_string options.word (code_of data_type) }
{
    is_timestamp(data_type) || options.allow_to_string() && is_to_string(data_type)
}

// The joint of two number types under coerce_numbers.
fn number_joint(a: DataType, b: DataType) -> DataType
    requires first { is_number (code_of a) ≡ true }
    requires second { is_number (code_of b) ≡ true }
    ensures { code_of result ≡ number_joint (code_of a) (code_of b) }
{
    let first = DataType::Int8.code();
    NUMBERS[(a.code() - first) as usize][(b.code() - first) as usize]
}

// Unequal number types meet: the switch is asked, then the edition, then the table.
#[tactic(auto, using(logic::specs::laws::Test::choice), unfolding(crate::specs::Joint::joint_of_numbers))]
fn joint_of_numbers(a: DataType, b: DataType, options: TracingOptions) -> Option<DataType>
    requires first { is_number (code_of a) ≡ true }
    requires second { is_number (code_of b) ≡ true }
    ensures { codes_of result ≡ joint_of_numbers options.word (code_of a) (code_of b) }
{
    if !options.coerce_numbers() || are_forbidden(a, b, options) {
        return None;
    }
    Some(number_joint(a, b))
}

// A string type meets another type.
#[tactic(auto, using(logic::specs::laws::Test::choice), unfolding(crate::specs::Joint::joint_with_string))]
fn joint_with_string(string: DataType, other: DataType, options: TracingOptions) -> Option<DataType>
    ensures { codes_of result ≡ joint_with_string options.word (code_of string) (code_of other) }
{
    yields_to_string(other, options).then_some(string)
}

// Timestamps meet, or types that have no joint. Equal zones stay, unequal ones give string.
#[tactic(auto, using(logic::specs::laws::Test::choice), unfolding(crate::specs::Joint::joint_of_timestamps))]
fn joint_of_timestamps(prev: DataType, curr: DataType, options: TracingOptions) -> Option<DataType>
    ensures { codes_of result ≡ joint_of_timestamps options.word (code_of prev) (code_of curr) }
{
    if !is_timestamp(prev) || !is_timestamp(curr) {
        return None;
    }
    if prev.code() == curr.code() {
        Some(prev)
    } else {
        Some(options.string_type())
    }
}

// Unequal types meet, neither of them Null.
#[tactic(auto, using(logic::specs::laws::Test::choice), unfolding(crate::specs::Joint::joint_of_unequal))]
fn joint_of_unequal(prev: DataType, curr: DataType, options: TracingOptions) -> Option<DataType>
    ensures { codes_of result ≡ joint_of_unequal options.word (code_of prev) (code_of curr) }
{
    if is_number(prev) && is_number(curr) {
        return joint_of_numbers(prev, curr, options);
    }
    if is_string(prev) {
        return joint_with_string(prev, curr, options);
    }
    if is_string(curr) {
        return joint_with_string(curr, prev, options);
    }
    joint_of_timestamps(prev, curr, options)
}

// What a place that had `prev` and meets `curr` comes to. Equal types come first, since most values of a place repeat. Two types are
// compared by their codes, as the definitions do: of the derived `==` at two unknown types the proof did not close.
#[tactic(auto, using(logic::specs::laws::Test::choice), unfolding(crate::specs::Joint::pairing, crate::specs::Joint::joint))]
pub fn coerce_primitive_type(prev: DataType, curr: DataType, options: TracingOptions) -> Pairing
    ensures { paired_by result ≡ pairing options.word (code_of prev) (code_of curr) }
{
    if prev.code() == curr.code() || curr == DataType::Null {
        return Pairing::Alike(prev);
    }
    if prev == DataType::Null {
        return Pairing::Alike(curr);
    }
    match joint_of_unequal(prev, curr, options) {
        Some(joint) => Pairing::Widened(joint),
        None => Pairing::Apart,
    }
}
