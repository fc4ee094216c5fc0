// What a command begins, the steps down from a place, and what stands before a part of a container. Nothing is traced
// here: these read commands alone.

#![tactic(auto)]

ghost use Rattle.std.specs.Prelude.{◌≡◌, get_or, true, false};
ghost use Rattle.datatype.specs.Codes.{code_of as type_code};
ghost use Rattle.text.specs.declared.Name.{Name};
ghost use Rattle.text.specs.Name.{bytes_of};
ghost use Rattle.text.specs.Utf8.{is_utf8};
ghost use Rattle.chrono.specs.Text.{text_type};
ghost use Rattle.commands.specs.declared.Command.TheVariants.{Text};
ghost use Rattle.commands.specs.declared.Due.TheVariants.{ValueOrEnd};
ghost use Rattle.commands.specs.Commands.{read_command, text_byte};
ghost use Rattle.model.specs.Kinds.{map_kind};
ghost use Rattle.shapes.specs.declared.Step.TheVariants.{Element};
ghost use Rattle.shapes.specs.Steps.{code_of, name_of, packed_name, unpacked_name, Inside};
ghost use Rattle.shapes.specs.Shapes.{map_kind_of, shape_at, value_part, part_at, plain_byte, plain_at, takes_value, begins_at, named_at};
ghost use Rattle.shapes.specs.Leaf.{Told, plain_kind, is_own_byte, leaf_at};
ghost use Rattle.shapes.specs.Field.{opener_of, due_of, field_at};

use chrono::text_type;
use commands::{Command, Due, byte};
use datatype::DataType;
use options::TracingOptions;
use refusal::{Refusal, Refused};
use text::Name;

// Kinds: a primitive type's code, or one of these. They are numbers, since they are words of the work table, whose memory is fixed: a
// place's kind is any word that stands there, and public functions take any, so that an enum would ask more of their callers.
pub const UNKNOWN: u32 = 0;

pub const SEQUENCE: u32 = 22;

pub const STRUCT: u32 = 24;

pub const MAP: u32 = 25;

pub const UNION: u32 = 26;

pub const TUPLE: u32 = 27;

pub const MAP_MODE: u32 = 28;

// A step down from a place.
#[derive(Clone, Copy)]
pub enum Step {
    Element,
    Key,
    Value,
    Field(Name),
    Position(u16),
    Variant(u16, Name),
}

// The codes of the steps that have no number of their own.
pub const ELEMENT: u32 = 0;

pub const KEY: u32 = 1;

pub const VALUE: u32 = 2;

pub const FIELD: u32 = 3;

impl Step {
    // The word that tells steps apart, but for the names of fields: no whole step, so no `From`.
    pub fn code(self) -> u32
        ensures { result ≡ code_of self }
    {
        match self {
            Step::Element => ELEMENT,
            Step::Key => KEY,
            Step::Value => VALUE,
            Step::Field(_) => FIELD,
            Step::Position(i) => 4 + 2 * (i as u32),
            Step::Variant(number, _) => 5 + 2 * (number as u32),
        }
    }

    // The name that goes with it, empty where there is none: the word of the table that has it is 0 there.
    pub fn name(self) -> Name
        ensures { result ≡ name_of self }
    {
        match self {
            Step::Element | Step::Key | Step::Value | Step::Position(_) => Name {
                offset: 0,
                length: 0,
            },
            Step::Field(name) | Step::Variant(_, name) => name,
        }
    }
}

// A name in one word, so that names given by the same part of the text are equal words. No `From`: it is the work table that
// has names so, and the word's own name says which word it is. Commands and words hold a name without its text, so that what is
// asked of a name, that it lies inside the text (`Inside`), and of one that is stored that it is UTF-8 too (`Good`), stands in
// contracts and not in its type.
pub fn packed(name: Name) -> u32
    ensures { result ≡ packed_name name }
{
    (name.offset as u32) * 65536 + (name.length as u32)
}

pub fn unpacked(word: u32) -> Name
    ensures { result ≡ unpacked_name word }
{
    Name {
        offset: (word / 65536) as u16,
        length: (word % 65536) as u16,
    }
}

// What a variant holds: nothing, a value, the positions of a tuple, the fields of a struct.
#[derive(Clone, Copy)]
pub enum Contents {
    Unit,
    Value,
    Positions(u16),
    Fields,
}

// What a container is: its kind, and how many positions a tuple has, else 0. Any kind may come with any count, as for `growth::make`: of an
// enum only a tuple would have one, which would ask more of callers.
#[derive(Clone, Copy)]
pub struct Container {
    pub kind: u32,
    pub positions: u16,
}

impl Container {
    pub const SEQUENCE: Container = Container {
        kind: SEQUENCE,
        positions: 0,
    };

    pub const STRUCT: Container = Container {
        kind: STRUCT,
        positions: 0,
    };
}

// What a command begins: a primitive and whether it is null, the parts of a container, a variant. 10 and 11 are passed
// before, and 16 and 17 begin no value: the fourth of four cases, which an Option around three would say no plainer.
#[derive(Clone, Copy)]
pub enum Shape {
    Leaf(bool, u32),
    Parts(Container),
    Variant(u16, Name, Contents),
    NoValue,
}

// What stands before a part of a container: its end and the offset behind it, or the step to the part and the offset of its
// value. Not an Option: the end has an offset, too.
#[derive(Clone, Copy)]
pub enum Part {
    Ended(usize),
    Step(Step, usize),
}

// A value that is a primitive: whether it is null, its type and the offset behind it. Null is said beside the type, which is Null then,
// for the type is met with the place's as a number: an Option would be turned into one.
#[derive(Clone, Copy)]
pub struct Leaf {
    pub null: bool,
    pub kind: u32,
    pub next: usize,
}

// The kind of a map.
#[tactic(auto, using(logic::specs::laws::Test::chosen, logic::specs::laws::Test::other))]
fn map_kind(options: TracingOptions) -> u32
    ensures { result ≡ map_kind_of options.word }
{
    if options.map_as_struct() {
        MAP_MODE
    } else {
        MAP
    }
}

// The type that a text observes, tried as a date where dates are guessed.
fn tried_kind(name: Name, text: &[u8], options: TracingOptions) -> u32
    requires { Inside text.now name }
    ensures { result ≡ text_type options.word (bytes_of text.now name) }
{
    text_type(name.bytes(text), options).code() as u32
}

// The type that a text observes. It stands apart from `tried_kind` so that where dates are not guessed the compiler makes no call.
fn text_kind(name: Name, text: &[u8], options: TracingOptions) -> u32
    requires { Inside text.now name }
    ensures { result ≡ text_type options.word (bytes_of text.now name) }
{
    if options.guess_dates() {
        return tried_kind(name, text, options);
    }
    options.string_type().code() as u32
}

// A value of that type that is no null.
fn primitive(data_type: DataType) -> Shape
    ensures { result ≡ Shape.Leaf false (type_code data_type) }
{
    Shape::Leaf(false, data_type.code() as u32)
}

// What a command begins.
#[tactic(auto, using(crate::proofs::Shapes::begins), unfolding(crate::specs::Shapes::shape_at))]
pub fn shape_of(command: Command, text: &[u8], options: TracingOptions) -> Shape
    requires { (name : Name) → command ≡ Text name → Inside text.now name }
    ensures { result ≡ shape_at options.word text.now command }
{
    match command {
        Command::Unit | Command::None => Shape::Leaf(true, UNKNOWN),
        Command::Bool => primitive(DataType::Boolean),
        Command::I8 => primitive(DataType::Int8),
        Command::I16 => primitive(DataType::Int16),
        Command::I32 => primitive(DataType::Int32),
        Command::I64 => primitive(DataType::Int64),
        Command::U8 => primitive(DataType::UInt8),
        Command::U16 => primitive(DataType::UInt16),
        Command::U32 | Command::Char => primitive(DataType::UInt32),
        Command::U64 => primitive(DataType::UInt64),
        Command::F32 => primitive(DataType::Float32),
        Command::F64 => primitive(DataType::Float64),
        Command::Text(name) => Shape::Leaf(false, text_kind(name, text, options)),
        Command::Bytes => primitive(options.binary_type()),
        Command::Some | Command::NewtypeStruct | Command::Field(_) | Command::End => Shape::NoValue,
        Command::Sequence => Shape::Parts(Container::SEQUENCE),
        Command::Tuple(positions) => Shape::Parts(Container {
            kind: TUPLE,
            positions,
        }),
        Command::Map => Shape::Parts(Container {
            kind: map_kind(options),
            positions: 0,
        }),
        Command::Struct => Shape::Parts(Container::STRUCT),
        Command::UnitVariant(number, name) => Shape::Variant(number, name, Contents::Unit),
        Command::NewtypeVariant(number, name) => Shape::Variant(number, name, Contents::Value),
        Command::TupleVariant(number, name, n) => Shape::Variant(
            number,
            name,
            Contents::Positions(n),
        ),
        Command::StructVariant(number, name) => Shape::Variant(number, name, Contents::Fields),
    }
}

// Whether the command with that byte is a value with no operands: of those up to struct, text and tuple have some.
#[tactic(auto, unfolding(crate::specs::Shapes::plain_byte))]
fn is_plain_byte(byte: u8) -> bool
    ensures { result ≡ plain_byte byte }
{
    byte <= byte::STRUCT && byte != byte::TEXT && byte != byte::TUPLE
}

// Whether one stands at an offset.
#[tactic(auto, unfolding(crate::specs::Shapes::plain_at))]
fn is_plain(commands: &[u8], at: usize) -> bool
    ensures { result ≡ plain_at commands.now at }
{
    at < commands.len() && is_plain_byte(commands::read_byte(commands, at))
}

// Whether a command with that byte begins at an offset.
#[tactic(auto, unfolding(crate::specs::Shapes::begins_at))]
pub fn begins_at(commands: &[u8], byte: u8, at: usize) -> bool
    ensures { result ≡ begins_at commands.now byte at }
{
    at < commands.len() && commands::read_byte(commands, at) == byte
}

// Whether one does, with a name behind it that is inside the text.
#[tactic(auto, unfolding(crate::specs::Shapes::named_at, crate::specs::Shapes::begins_at))]
fn is_named(commands: &[u8], text: &[u8], byte: u8, at: usize) -> bool
    ensures { result ≡ named_at commands.now text.now byte at }
{
    begins_at(commands, byte, at)
        && 5 <= commands.len() - at
        && commands::read_name(commands, at + 1).is_inside(text)
}

// The type of a value before text, by its byte: the byte itself, but a char is a UInt32.
#[tactic(auto, using(logic::specs::laws::Test::chosen, logic::specs::laws::Test::other), unfolding(crate::specs::Leaf::plain_kind))]
fn plain_kind(byte: u8) -> u32
    ensures { result ≡ plain_kind byte }
{
    if byte == byte::CHAR { 8 } else { byte as u32 }
}

// Types below this code have the byte of their command as it. 0C is a char, which is a UInt32.
const OWN_BYTES: u32 = 12;

// Whether a type is not Null, and its code its command's byte.
#[tactic(auto, unfolding(crate::specs::Leaf::is_own_byte))]
pub fn is_own_byte(kind: u32) -> bool
    ensures { result ≡ is_own_byte kind }
{
    kind != UNKNOWN && kind < OWN_BYTES
}

// Whether a name is UTF-8, which need not be tested where the text is known to be ASCII.
fn is_good(name: Name, text: &[u8], options: TracingOptions) -> bool
    requires inside { Inside text.now name }
    requires told { Told options text.now }
    ensures { result ≡ is_utf8 (bytes_of text.now name) }
{
    options.ascii || name.is_utf8(text)
}

// A text that is a value.
fn text_leaf(commands: &[u8], text: &[u8], options: TracingOptions, at: usize) -> Option<Leaf>
    requires text { get_or commands.now at 0 ≡ text_byte }
    requires told { Told options text.now }
    ensures { result ≡ leaf_at options.word commands.now text.now at }
{
    if is_named(commands, text, byte::TEXT, at) {
        let name = commands::read_name(commands, at + 1);
        if is_good(name, text, options) {
            return Some(Leaf {
                null: false,
                kind: text_kind(name, text, options),
                next: at + 5,
            });
        }
    }
    None
}

// The value at an offset, where it is a primitive; none where another command stands, or none that can stand there. The parts of a
// batch come one by one: read out of the struct at each value, wide records take 4 % more instructions.
pub fn leaf_at(commands: &[u8], text: &[u8], options: TracingOptions, at: usize) -> Option<Leaf>
    requires { Told options text.now }
    ensures { result ≡ leaf_at options.word commands.now text.now at }
{
    if commands.len() <= at {
        return None;
    }
    let byte = commands::read_byte(commands, at);
    if byte < byte::TEXT {
        return Some(Leaf {
            null: byte == byte::UNIT,
            kind: plain_kind(byte),
            next: at + 1,
        });
    }
    match byte {
        byte::TEXT => text_leaf(commands, text, options, at),
        byte::BYTES => Some(Leaf {
            null: false,
            kind: options.binary_type().code() as u32,
            next: at + 1,
        }),
        byte::NONE => Some(Leaf {
            null: true,
            kind: UNKNOWN,
            next: at + 1,
        }),
        _ => None,
    }
}

// The byte that opens a field: 16 in a struct, and that of a text in map mode.
#[tactic(auto, using(logic::specs::laws::Test::chosen, logic::specs::laws::Test::other))]
fn opener(kind: u32) -> u8
    ensures { result ≡ opener_of kind }
{
    match kind {
        STRUCT => byte::FIELD,
        _ => byte::TEXT,
    }
}

// What is due where a field can stand. It asks what `opener` asks, but the two are never wanted together.
#[tactic(auto, using(logic::specs::laws::Test::chosen, logic::specs::laws::Test::other))]
fn due_in(kind: u32) -> Due
    ensures { result ≡ due_of kind }
{
    match kind {
        STRUCT => Due::FieldOrEnd,
        _ => Due::KeyOrEnd,
    }
}

// The field at an offset, of a struct or of a map in map mode: a name inside the text, which may still not be UTF-8, or none
// where the end stands.
pub fn field_at(commands: &[u8], text: &[u8], kind: u32, at: usize) -> Result<Option<Name>, Refusal>
    ensures { result ≡ field_at commands.now text.now kind at }
{
    if is_named(commands, text, opener(kind), at) {
        return Ok(Some(commands::read_name(commands, at + 1)));
    }
    if begins_at(commands, byte::END, at) {
        return Ok(None);
    }
    let Err(refused) = commands::read_command(commands, text, at, due_in(kind)) else {
        return Ok(None);
    };
    Err(refused.refusal)
}

// A part that is a value, or the end where it is due. A value with no operands is there at once.
pub fn value_part(
    commands: &[u8],
    text: &[u8],
    step: Step,
    due: Due,
    at: usize,
) -> Result<Part, Refused>
    requires { takes_value due ≡ true }
    ensures { result ≡ value_part commands.now step at (read_command commands.now text.now at due) }
{
    if is_plain(commands, at) {
        return Ok(Part::Step(step, at));
    }
    let (_, next) = commands::read_command(commands, text, at, due)?;
    if commands::read_byte(commands, at) == byte::END {
        Ok(Part::Ended(next))
    } else {
        Ok(Part::Step(step, at))
    }
}

// An element of a sequence, or its end, which its byte tells.
pub fn element_part(commands: &[u8], text: &[u8], at: usize) -> Result<Part, Refused>
    ensures { result ≡ value_part commands.now Element at
        (read_command commands.now text.now at ValueOrEnd) }
{
    if begins_at(commands, byte::END, at) {
        return Ok(Part::Ended(at + 1));
    }
    value_part(commands, text, Step::Element, Due::ValueOrEnd, at)
}

// A key or a value of a map, by turns.
#[tactic(auto, using(logic::specs::laws::Test::chosen, logic::specs::laws::Test::other), unfolding(crate::specs::Shapes::part_at))]
pub fn entry_part(commands: &[u8], text: &[u8], i: usize, at: usize) -> Result<Part, Refused>
    ensures { result ≡ part_at commands.now text.now map_kind 0 i at }
{
    if i % 2 == 0 {
        value_part(commands, text, Step::Key, Due::ValueOrEnd, at)
    } else {
        value_part(commands, text, Step::Value, Due::Value, at)
    }
}
