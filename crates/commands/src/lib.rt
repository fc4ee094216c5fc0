// One command of the host (document 01, "Commands and texts"): a byte, then u16 operands, low byte first.

#![tactic(auto)]

ghost use Rattle.std.specs.Prelude.{◌≡◌, ◌+◌, ◌*◌, ◌<◌, ◌≤◌, length, get_or};
ghost use Rattle.std.proofs.Math.Option.{some};
ghost use Rattle.commands.specs.Commands.{operand_at, name_at, forms, form_of, operands, made, stands, bad_key, bad_name, read_command};
ghost use Rattle.commands.specs.Counted.{name_among};
ghost use Rattle.commands.specs.Reader.{behind};

use refusal::{Refusal, Refused};
use text::Name;

// The commands, named by Serde's data model. A number is a variant's, or how many values a tuple has.
#[derive(Clone, Copy)]
pub enum Command {
    Unit,
    Bool,
    I8,
    I16,
    I32,
    I64,
    U8,
    U16,
    U32,
    U64,
    F32,
    F64,
    Char,
    Text(Name),
    Bytes,
    None,
    Some,
    NewtypeStruct,
    Sequence,
    Tuple(u16),
    Map,
    Struct,
    Field(Name),
    End,
    UnitVariant(u16, Name),
    NewtypeVariant(u16, Name),
    TupleVariant(u16, Name, u16),
    StructVariant(u16, Name),
}

// What may stand at an offset. A key is one under map_as_struct.
#[derive(Clone, Copy)]
pub enum Due {
    Value,
    ValueOrEnd,
    FieldOrEnd,
    KeyOrEnd,
}

// The bytes of the commands, as document 01 fixes them. They are numbers, since they are what an input holds at an offset;
// `Command` is the enum that they are read as.
pub mod byte {
    pub const UNIT: u8 = 0x00;

    pub const BOOL: u8 = 0x01;

    pub const I8: u8 = 0x02;

    pub const I16: u8 = 0x03;

    pub const I32: u8 = 0x04;

    pub const I64: u8 = 0x05;

    pub const U8: u8 = 0x06;

    pub const U16: u8 = 0x07;

    pub const U32: u8 = 0x08;

    pub const U64: u8 = 0x09;

    pub const F32: u8 = 0x0A;

    pub const F64: u8 = 0x0B;

    pub const CHAR: u8 = 0x0C;

    pub const TEXT: u8 = 0x0D;

    pub const BYTES: u8 = 0x0E;

    pub const NONE: u8 = 0x0F;

    pub const SOME: u8 = 0x10;

    pub const NEWTYPE_STRUCT: u8 = 0x11;

    pub const SEQUENCE: u8 = 0x12;

    pub const TUPLE: u8 = 0x13;

    pub const MAP: u8 = 0x14;

    pub const STRUCT: u8 = 0x15;

    pub const FIELD: u8 = 0x16;

    pub const END: u8 = 0x17;

    pub const UNIT_VARIANT: u8 = 0x18;

    pub const NEWTYPE_VARIANT: u8 = 0x19;

    pub const TUPLE_VARIANT: u8 = 0x1A;

    pub const STRUCT_VARIANT: u8 = 0x1B;
}

// How many commands there are, from 00 on.
const COMMANDS: u8 = 28;

// How many operands the command with that byte has. A name counts as two.
#[tactic(auto, using(crate::proofs::Forms::counts), unfolding(crate::specs::Commands::operands, crate::specs::Commands::form_of))]
fn operand_count(byte: u8) -> u8
    requires { byte < length forms }
    ensures { result ≡ operands (form_of byte) }
{
    match byte {
        byte::TUPLE => 1,
        byte::TEXT | byte::FIELD => 2,
        byte::UNIT_VARIANT | byte::NEWTYPE_VARIANT | byte::STRUCT_VARIANT => 3,
        byte::TUPLE_VARIANT => 4,
        _ => 0,
    }
}

// The command reader: the commands, and the offset of what is read next. Reading moves it behind what was read.
#[derive(Clone, Copy)]
struct Reader<'a> {
    commands: &'a [u8],
    at: usize,
}

impl<'a> Reader<'a> {
    // Reads from an offset on.
    fn new(commands: &'a [u8], at: usize) -> Reader<'a>
        ensures commands { result.commands ≡ commands.entry }
        ensures at { result.at ≡ at }
    {
        Reader { commands, at }
    }

    // The byte there.
    fn byte(&mut self) -> u8
        requires { self.old.at < length self.old.commands.now }
        ensures read { result ≡ get_or self.old.commands.now self.old.at 0 }
        ensures moved { self.new ≡ behind self.old 1 }
    {
        let byte = self.commands[self.at];
        self.at += 1;
        byte
    }

    // The operand there: a u16, low byte first.
    fn operand(&mut self) -> u16
        requires { self.old.at + 2 ≤ length self.old.commands.now }
        ensures read { result ≡ operand_at self.old.commands.now self.old.at }
        ensures moved { self.new ≡ behind self.old 2 }
    {
        let low = self.byte();
        let high = self.byte();
        u16::from_le_bytes([low, high])
    }

    // The name there: its offset in the text, then its length.
    fn name(&mut self) -> Name
        requires { self.old.at + 4 ≤ length self.old.commands.now }
        ensures read { result ≡ name_at self.old.commands.now self.old.at }
        ensures moved { self.new ≡ behind self.old 4 }
    {
        let offset = self.operand();
        let length = self.operand();
        Name { offset, length }
    }
}

// What a reader made at an offset reads there; whoever calls these three holds no reader. First a command's byte.
pub fn read_byte(commands: &[u8], at: usize) -> u8
    requires { at < length commands.now }
    ensures { result ≡ get_or commands.now at 0 }
{
    Reader::new(commands, at).byte()
}

// An operand.
fn read_operand(commands: &[u8], at: usize) -> u16
    requires { at + 2 ≤ length commands.now }
    ensures { result ≡ operand_at commands.now at }
{
    Reader::new(commands, at).operand()
}

// A name.
pub fn read_name(commands: &[u8], at: usize) -> Name
    requires { at + 4 ≤ length commands.now }
    ensures { result ≡ name_at commands.now at }
{
    Reader::new(commands, at).name()
}

impl Due {
    // Whether the command with that byte can stand there.
    fn admits(self, byte: u8) -> bool
        ensures { result ≡ stands self byte }
    {
        match self {
            Due::Value => byte != byte::FIELD && byte != byte::END,
            Due::ValueOrEnd | Due::KeyOrEnd => byte != byte::FIELD,
            Due::FieldOrEnd => byte == byte::FIELD || byte == byte::END,
        }
    }

    // Whether the command with that byte stands for a key that is no text (refusal 6).
    fn is_bad_key(self, byte: u8) -> bool
        ensures { result ≡ bad_key self byte }
    {
        match self {
            Due::Value | Due::ValueOrEnd | Due::FieldOrEnd => false,
            Due::KeyOrEnd => byte != byte::TEXT && byte != byte::END,
        }
    }
}

// Whether a name is no part of the text, or not UTF-8 (refusal 5).
#[tactic(auto, unfolding(crate::specs::Commands::bad_name))]
fn is_bad_name(name: Name, text: &[u8]) -> bool
    ensures { result ≡ bad_name text.now (some name) }
{
    !name.is_inside(text) || !name.is_utf8(text)
}

// The same of the name among so many operands, which start at an offset: two are a name, one is a tuple's count,
// and more are a variant number and then a name.
#[tactic(auto, using(logic::specs::laws::Test::choice), unfolding(crate::specs::Counted::name_among, crate::specs::Commands::bad_name))]
fn has_bad_name(commands: &[u8], text: &[u8], at: usize, operands: u8) -> bool
    requires { at + 2 * operands ≤ length commands.now }
    ensures { result ≡ bad_name text.now (name_among operands commands.now at) }
{
    match operands {
        0 | 1 => false,
        2 => is_bad_name(read_name(commands, at), text),
        _ => is_bad_name(read_name(commands, at + 2), text),
    }
}

// The command with that byte, whose operands start at an offset. The last arm is 1B.
#[tactic(auto, using(crate::proofs::Forms::arms),
// Each arm tells its byte, and so its form.
unfolding(crate::specs::Commands::form_of, crate::specs::Commands::operands, crate::specs::Commands::made))]
fn command_of(byte: u8, commands: &[u8], at: usize) -> Command
    requires known { byte < length forms }
    requires whole { at + 2 * operands (form_of byte) ≤ length commands.now }
    ensures { result ≡ made (form_of byte) commands.now at }
{
    match byte {
        byte::UNIT => Command::Unit,
        byte::BOOL => Command::Bool,
        byte::I8 => Command::I8,
        byte::I16 => Command::I16,
        byte::I32 => Command::I32,
        byte::I64 => Command::I64,
        byte::U8 => Command::U8,
        byte::U16 => Command::U16,
        byte::U32 => Command::U32,
        byte::U64 => Command::U64,
        byte::F32 => Command::F32,
        byte::F64 => Command::F64,
        byte::CHAR => Command::Char,
        byte::TEXT => Command::Text(read_name(commands, at)),
        byte::BYTES => Command::Bytes,
        byte::NONE => Command::None,
        byte::SOME => Command::Some,
        byte::NEWTYPE_STRUCT => Command::NewtypeStruct,
        byte::SEQUENCE => Command::Sequence,
        byte::TUPLE => Command::Tuple(read_operand(commands, at)),
        byte::MAP => Command::Map,
        byte::STRUCT => Command::Struct,
        byte::FIELD => Command::Field(read_name(commands, at)),
        byte::END => Command::End,
        byte::UNIT_VARIANT => Command::UnitVariant(
            read_operand(commands, at),
            read_name(commands, at + 2),
        ),
        byte::NEWTYPE_VARIANT => Command::NewtypeVariant(
            read_operand(commands, at),
            read_name(commands, at + 2),
        ),
        byte::TUPLE_VARIANT => Command::TupleVariant(
            read_operand(commands, at),
            read_name(commands, at + 2),
            read_operand(commands, at + 6),
        ),
        _ => Command::StructVariant(read_operand(commands, at), read_name(commands, at + 2)),
    }
}

// The command at an offset. At one command refusal 4 is tested before 5, and 5 before 6. Commands, text and offset come one by one, here
// and in most of `shapes`: `leaves::Batch`, which holds the first two, stands above, with options that these do not read.
#[tactic(auto, using(crate::proofs::Forms::readings), unfolding(crate::specs::Commands::read_command, crate::specs::Commands::bad_command))]
pub fn read_command(
    commands: &[u8],
    text: &[u8],
    at: usize,
    due: Due,
) -> Result<(Command, usize), Refused>
    ensures { result ≡ read_command commands.now text.now at due }
{
    if commands.len() <= at {
        return Err(Refusal::BadCommand.at(at));
    }
    let byte = read_byte(commands, at);
    if COMMANDS <= byte {
        return Err(Refusal::BadCommand.at(at));
    }
    let operands = operand_count(byte);
    let width = 1 + 2 * operands as usize;
    if commands.len() - at < width {
        return Err(Refusal::BadCommand.at(at));
    }
    if !due.admits(byte) {
        return Err(Refusal::BadCommand.at(at));
    }
    if has_bad_name(commands, text, at + 1, operands) {
        return Err(Refusal::BadName.at(at));
    }
    if due.is_bad_key(byte) {
        return Err(Refusal::BadKey.at(at));
    }
    Ok((command_of(byte, commands, at + 1), at + width))
}
