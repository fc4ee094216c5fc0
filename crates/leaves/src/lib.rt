// The marks before a value, and a primitive at its place (tracer.rs, ensure_primitive).

#![tactic(auto)]

ghost use Rattle.std.specs.Prelude.{◌≡◌, ◌<◌, IfSome};
ghost use Rattle.std.specs.Option.{unwrap_or};
ghost use Rattle.words.specs.Word.{word};
ghost use Rattle.shapes.specs.Leaf.{Told};
ghost use Rattle.leaves.specs.Leaves.{Observes, stored, is_known};
ghost use Rattle.leaves.specs.Marks.{Chain, is_mark, marked, past_marks};
ghost use Rattle.leaves.specs.Quick.{same_at, quick_at};

use commands::byte;
use kinds::Met;
use options::TracingOptions;
use refusal::Refused;
use shapes::Leaf;
use words::{Place, Table, Whole};

// A batch as it is read: its commands, the texts that they speak of, and the options, which may know that the texts are ASCII.
#[derive(Clone, Copy)]
pub struct Batch<'a> {
    pub commands: &'a [u8],
    pub text: &'a [u8],
    pub options: TracingOptions,
    ghost told: { Told options text.now },
}

// Where a value is traced: its place, and how many levels are left for containers.
#[derive(Clone, Copy)]
pub struct Site {
    pub place: Place,
    pub levels: usize,
}

// The offset behind a batch that was read, and the count of places.
#[derive(Clone, Copy)]
pub struct Traced {
    pub next: usize,
    pub count: usize,
}

// Whether a command stands before a value as its mark.
fn is_mark(byte: u8) -> bool
    ensures { result ≡ is_mark byte }
{
    byte == byte::SOME || byte == byte::NEWTYPE_STRUCT
}

// The place is nullable where the mark is `some`.
#[tactic(auto, using(logic::specs::laws::Test::choice), unfolding(crate::specs::Marks::marked))]
fn mark(byte: u8, place: Place, table: &mut Table)
    ensures { table.new ≡ marked byte place table.old }
{
    if byte == byte::SOME {
        places::admit_null(table, place);
    }
}

// Marks the place nullable for each `some`, and gives the offset of the first command that is neither 10 nor 11. Offsets are
// gone through, and no slice: commands are read by `read_byte` alone (docs/DECISIONS.md).
#[tactic(auto, using(crate::specs::laws::Marks::past_cut, crate::specs::laws::Marks::past_mark, crate::specs::laws::Marks::past_other))]
pub fn past_marks(commands: &[u8], at: usize, place: Place, table: &mut Table) -> usize
    ensures { Chain.chain result table.new ≡ past_marks commands.now at place table.old }
{
    for here in at..commands.len() {
        let byte = commands::read_byte(commands, here);
        if !is_mark(byte) {
            return here;
        }
        mark(byte, place, table);
    }
    at.max(commands.len())
}

// The place has that kind, and is widened if so; and null was seen there if so.
#[tactic(auto, using(logic::specs::laws::Test::choice), unfolding(crate::specs::Leaves::stored))]
fn store(null: bool, met: Met, place: Place, table: &mut Table)
    ensures { table.new ≡ stored null met place table.old }
{
    words::set(table, place, Whole::Kind, met.kind);
    if met.widened {
        places::widen(table, place);
    }
    if null {
        places::admit_null(table, place);
    }
}

// Whether a value that is no null is of the type that is there.
#[tactic(auto, unfolding(crate::specs::Leaves::is_known))]
fn is_known(null: bool, before: u32, kind: u32) -> bool
    ensures { result ≡ is_known null before kind }
{
    !null && before == kind && kind < shapes::SEQUENCE
}

// A primitive at a place: the offset behind it.
#[tactic(auto, using(crate::specs::laws::Leaves::observe_known), unfolding(crate::specs::Leaves::observed))]
pub fn observe(
    options: TracingOptions,
    leaf: Leaf,
    here: usize,
    site: Site,
    table: &mut Table,
) -> Result<usize, Refused>
    ensures { Observes options.word leaf here site table.old table.new result }
{
    let before = words::get(table, site.place, Whole::Kind);
    if is_known(leaf.null, before, leaf.kind) {
        return Ok(leaf.next);
    }
    let met = kinds::meet(options, site.levels, before, leaf.kind);
    let met = met.map_err(|refusal| refusal.at(here))?;
    store(leaf.null, met, site.place, table);
    Ok(leaf.next)
}

// Whether a value of one byte stands at an offset, of the type that is at a place.
#[tactic(auto, unfolding(crate::specs::Quick::same_at))]
fn is_same(commands: &[u8], at: usize, place: Place, table: &Table) -> bool
    ensures { result ≡ same_at commands.now at place table.now }
{
    if commands.len() <= at {
        return false;
    }
    let kind = words::get(table, place, Whole::Kind);
    commands::read_byte(commands, at) as u32 == kind && shapes::is_own_byte(kind)
}

// The offset behind a primitive that is null or of the type that is there. Most values are: what stands before them and how
// kinds meet need not be asked, and types of one byte are told without asking what command it is.
#[tactic(auto, using(crate::specs::laws::Quick::quick_same, crate::specs::laws::Quick::quick_other))]
pub fn past_quick(
    commands: &[u8],
    text: &[u8],
    options: TracingOptions,
    at: usize,
    place: Place,
    table: &mut Table,
) -> Option<usize>
    requires { Told options text.now }
    ensures value { Chain.chain (unwrap_or result 0) table.new ≡ quick_at options.word commands.now text.now at place table.old }
    ensures onward { IfSome result (λ next. at < next) }
{
    if is_same(commands, at, place, table) {
        return Some(at + 1);
    }
    let leaf = shapes::leaf_at(commands, text, options, at)?;
    if leaf.null {
        places::admit_null(table, place);
        return Some(leaf.next);
    }
    if words::get(table, place, Whole::Kind) == leaf.kind {
        return Some(leaf.next);
    }
    None
}
