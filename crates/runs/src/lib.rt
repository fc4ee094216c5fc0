// Runs of elements that change nothing: the present sample of a sequence holds one already, and they are of its type.

#![tactic(auto)]

ghost use Rattle.std.specs.Prelude.{◌≡◌, ◌+◌, ◌≤◌, length};
ghost use Rattle.words.specs.Word.{word, IsRow};
ghost use Rattle.places.specs.Layout.{first_word};
ghost use Rattle.runs.specs.Runs.{block_length, is_held, are_all, behind_run, past_held, past_same};

use words::{Half, Place, Table, Whole};

// Whether the child is an element that the place's present sample holds.
#[tactic(auto, unfolding(crate::specs::Runs::is_held))]
fn is_held(place: Place, child: Place, table: &Table) -> bool
    ensures { result ≡ is_held place child table.now }
{
    !child.is_root()
        && words::get(table, child, Whole::Step) == shapes::ELEMENT
        && words::get(table, child, Whole::Name) == 0
        && words::get(table, child, Whole::Mark) == words::get(table, place, Whole::Samples)
}

// So many commands of a run are looked at together.
const BLOCK: usize = 16;

// Whether BLOCK commands, from an offset on, are that byte. All are looked at: the compiler takes them together. Offsets are
// gone through, here and below, and no slice: commands are read by `read_byte` alone (docs/DECISIONS.md).
fn are_all(commands: &[u8], byte: u8, at: usize) -> bool
    requires { at + block_length ≤ length commands.now }
    ensures { result ≡ are_all commands.now byte at block_length }
{
    !(at..at + BLOCK).fold(
        false,
        |other, here| other | (commands::read_byte(commands, here) != byte),
    )
}

// An offset from which the run of one byte ends where it does from this one. How far it goes is its own choice: by BLOCK
// commands at a time, which is quick. A `for` in steps of BLOCK would have to stop where less than a block is left, too, and
// `as_chunks` would read commands otherwise than by `read_byte`.
#[tactic(auto, using(crate::specs::laws::Runs::run_block))]
fn past_blocks(commands: &[u8], byte: u8, at: usize) -> usize
    ensures { behind_run commands.now byte result ≡ behind_run commands.now byte at }
{
    let mut here = at;
    while here < commands.len() && BLOCK <= commands.len() - here && are_all(commands, byte, here) {
        here += BLOCK;
    }
    here
}

// The offset behind a run of one byte.
fn past_run(commands: &[u8], byte: u8, at: usize) -> usize
    ensures { result ≡ behind_run commands.now byte at }
{
    let start = past_blocks(commands, byte, at);
    (start..commands.len())
        .find(|here| commands::read_byte(commands, *here) != byte)
        .unwrap_or(start.max(commands.len()))
}

// The offset behind the values of a type, where they are of one byte.
#[tactic(auto, using(logic::specs::laws::Test::choice, crate::specs::laws::Runs::own_fits), unfolding(crate::specs::Runs::past_held))]
fn past_held(commands: &[u8], kind: u32, at: usize) -> usize
    ensures { result ≡ past_held commands.now kind at }
{
    if shapes::is_own_byte(kind) {
        past_run(commands, kind as u8, at)
    } else {
        at
    }
}

// The offset behind elements that change nothing: the present sample holds one already, of their type.
#[tactic(auto, using(logic::specs::laws::Test::choice), unfolding(crate::specs::Runs::past_same))]
pub fn past_same(commands: &[u8], at: usize, place: Place, table: &Table) -> usize
    requires { IsRow (word table.now place first_word) }
    ensures { result ≡ past_same commands.now at place table.now }
{
    let child = Place::new(words::link(table, place, Half::First));
    if !is_held(place, child, table) {
        return at;
    }
    past_held(commands, words::get(table, child, Whole::Kind), at)
}
