// The words of a place in the lent work table: whole words, and links of 16 bits, two to a word of its row. Callers lend the
// part that has a row for each place, and nothing else. The words of all places at one number of the row stand one after
// another, a plane, so that the tags of eight places can be looked at at a time. The call has no heap: this memory, which is lent
// and fixed, is all there is, so places are numbers, and what they hold are words and halves of words.

#![tactic(auto)]

ghost use Rattle.std.specs.Prelude.{◌≡◌, true, false, ◌+◌, ◌*◌, ◌<◌, ◌≤◌, ◌↔◌, length, ℕ};
ghost use Rattle.words.specs.Word.{table_places, table_words, row_words, plane_words, link_limit, IsRow, is_link};
ghost use Rattle.words.specs.Word.{plane_index, index_of};
ghost use Rattle.words.specs.declared.Half.TheVariants.{Block};
ghost use Rattle.words.specs.Numbers.{whole_number, half_number};
ghost use Rattle.words.specs.Word.{part_of, with_part, word, with_word, has_among, zeros, cleared_in, cleared_to};

use std::marker::Model;

// So many words: a row for each place.
pub const WORDS: usize = 16384;

// The part of the work table that is lent to the tracer.
pub type Table = [u32; WORDS];

// A place, by its number in the table.
#[derive(Clone, Copy)]
pub struct Place {
    number: usize,
}

impl Model for Place {
    ghost Value = { ℕ };

    ghost view = { λ p. p.number };

    ghost invariant = { λ p. IsRow p.number };

    ghost inverse = { λ n. record { number = n } };
}

impl Place {
    // No place has it as a child, so that where a child is linked it stands for none: a link is half a word, and has no room for more.
    pub const ROOT: Place = Place { number: 0 };

    pub fn new(number: usize) -> Self
        requires { IsRow number }
        ensures { result ≡ number }
    {
        Place { number }
    }

    pub fn number(self) -> usize
        ensures { (result ≡ self) × IsRow result }
    {
        self.number
    }

    pub fn is_root(self) -> bool
        ensures { result ≡ true ↔ self ≡ 0 }
    {
        self.number == 0
    }
}

// A whole word of a place, by its number: 0, 1 and 2 are free. What a place is, which whoever reads a value there writes; then
// what it is as one of its parent's children, which whoever reads the parent's parts writes.
#[derive(Clone, Copy)]
pub enum Whole {
    // These are free.
    Free0 = 0,
    Free1 = 1,
    Free2 = 2,
    // Its kind (`shapes`).
    Kind = 3,
    // Its nullable byte (`places`): whether null was seen, and whether it was widened.
    Nullable = 4,
    // How many containers were observed there.
    Samples = 5,
    // The step to it from its parent (`Step::code`), and its name in the text (`shapes::packed`).
    Step = 14,
    Name = 15,
    // How many of its parent's samples held it, and the number of the last that did.
    Held = 16,
    Mark = 17,
    // The tag of its name (`Name::tag`), and its position among its siblings; a tuple's positions that are made at once have
    // neither.
    Tag = 18,
    Position = 19,
}

// A link of a place, which is half a word, by its number.
#[derive(Clone, Copy)]
pub enum Half {
    // The first and the last of its children.
    First = 6,
    Last = 7,
    // The root of the search tree of its numbered children; and the first of its children, once they are put in order.
    Root = 8,
    // How many positions stand in a block: its first so many children are positions 0, 1, 2, .., each with the place number
    // after the one before. It is kept as a link is: a tuple's positions are counted in 16 bits.
    Block = 9,
    // Its left and right link in the search tree of its parent's numbered children; and the next of its siblings, once they are
    // put in order, in the right link's place.
    Left = 10,
    Right = 11,
    // The next of its siblings, and its parent.
    Next = 12,
    Parent = 13,
}

impl Half {
    pub const ORDERED_FIRST: Half = Half::Root;

    pub const ORDERED_NEXT: Half = Half::Right;

    fn number(self) -> usize
        ensures value { result ≡ half_number self }
        ensures link { is_link result ≡ true }
    {
        self as usize
    }
}

// Words of a gap and the plane behind it, which has one for each place; and those of a gap, which has the words of number 0 of so many
// places. Without gaps all words of a place would compete for the same few lines of a processor's cache.
const PLANE: usize = 1088;

const GAP: usize = 64;

// Words of a row, and so gaps.
const ROW_WORDS: usize = 16;

// The first link, and the first word behind the links.
const LINKS_FROM: usize = 6;

const LINKS_END: usize = 14;

// The gap before the first plane with links that putting children in order stores, and the first gap behind those planes.
const ORDERS_FROM: usize = 6;

const ORDERS_END: usize = 8;

// The gap that no plane follows.
const LAST_GAP: usize = 15;

// A link is below this. A word with links is the lower one, and this times the upper one.
const LINK_LIMIT: u32 = 65536;

// Where a word of the row stands.
#[tactic(auto, using(logic::specs::laws::Test::choice), unfolding(crate::specs::Word::plane_index))]
fn plane_index(row: usize, place: Place) -> usize
    requires { row < row_words }
    ensures { (result ≡ plane_index row place) × (result < table_words) }
{
    if row == 0 {
        return place.number / GAP * PLANE + place.number % GAP;
    }
    (row - 1) * PLANE + GAP + place.number
}

// Where a whole word stands. Behind the links numbers run ahead, for two links share a word.
#[tactic(auto, using(logic::specs::laws::Test::choice), unfolding(crate::specs::Word::row_word))]
fn whole_index(place: Place, field: Whole) -> usize
    ensures { (result ≡ index_of place (whole_number field)) × (result < table_words) }
{
    let field = field as usize;
    if field < LINKS_FROM {
        return plane_index(field, place);
    }
    plane_index(field - (LINKS_END - LINKS_FROM) / 2, place)
}

// Where the word stands that has a link in it.
#[tactic(auto, using(crate::specs::laws::Word::link_from, crate::specs::laws::Word::link_end, crate::specs::laws::Word::link_row))]
fn link_index(place: Place, field: Half) -> usize
    ensures { (result ≡ index_of place (half_number field)) × (result < table_words) }
{
    plane_index(LINKS_FROM + (field.number() - LINKS_FROM) / 2, place)
}

// A whole word of a place.
#[tactic(auto, using(crate::proofs::There::there), unfolding(crate::specs::Word::word, crate::specs::Word::part_of))]
pub fn get(table: &Table, place: Place, field: Whole) -> u32
    ensures { result ≡ word table.now place (whole_number field) }
{
    table[whole_index(place, field)]
}

// Stores a whole word of a place.
#[tactic(auto, using(crate::proofs::There::there), unfolding(crate::specs::Word::with_word, crate::specs::Word::with_part))]
pub fn set(table: &mut Table, place: Place, field: Whole, value: u32)
    ensures { table.new ≡ with_word table.old place (whole_number field) value }
{
    table[whole_index(place, field)] = value;
}

// The link that is a half of a word.
#[tactic(auto, using(logic::specs::laws::Test::choice), unfolding(crate::specs::Word::part_of))]
fn link_in(word: u32, field: Half) -> usize
    ensures { (result ≡ part_of (half_number field) word) × (result < link_limit) }
{
    if field.number() % 2 == 0 {
        (word % LINK_LIMIT) as usize
    } else {
        (word / LINK_LIMIT) as usize
    }
}

// A link of a place.
#[tactic(auto, using(crate::proofs::There::there), unfolding(crate::specs::Word::word))]
pub fn link(table: &Table, place: Place, field: Half) -> usize
    ensures { (result ≡ word table.now place (half_number field)) × (result < link_limit) }
{
    link_in(table[link_index(place, field)], field)
}

// The word with one of its links stored, the other as it was.
#[tactic(auto, using(logic::specs::laws::Test::choice), unfolding(crate::specs::Word::with_part))]
fn with_link(word: u32, field: Half, to: usize) -> u32
    requires { to < link_limit }
    ensures { result ≡ with_part (half_number field) word to }
{
    if field.number() % 2 == 0 {
        word / LINK_LIMIT * LINK_LIMIT + to as u32
    } else {
        to as u32 * LINK_LIMIT + word % LINK_LIMIT
    }
}

// Stores a link of a place, which may be any number of 16 bits.
#[tactic(auto, using(crate::proofs::There::there), unfolding(crate::specs::Word::with_word))]
pub fn set_link(table: &mut Table, place: Place, field: Half, to: usize)
    requires { to < link_limit }
    ensures { table.new ≡ with_word table.old place (half_number field) to }
{
    let at = link_index(place, field);
    table[at] = with_link(table[at], field, to);
}

// Stores a link of a place that leads to another, or to the root where it leads nowhere.
pub fn link_to(table: &mut Table, place: Place, field: Half, to: Place)
    ensures { table.new ≡ with_word table.old place (half_number field) to }
{
    set_link(table, place, field, to.number);
}

// Stores how many positions stand in the block of a place, which is kept as a link is.
pub fn set_block(table: &mut Table, place: Place, positions: u16)
    ensures { table.new ≡ with_word table.old place (half_number Block) positions }
{
    set_link(table, place, Half::Block, usize::from(positions));
}

// Whether one of so many places, from one on, has that value as that word. All are looked at: the compiler takes several at a time.
#[tactic(auto, unfolding(crate::specs::Word::has_among))]
pub fn has(table: &Table, from: usize, count: usize, field: Whole, value: u32) -> bool
    requires { from + count ≤ table_places }
    ensures { result ≡ has_among table.now from count (whole_number field) value }
{
    let mut some = false;
    for i in 0..count {
        some = some | (get(table, Place::new(from + i), field) == value);
    }
    some
}

// Zeroes every word.
#[tactic(auto, using(crate::proofs::Zeroed::all_filled))]
pub fn clear(table: &mut Table)
    ensures { table.new ≡ zeros }
{
    table.fill(0);
}

// How many words are zeroed with the places below `count` from where a gap starts: the gap, and those places of the plane behind
// it, but all where putting children in order stores links, for it is not shown to keep to those places. Behind the last gap is no plane.
#[tactic(auto, using(logic::specs::laws::Test::choice), unfolding(crate::specs::Word::cleared_in, crate::specs::Word::row_word))]
fn cleared_in(gap: usize, count: usize) -> usize
    requires { (gap < row_words) × (count ≤ table_places) }
    ensures { (result ≡ cleared_in gap count) × (gap * plane_words + result ≤ table_words) }
{
    if gap == LAST_GAP {
        return GAP;
    }
    if ORDERS_FROM <= gap && gap < ORDERS_END {
        return PLANE;
    }
    GAP + count
}

// Zeroes the words of the places below `count`, the gaps, and the planes whole in which putting children in order stores links.
pub fn clear_places(table: &mut Table, count: usize)
    requires { count ≤ table_places }
    ensures { table.new ≡ cleared_to table.old count }
{
    for gap in 0..ROW_WORDS {
        let from = gap * PLANE;
        table[from..from + cleared_in(gap, count)].fill(0);
    }
}
