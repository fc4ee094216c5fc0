// The child of a place at a step: fields found in order of first sight, numbered children in a search tree (tracer.rs has a
// HashMap and a Vec there).

#![tactic(auto)]

ghost use Rattle.std.specs.Prelude.{◌≡◌, ◌+◌, ◌-◌, ◌/◌, ◌%◌, ◌<◌, ◌≤◌, ◌≢◌, IfSome};
ghost use Rattle.model.specs.Tracing.{place_limit};
ghost use Rattle.words.specs.Word.{word, IsRow};
ghost use Rattle.text.specs.Name.{bytes_of};
ghost use Rattle.text.specs.Tag.{tag_of};
ghost use Rattle.shapes.specs.Steps.{field_code, code_of, no_name, Inside};
ghost use Rattle.places.specs.Layout.{Tagged, Ready, last_word};
ghost use Rattle.words.specs.Numbers.{half_number};
ghost use Rattle.search.specs.Child.{child_of, IsSlot};
ghost use Rattle.search.specs.Tree.{is_numbered, side_word, follow, seek};
ghost use Rattle.search.specs.Search.{Comparable, find_in, in_block, child_at};
ghost use Rattle.search.specs.Scan.{few_places, many_places, is_tagged, is_field, field_among, past_others, is_sparse, Passed};

use shapes::Step;
use text::Name;
use words::{Half, Place, Table, Whole};

// So many places are looked at together, and so many where the first and the last child stand far apart.
const FEW: usize = 8;

const MANY: usize = 16;

// So far.
const FAR: usize = 64;

// No usual name is longer. Such names leave the search by number: names of 60,000 bytes that overlap in the text would take long there.
const LONG: u16 = 255;

// What is searched is read apart, here and below, and `places::Places` is not asked for: it holds a table that is lent to change.

// Whether one place is another's field and its name has that tag. The tags are compared first: most differ there. The root,
// place 0, is nobody's child.
#[tactic(auto, unfolding(crate::specs::Scan::is_tagged))]
fn is_tagged(place: Place, tag: u32, child: Place, table: &Table) -> bool
    ensures { result ≡ is_tagged place tag child table.now }
{
    words::get(table, child, Whole::Tag) == tag
        && !child.is_root()
        && words::link(table, child, Half::Parent) == place.number()
        && words::get(table, child, Whole::Step) == shapes::FIELD
}

// Whether one place is another's field with that name.
#[tactic(auto, using(crate::specs::laws::Scan::no_tagged, crate::specs::laws::Scan::tagged_named))]
fn is_field(text: &[u8], place: Place, name: Name, tag: u32, child: Place, table: &Table) -> bool
    requires comparable { Comparable text.now table.now name child }
    requires tag_value { (tag ≡ tag_of (bytes_of text.now name)) × Tagged text.now table.now child }
    ensures { result ≡ is_field text.now place name child table.now }
{
    is_tagged(place, tag, child, table) && places::given_name(table, child).equals(name, text)
}

// The first of FEW places, from one on, that is the place's field with that name. Mostly none of them has the tag. What tells the field
// is handed on apart, here, in `find_linked` and in `find_from`: as a struct with these as methods, records of 64 fields take 1.8 % more
// instructions, and typical returns 1.7 %; with `find_linked` alone as it is, maps as structs take 1.2 % more.
fn find_among(
    text: &[u8],
    place: Place,
    name: Name,
    tag: u32,
    from: usize,
    count: usize,
    table: &Table,
) -> Option<Place>
    requires ready { Ready text.now table.now count place × Inside text.now name }
    requires tag_value { tag ≡ tag_of (bytes_of text.now name) }
    requires within { from + few_places ≤ place_limit }
    ensures { result ≡ child_of (field_among text.now place name table.now from few_places) }
{
    if !words::has(table, from, FEW, Whole::Tag, tag) {
        return None;
    }
    for number in from..from + FEW {
        let child = Place::new(number);
        if is_field(text, place, name, tag, child, table) {
            return Some(child);
        }
    }
    None
}

// Places with other tags are passed, MANY at a time, while so many stand before the last child. A `for` by steps would be no
// plainer: where the loop ends is the answer.
fn past_others(tag: u32, from: usize, last: usize, table: &Table) -> usize
    requires below { from ≤ last }
    requires row { IsRow last }
    ensures { result ≡ past_others tag table.now from ((last - from) / many_places) }
{
    let mut here = from;
    while here + MANY <= last {
        if words::has(table, here, MANY, Whole::Tag, tag) {
            return here;
        }
        here += MANY;
    }
    here
}

// Whether fewer than one in MANY of so many places up to the last child are children: its position tells how many are.
#[tactic(auto, unfolding(crate::specs::Scan::is_sparse))]
fn is_sparse(span: usize, last: Place, table: &Table) -> bool
    ensures { result ≡ is_sparse span last table.now }
{
    (words::get(table, last, Whole::Position) as usize) * MANY < span
}

// The place's field with that name, found from child to child. Long names are found so. `places::Children` goes in the order of a kind,
// and none is at hand here and in `find`: one made up, for first sight's order, would be no plainer. Links are read as they stand: with
// `places::link`, which asks of each whether it is a place's number, returns with a wide struct that is seen once take 8 % more
// instructions.
fn find_linked(
    text: &[u8],
    place: Place,
    name: Name,
    tag: u32,
    count: usize,
    table: &Table,
) -> Option<Place>
    requires ready { Ready text.now table.now count place × Inside text.now name }
    requires tag_value { tag ≡ tag_of (bytes_of text.now name) }
    ensures found { result ≡ child_of (find_in text.now place field_code name table.now) }
    ensures below { IfSome result (λ child. child < count) }
{
    let mut link = words::link(table, place, Half::First);
    while link != 0 {
        let child = Place::new(link);
        if is_field(text, place, name, tag, child, table) {
            return Some(child);
        }
        link = words::link(table, child, Half::Next);
    }
    None
}

// The place's field with that name, where the places before one are passed. FEW places from a multiple of FEW on are all
// in the table, so the search starts at one. With this loop in `find_field` itself, small records take 4 % more instructions; as a
// `for` in steps, typical returns take 3 % more, and records of 64 fields 9 %.
fn find_from(
    text: &[u8],
    place: Place,
    name: Name,
    tag: u32,
    from: usize,
    last: usize,
    count: usize,
    table: &Table,
) -> Option<Place>
    requires ready { Ready text.now table.now count place × Inside text.now name }
    requires tag_value { tag ≡ tag_of (bytes_of text.now name) }
    requires last_value { last ≡ word table.now place last_word }
    requires passed { (from % few_places ≡ 0) × Passed text.now table.now count place name from }
    ensures found { result ≡ child_of (find_in text.now place field_code name table.now) }
    ensures below { IfSome result (λ child. child < count) }
{
    let mut here = from;
    while here <= last {
        let found = find_among(text, place, name, tag, here, count, table);
        if found.is_some() {
            return found;
        }
        here += FEW;
    }
    None
}

// The field of a place with that name, found in first_seen order. Children stand in ascending order, so places are looked at by
// number from the first child to the last; from child to child where few of them are children, or the name is long.
pub fn find_field(
    text: &[u8],
    place: Place,
    name: Name,
    count: usize,
    table: &Table,
) -> Option<Place>
    requires { Ready text.now table.now count place × Inside text.now name }
    ensures found { result ≡ child_of (find_in text.now place field_code name table.now) }
    ensures below { IfSome result (λ child. child < count) }
{
    let first = words::link(table, place, Half::First);
    if first == 0 {
        return None;
    }
    let tag = name.tag(text);
    if LONG < name.length {
        return find_linked(text, place, name, tag, count, table);
    }
    let last = words::link(table, place, Half::Last);
    let mut here = first / FEW * FEW;
    if FAR <= last - first {
        if is_sparse(last - first, Place::new(last), table) {
            return find_linked(text, place, name, tag, count, table);
        }
        here = past_others(tag, here, last, table);
    }
    find_from(text, place, name, tag, here, last, count, table)
}

// Whether a child with that code is numbered: a variant or a position.
pub fn is_numbered(code: u32) -> bool
    ensures { result ≡ is_numbered code }
{
    shapes::FIELD < code
}

// The child that a link of the search tree leads to. Links lead to places with higher numbers: none other is followed. It is no method
// of `Parent`, and neither is `seek`: each turn asks it of another place, and `growth` seeks where a child is not yet among those made.
#[tactic(auto, using(logic::specs::laws::Test::chosen, logic::specs::laws::Test::other), unfolding(crate::specs::Tree::follow))]
fn follow(place: Place, field: Half, count: usize, table: &Table) -> Option<Place>
    requires { count ≤ place_limit }
    ensures { result ≡ child_of (follow place (half_number field) count table.now) }
{
    let link = words::link(table, place, field);
    if place.number() < link && link < count {
        Some(Place::new(link))
    } else {
        None
    }
}

// The link of a child by the lowest bit.
#[tactic(auto, using(logic::specs::laws::Test::chosen, logic::specs::laws::Test::other), unfolding(crate::specs::Tree::side_word))]
fn side(bits: u32) -> Half
    ensures { half_number result ≡ side_word bits }
{
    if bits % 2 == 0 {
        return Half::Left;
    }
    Half::Right
}

// A link of the search tree, as the place that has it and its name there, and the child that it leads to.
#[derive(Clone, Copy)]
pub struct Slot {
    pub child: Option<Place>,
    pub place: Place,
    pub field: Half,
}

// The link where the search for a numbered child ends: it leads to the child with the code, or to none. A bit of the code tells at each
// child which link to take, so that at most 17 children are visited.
pub fn seek(place: Place, code: u32, count: usize, table: &Table) -> Slot
    requires below { place < count }
    requires within { count ≤ place_limit }
    ensures { IsSlot result (seek place code count table.now) }
{
    let mut bits = code / 2;
    let mut at = place;
    let mut field = Half::Root;
    let mut next = follow(place, Half::Root, count, table);
    while let Some(child) = next {
        if words::get(table, child, Whole::Step) == code {
            return Slot {
                child: next,
                place: at,
                field,
            };
        }
        at = child;
        field = side(bits);
        bits = bits / 2;
        next = follow(at, field, count, table);
    }
    Slot {
        child: None,
        place: at,
        field,
    }
}

// The child with that number: 0 stands for none.
#[tactic(auto, using(crate::specs::laws::Child::child_none, crate::specs::laws::Child::child_some))]
fn child_of(number: usize) -> Option<Place>
    requires { IsRow number }
    ensures { result ≡ child_of number }
{
    if number == 0 {
        None
    } else {
        Some(Place::new(number))
    }
}

// A place one of whose children is looked for, and the table in which it is one of those that were made. It is no `places::Places`, which
// holds a table that is lent to change.
#[derive(Clone, Copy)]
struct Parent<'a> {
    text: &'a [u8],
    table: &'a Table,
    count: usize,
    place: Place,
    ghost ready: { Ready text.now table.now count place },
}

impl Parent<'_> {
    // The child at a step that is no field: it is told by its code, whatever its name. `find_linked` tells a child otherwise: one
    // function over the test would need clauses on it that are longer than this loop.
    fn find(&self, code: u32) -> Option<Place>
        requires { code ≢ field_code }
        ensures found { result ≡ child_of (find_in self.now.text.now self.now.place code no_name self.now.table.now) }
        ensures below { IfSome result (λ child. child < self.now.count) }
    {
        let mut child = places::link(self.table, self.place, Half::First);
        while !child.is_root() {
            if words::get(self.table, child, Whole::Step) == code {
                return Some(child);
            }
            child = places::link(self.table, child, Half::Next);
        }
        None
    }

    // The numbered child with that code.
    fn find_numbered(&self, code: u32) -> Option<Place>
        ensures found { result ≡ child_of (seek self.now.place code self.now.count self.now.table.now).child }
        ensures below { IfSome result (λ child. child < self.now.count) }
    {
        seek(self.place, code, self.count, self.table).child
    }

    // Whether that position stands in the place's block.
    #[tactic(auto, unfolding(crate::specs::Search::in_block))]
    fn is_in_block(&self, i: u16) -> bool
        ensures { result ≡ in_block self.now.place i self.now.count self.now.table.now }
    {
        (i as usize) < words::link(self.table, self.place, Half::Block)
            && words::link(self.table, self.place, Half::First) + (i as usize) < self.count
    }
}

// The child of a place at a step that is no field: a position in the block stands by its number, any other numbered
// child is found in the search tree, the others from sibling to sibling.
pub fn child_at(text: &[u8], place: Place, step: Step, count: usize, table: &Table) -> Option<Place>
    requires ready { Ready text.now table.now count place }
    requires no_field { code_of step ≢ field_code }
    ensures found { result ≡ child_of (child_at text.now place step count table.now) }
    ensures below { IfSome result (λ child. child < count) }
{
    let parent = Parent {
        text,
        table,
        count,
        place,
    };
    let code = step.code();
    if !is_numbered(code) {
        return parent.find(code);
    }
    let Step::Position(i) = step else {
        return parent.find_numbered(code);
    };
    if parent.is_in_block(i) {
        return child_of(words::link(table, place, Half::First) + (i as usize));
    }
    parent.find_numbered(code)
}
