// New places (tracer.rs, ensure_*): children that are found or made, samples counted, and the children that a container makes.

#![tactic(auto)]

ghost use Rattle.std.specs.Prelude.{◌≡◌, ℕ, ◌<◌, ◌&&◌, [], ◌∷◌, ◌==◌, ◌≢◌};
ghost use Rattle.shapes.specs.Steps.{field_code, code_of, name_of, Good};
ghost use Rattle.search.specs.Search.{Comparable};
ghost use Rattle.growth.specs.Growth.{last_child, linked_behind, described, appended_behind, position_behind, entered};
ghost use Rattle.growth.specs.Growth.{confirmed, counted, ensured_by, ensured, EnsuredAs, touched, sampled};
ghost use Rattle.growth.specs.Growth.{made_all, positions_from, appended_from, positions_made, made, MadeAs};
ghost use Rattle.model.specs.Kinds.{tuple_kind};
ghost use Rattle.datatype.specs.Codes.{null};
ghost use Rattle.shapes.specs.declared.Step.TheVariants.{Key, Value};

use places::Places;
use refusal::Refusal;
use shapes::{Container, Step};
use text::Name;
use words::{Half, Place, Table, Whole};

// Enters a new child into the search tree, if it is numbered.
#[tactic(auto, using(logic::specs::laws::Test::chosen, logic::specs::laws::Test::other), unfolding(crate::specs::Growth::entered))]
fn enter(place: Place, code: u32, child: Place, table: &mut Table)
    requires { place < child }
    ensures { table.new ≡ entered place code child table.old }
{
    if !search::is_numbered(code) {
        return;
    }
    let slot = search::seek(place, code, child.number(), table);
    words::link_to(table, slot.place, slot.field, child);
}

// The last child of a place, if it has any. 0 is no child, as the table has it.
#[tactic(auto, using(logic::specs::laws::Test::chosen, logic::specs::laws::Test::other), unfolding(crate::specs::Growth::last_child))]
fn last_child(place: Place, table: &Table) -> Option<Place>
    ensures { result ≡ last_child place table.now }
{
    if words::link(table, place, Half::First) == 0 {
        None
    } else {
        Some(places::link(table, place, Half::Last))
    }
}

// The link to a new last child: from the last before it, else from the place whose first it is.
fn link(place: Place, child: Place, table: &mut Table)
    ensures { table.new ≡ linked_behind place (last_child place table.old) child table.old }
{
    match last_child(place, table) {
        Some(sibling) => words::link_to(table, sibling, Half::Next, child),
        None => words::link_to(table, place, Half::First, child),
    }
}

// The words of a child that tell where it stands.
#[tactic(auto, unfolding(crate::specs::Growth::described))]
fn describe(place: Place, code: u32, name: Name, child: Place, table: &mut Table)
    ensures { table.new ≡ described place code name child table.old }
{
    words::link_to(table, child, Half::Parent, place);
    words::set(table, child, Whole::Step, code);
    words::set(table, child, Whole::Name, shapes::packed(name));
}

// A new place as the last child. It is described first: behind these stores the compiler loads the place's links again, and need
// not keep them while the search for a field runs.
fn append(place: Place, code: u32, name: Name, child: Place, table: &mut Table)
    ensures { table.new ≡ appended_behind place code name child table.old }
{
    describe(place, code, name, child, table);
    link(place, child, table);
    words::link_to(table, place, Half::Last, child);
}

// The child that was found, whose name must be the one given (a variant's number has one name); else refusal 9.
#[tactic(auto, using(logic::specs::laws::Test::chosen, logic::specs::laws::Test::other), unfolding(crate::specs::Growth::confirmed))]
fn confirm(text: &[u8], name: Name, child: Place, table: &Table) -> Result<Place, Refusal>
    requires { Comparable text.now table.now name child }
    ensures { (n : ℕ) → counted result n ≡ confirmed text.now name child n table.now }
{
    if places::given_name(table, child).equals(name, text) {
        Ok(child)
    } else {
        Err(Refusal::TwoNames)
    }
}

// The position that a new child gets among its siblings: one behind the last's.
fn next_position(place: Place, table: &Table) -> u32
    ensures { result ≡ position_behind (last_child place table.now) table.now }
{
    match last_child(place, table) {
        Some(sibling) => words::get(table, sibling, Whole::Position).wrapping_add(1),
        None => 0,
    }
}

// A new last child, at a step where the place has none, if there is room; else refusal 11. The step comes as its code and its name: a
// `Step` would ask of callers that the two belong together.
pub fn add(
    places: &mut Places<'_, '_>,
    place: Place,
    code: u32,
    name: Name,
) -> Result<Place, Refusal>
    requires here { place < places.old.count }
    requires good { Good places.old.text.now name }
    ensures { EnsuredAs (ensured_by places.old.text.now place code name places.old.count places.old.table.now 0)
        places.old places.new result }
{
    if places::PLACES <= places.count {
        return Err(Refusal::TooManyPlaces);
    }
    let child = Place::new(places.count);
    let tag = name.tag(places.text);
    let table = &mut *places.table;
    let position = next_position(place, table);
    append(place, code, name, child, table);
    words::set(table, child, Whole::Tag, tag);
    words::set(table, child, Whole::Position, position);
    enter(place, code, child, table);
    places.count += 1;
    Ok(child)
}

// The child of a place at a step that is no field: found, or made where there is room. A field is found by its name
// (`search::find_field`), which is not asked to be UTF-8 unless it is new; the others are told by their codes (`search::child_at`). `Step`
// has fields all the same, for a place's words tell every step: an enum without them would be a second one beside it.
pub fn ensure(places: &mut Places<'_, '_>, place: Place, step: Step) -> Result<Place, Refusal>
    requires here { place < places.old.count }
    requires good { Good places.old.text.now (name_of step) }
    requires no_field { code_of step ≢ field_code }
    ensures { EnsuredAs (ensured places.old.text.now place step places.old.count places.old.table.now) places.old places.new result }
{
    match search::child_at(places.text, place, step, places.count, places.table) {
        Some(child) => confirm(places.text, step.name(), child, places.table),
        None => add(places, place, step.code(), step.name()),
    }
}

// Counts the child once among those that the place's present sample holds. This and `sample` take the table alone: of the struct they
// would ask that the child and the place are among its places.
#[tactic(auto, using(logic::specs::laws::Test::chosen, logic::specs::laws::Test::other), unfolding(crate::specs::Growth::touched))]
pub fn touch(place: Place, child: Place, table: &mut Table)
    ensures { table.new ≡ touched place child table.old }
{
    let sample = words::get(table, place, Whole::Samples);
    if words::get(table, child, Whole::Mark) == sample {
        return;
    }
    let held = words::get(table, child, Whole::Held);
    words::set(table, child, Whole::Held, held.wrapping_add(1));
    words::set(table, child, Whole::Mark, sample);
}

// The place has that kind, and one more sample.
#[tactic(auto, unfolding(crate::specs::Growth::sampled))]
pub fn sample(place: Place, kind: u32, table: &mut Table)
    ensures { table.new ≡ sampled place kind table.old }
{
    let samples = words::get(table, place, Whole::Samples);
    words::set(table, place, Whole::Kind, kind);
    words::set(table, place, Whole::Samples, samples.wrapping_add(1));
}

// A map's key and value.
#[tactic(auto, using(shapes::specs::laws::Shapes::no_name_good))]
fn make_pair(places: &mut Places<'_, '_>, place: Place) -> Result<(), Refusal>
    requires { place < places.old.count }
    ensures { MadeAs (made_all places.old.text.now place (Key ∷ Value ∷ []) places.old.count places.old.table.now)
        places.old places.new result }
{
    ensure(places, place, Step::Key)?;
    ensure(places, place, Step::Value)?;
    Ok(())
}

// All positions of a tuple at a place that has children.
#[tactic(auto, using(shapes::specs::laws::Shapes::no_name_good))]
fn seek_positions(places: &mut Places<'_, '_>, place: Place, positions: u16) -> Result<(), Refusal>
    requires { place < places.old.count }
    ensures { MadeAs (made_all places.old.text.now place (positions_from 0 positions) places.old.count places.old.table.now)
        places.old places.new result }
{
    for i in 0..positions {
        ensure(places, place, Step::Position(i))?;
    }
    Ok(())
}

// A position behind those before it, with no search.
fn append_position(places: &mut Places<'_, '_>, place: Place, i: u16) -> Result<(), Refusal>
    requires { place < places.old.count }
    ensures { MadeAs (appended_from place i 1 places.old.count places.old.table.now) places.old places.new result }
{
    let number = places.count;
    if places::PLACES <= number {
        return Err(Refusal::TooManyPlaces);
    }
    let step = Step::Position(i);
    append(
        place,
        step.code(),
        step.name(),
        Place::new(number),
        places.table,
    );
    places.count += 1;
    Ok(())
}

// All positions of a tuple at a place that has no children. The loop is that of `seek_positions` but for what it calls: handed over, that
// would need clauses of its own, which is no plainer.
fn append_positions(
    places: &mut Places<'_, '_>,
    place: Place,
    positions: u16,
) -> Result<(), Refusal>
    requires { place < places.old.count }
    ensures { MadeAs (appended_from place 0 positions places.old.count places.old.table.now) places.old places.new result }
{
    for i in 0..positions {
        append_position(places, place, i)?;
    }
    Ok(())
}

// All positions of a tuple: a block where they are the place's first children.
fn make_positions(places: &mut Places<'_, '_>, place: Place, positions: u16) -> Result<(), Refusal>
    requires { place < places.old.count }
    ensures { MadeAs (positions_made places.old.text.now place positions places.old.count places.old.table.now)
        places.old places.new result }
{
    if words::link(places.table, place, Half::First) != 0 {
        return seek_positions(places, place, positions);
    }
    append_positions(places, place, positions)?;
    words::set_block(places.table, place, positions);
    Ok(())
}

// Whether a tuple comes to a place that was unknown.
fn is_first_tuple(kind: u32, before: u32) -> bool
    ensures { result ≡ (kind == tuple_kind && before == null) }
{
    kind == shapes::TUPLE && before == shapes::UNKNOWN
}

// The children that a container makes at its own command. A tuple makes its positions where the place was unknown.
#[tactic(auto, using(shapes::specs::laws::Shapes::no_name_good))]
pub fn make(
    places: &mut Places<'_, '_>,
    place: Place,
    container: Container,
    before: u32,
) -> Result<(), Refusal>
    requires { place < places.old.count }
    ensures { MadeAs
        (made places.old.text.now place container.kind container.positions before places.old.count places.old.table.now)
        places.old places.new result }
{
    if container.kind == shapes::SEQUENCE {
        ensure(places, place, Step::Element)?;
        return Ok(());
    }
    if container.kind == shapes::MAP {
        return make_pair(places, place);
    }
    if is_first_tuple(container.kind, before) {
        return make_positions(places, place, container.positions);
    }
    Ok(())
}
