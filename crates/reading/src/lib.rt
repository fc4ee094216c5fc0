// Reads the values of a batch and traces each at its place (from_samples/mod.rs). A container's contents are read by a
// call on itself, with the levels left falling from 20: a level for each step down, and one for each dot of its name. That the
// batch and the places speak of one text is asked of each reader: of a struct round both each would have to promise that it leaves the
// batch as it was, which is no plainer.

#![tactic(auto)]

ghost use Rattle.std.specs.Prelude.{◌≡◌, true, ◌-◌, ◌<◌};
ghost use Rattle.model.specs.Kinds.{sequence_kind, map_kind, tuple_kind, is_struct};
ghost use Rattle.shapes.specs.Steps.{Unnamed, Inside, Good};
ghost use Rattle.shapes.specs.Shapes.{is_parted};
ghost use Rattle.reading.specs.Reading.{dots_in, value_at, parted};
ghost use Rattle.reading.specs.Promises.{named, container as container_at, variant, inside, parts, part, Reads};

use commands::{Due, byte};
use leaves::{Batch, Site};
use places::Places;
use refusal::{Refusal, Refused};
use shapes::{Container, Contents, Leaf, Part, Shape, Step};
use text::Name;

// The levels left below a step.
fn lower(levels: usize, name: Name, text: &[u8]) -> usize
    requires { Inside text.now name }
    ensures { result ≡ levels - dots_in text.now name }
{
    let dots = name.dots(text);
    if levels <= dots { 0 } else { levels - dots }
}

// One value at a place, with so many levels left for containers.
#[cycle(readers)]
pub fn read_value(
    batch: &Batch<'_>,
    at: usize,
    site: Site,
    places: &mut Places<'_, '_>,
) -> Result<usize, Refused>
    requires here { site.place < places.old.count }
    requires same_text { places.old.text.now ≡ batch.now.text.now }
    ensures { Reads batch.entry.now at site places.old places.new value_at result }
{
    let here = leaves::past_marks(batch.commands, at, site.place, places.table);
    match shapes::leaf_at(batch.commands, batch.text, batch.options, here) {
        Some(leaf) => leaves::observe(batch.options, leaf, here, site, places.table),
        None => read_parted(batch, here, site, places),
    }
}

// The value of a field with that name. Only below a container do the dots of the name count. It is `read_value` but for
// them, and stands apart because there it is read in the loop over the fields, with no call for a primitive: this spares
// about a twelfth of the time of a typical return.
#[cycle(readers)]
fn read_named(
    batch: &Batch<'_>,
    name: Name,
    at: usize,
    site: Site,
    places: &mut Places<'_, '_>,
) -> Result<usize, Refused>
    requires here { site.place < places.old.count }
    requires same_text { places.old.text.now ≡ batch.now.text.now }
    requires inside { Inside batch.now.text.now name }
    ensures { Reads batch.entry.now at site places.old places.new (named name) result }
{
    let here = leaves::past_marks(batch.commands, at, site.place, places.table);
    match shapes::leaf_at(batch.commands, batch.text, batch.options, here) {
        Some(leaf) => leaves::observe(batch.options, leaf, here, site, places.table),
        None => {
            let levels = lower(site.levels, name, batch.text);
            let below = Site { levels, ..site };
            read_parted(batch, here, below, places)
        }
    }
}

// A value past its marks: a container or a variant, or what cannot stand there. Whoever calls this has seen that it is no
// primitive, but the contract does not ask it.
#[cycle(readers)]
#[tactic(auto, using(crate::specs::laws::Sound::struct_parted, crate::specs::laws::Sound::sequence_parted))]
fn read_parted(
    batch: &Batch<'_>,
    here: usize,
    site: Site,
    places: &mut Places<'_, '_>,
) -> Result<usize, Refused>
    requires here { site.place < places.old.count }
    requires same_text { places.old.text.now ≡ batch.now.text.now }
    ensures { Reads batch.entry.now here site places.old places.new parted result }
{
    if shapes::begins_at(batch.commands, byte::STRUCT, here) {
        return read_container(batch, Container::STRUCT, here, here + 1, site, places);
    }
    if shapes::begins_at(batch.commands, byte::SEQUENCE, here) {
        return read_container(batch, Container::SEQUENCE, here, here + 1, site, places);
    }
    let (command, next) = commands::read_command(batch.commands, batch.text, here, Due::Value)?;
    match shapes::shape_of(command, batch.text, batch.options) {
        Shape::Leaf(null, kind) => {
            let leaf = Leaf { null, kind, next };
            leaves::observe(batch.options, leaf, here, site, places.table)
        }
        Shape::Parts(container) => read_container(batch, container, here, next, site, places),
        Shape::Variant(number, name, contents) => read_variant(
            batch, number, name, contents, here, next, site, places,
        ),
        Shape::NoValue => Err(Refusal::BadCommand.at(here)),
    }
}

// A container whose command stands at `here` and whose parts start at `at`. Inlined, it is opened where its kind is known: else deep
// ones take 7 % more instructions.
#[cycle(readers)]
#[inline(always)]
fn read_container(
    batch: &Batch<'_>,
    container: Container,
    here: usize,
    at: usize,
    site: Site,
    places: &mut Places<'_, '_>,
) -> Result<usize, Refused>
    requires here { site.place < places.old.count }
    requires same_text { places.old.text.now ≡ batch.now.text.now }
    requires kind_value { is_parted container.kind ≡ true }
    ensures { Reads batch.entry.now at site places.old places.new (container_at container.kind container.positions here) result }
{
    let made = opening::open_container(places, batch.options, container, site.levels, site.place);
    made.map_err(|refusal| refusal.at(here))?;
    let levels = site.levels - 1;
    let below = Site { levels, ..site };
    read_parts(batch, container, at, below, places)
}

// The parts of a container by its kind. The levels are those left below it. The loops stand apart: with those inlined where a
// container is opened, maps as structs take 4 % more instructions.
#[cycle(readers)]
#[inline(never)]
fn read_parts(
    batch: &Batch<'_>,
    container: Container,
    start: usize,
    site: Site,
    places: &mut Places<'_, '_>,
) -> Result<usize, Refused>
    requires here { site.place < places.old.count }
    requires same_text { places.old.text.now ≡ batch.now.text.now }
    requires kind_value { is_parted container.kind ≡ true }
    ensures { Reads batch.entry.now start site places.old places.new (parts container.kind container.positions) result }
{
    let kind = container.kind;
    if kinds::is_struct(kind) {
        return read_fields(batch, kind, start, site, places);
    }
    if kind == shapes::SEQUENCE {
        return read_elements(batch, start, site, places);
    }
    if kind == shapes::MAP {
        return read_entries(batch, start, site, places);
    }
    read_positions(batch, container.positions, start, site, places)
}

// The fields of a struct, or of a map in map mode, up to the end. What the loop reads of the batch is taken out before: else wide
// structs take 4 % more instructions.
#[cycle(readers)]
fn read_fields(
    batch: &Batch<'_>,
    kind: u32,
    start: usize,
    site: Site,
    places: &mut Places<'_, '_>,
) -> Result<usize, Refused>
    requires here { site.place < places.old.count }
    requires same_text { places.old.text.now ≡ batch.now.text.now }
    requires kind_value { is_struct kind ≡ true }
    ensures { Reads batch.entry.now start site places.old places.new (parts kind 0) result }
{
    let Batch {
        commands,
        text,
        options,
    } = *batch;
    let mut at = start;
    let place = site.place;
    let levels = site.levels;
    while let Some(child) = opening::open_field(places, commands, kind, at, place).map_err(
        |refusal| refusal.at(at),
    )? {
        if let Some(next) = leaves::past_quick(
            commands,
            text,
            options,
            at + 5,
            child,
            places.table,
        ) {
            at = next;
        } else {
            let name = commands::read_name(commands, at + 1);
            let below = Site {
                place: child,
                levels,
            };
            at = read_named(batch, name, at + 5, below, places)?;
        }
    }
    Ok(at + 1)
}

// The elements of a sequence, up to the end.
// The two loops below repeat its arms: as one loop, which asks for the kind at each part, lists of numbers take 2.8 % more instructions.
#[cycle(readers)]
fn read_elements(
    batch: &Batch<'_>,
    start: usize,
    site: Site,
    places: &mut Places<'_, '_>,
) -> Result<usize, Refused>
    requires here { site.place < places.old.count }
    requires same_text { places.old.text.now ≡ batch.now.text.now }
    ensures { Reads batch.entry.now start site places.old places.new (parts sequence_kind 0) result }
{
    let mut at = start;
    let place = site.place;
    let levels = site.levels;
    loop {
        match shapes::element_part(batch.commands, batch.text, at)? {
            Part::Ended(next) => {
                return Ok(next);
            }
            Part::Step(step, value) => {
                let below = Site { place, levels };
                let next = read_part(batch, step, at, value, below, places)?;
                at = runs::past_same(batch.commands, next, place, places.table);
            }
        }
    }
}

// The keys and values of a map, by turns, up to the end. A `for` over `0..` would end by a count, too, which the end comes before.
#[cycle(readers)]
fn read_entries(
    batch: &Batch<'_>,
    start: usize,
    site: Site,
    places: &mut Places<'_, '_>,
) -> Result<usize, Refused>
    requires here { site.place < places.old.count }
    requires same_text { places.old.text.now ≡ batch.now.text.now }
    ensures { Reads batch.entry.now start site places.old places.new (parts map_kind 0) result }
{
    let mut i: usize = 0;
    let mut at = start;
    let place = site.place;
    let levels = site.levels;
    loop {
        match shapes::entry_part(batch.commands, batch.text, i, at)? {
            Part::Ended(next) => {
                return Ok(next);
            }
            Part::Step(step, value) => {
                let below = Site { place, levels };
                at = read_part(batch, step, at, value, below, places)?;
            }
        }
        i += 1;
    }
}

// The values of a tuple, so many.
#[cycle(readers)]
fn read_positions(
    batch: &Batch<'_>,
    positions: u16,
    start: usize,
    site: Site,
    places: &mut Places<'_, '_>,
) -> Result<usize, Refused>
    requires here { site.place < places.old.count }
    requires same_text { places.old.text.now ≡ batch.now.text.now }
    ensures { Reads batch.entry.now start site places.old places.new (parts tuple_kind positions) result }
{
    let mut at = start;
    let place = site.place;
    let levels = site.levels;
    for i in 0..positions {
        match shapes::value_part(
            batch.commands,
            batch.text,
            Step::Position(i),
            Due::Value,
            at,
        )? {
            Part::Ended(next) => {
                return Ok(next);
            }
            Part::Step(step, value) => {
                let below = Site { place, levels };
                at = read_part(batch, step, at, value, below, places)?;
            }
        }
    }
    Ok(at)
}

// The value of a part that is no field, at the child that its step leads to.
#[cycle(readers)]
fn read_part(
    batch: &Batch<'_>,
    step: Step,
    here: usize,
    at: usize,
    site: Site,
    places: &mut Places<'_, '_>,
) -> Result<usize, Refused>
    requires here { site.place < places.old.count }
    requires same_text { places.old.text.now ≡ batch.now.text.now }
    requires unnamed { Unnamed step }
    ensures { Reads batch.entry.now at site places.old places.new (part step here) result }
{
    let held = opening::hold(places, site.place, step);
    let place = held.map_err(|refusal| refusal.at(here))?;
    let below = Site { place, ..site };
    read_value(batch, at, below, places)
}

// A variant, whose command stands at `here` and whose contents start at `at`.
#[cycle(readers)]
fn read_variant(
    batch: &Batch<'_>,
    number: u16,
    name: Name,
    contents: Contents,
    here: usize,
    at: usize,
    site: Site,
    places: &mut Places<'_, '_>,
) -> Result<usize, Refused>
    requires here { site.place < places.old.count }
    requires same_text { places.old.text.now ≡ batch.now.text.now }
    requires good { Good batch.now.text.now name }
    ensures { Reads batch.entry.now at site places.old places.new (variant number name contents here) result }
{
    let held = opening::open_variant(places, batch.options, number, name, site.levels, site.place);
    let place = held.map_err(|refusal| refusal.at(here))?;
    let levels = lower(site.levels - 1, name, batch.text);
    let below = Site { place, levels };
    read_contents(batch, contents, here, at, below, places)
}

// A variant's contents are as for the plain form, their command being the variant's.
#[cycle(readers)]
#[tactic(auto, using(crate::specs::laws::Sound::tuple_parted, crate::specs::laws::Sound::struct_parted))]
fn read_contents(
    batch: &Batch<'_>,
    contents: Contents,
    here: usize,
    at: usize,
    site: Site,
    places: &mut Places<'_, '_>,
) -> Result<usize, Refused>
    requires here { site.place < places.old.count }
    requires same_text { places.old.text.now ≡ batch.now.text.now }
    ensures { Reads batch.entry.now at site places.old places.new (inside contents here) result }
{
    match contents {
        Contents::Unit => {
            let leaf = Leaf {
                null: true,
                kind: shapes::UNKNOWN,
                next: at,
            };
            leaves::observe(batch.options, leaf, here, site, places.table)
        }
        Contents::Value => read_value(batch, at, site, places),
        Contents::Positions(positions) => {
            let tuple = Container {
                kind: shapes::TUPLE,
                positions,
            };
            read_container(batch, tuple, here, at, site, places)
        }
        Contents::Fields => read_container(batch, Container::STRUCT, here, at, site, places),
    }
}
