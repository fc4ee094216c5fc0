// What is opened before anything below it is read: a container, a variant, a field (tracer.rs, ensure_struct and the like).

#![tactic(auto)]

ghost use Rattle.std.specs.Prelude.{◌≡◌, ◌<◌, ◌≢◌};
ghost use Rattle.shapes.specs.Steps.{field_code, code_of, name_of, Inside, Good};
ghost use Rattle.growth.specs.Growth.{EnsuredAs, MadeAs};
ghost use Rattle.search.specs.Search.{find_in};
ghost use Rattle.opening.specs.Opening.{held, container_made, variant_held, field_held, opened_at, OpenedAs};

use options::TracingOptions;
use places::Places;
use refusal::Refusal;
use shapes::{Container, Step};
use text::Name;
use words::{Place, Whole};

// The child at a step that is no field, which the present sample holds.
pub fn hold(places: &mut Places<'_, '_>, place: Place, step: Step) -> Result<Place, Refusal>
    requires here { place < places.old.count }
    requires good { Good places.old.text.now (name_of step) }
    requires no_field { code_of step ≢ field_code }
    ensures { EnsuredAs (held places.old.text.now place step places.old.count places.old.table.now) places.old places.new result }
{
    let child = growth::ensure(places, place, step)?;
    growth::touch(place, child, places.table);
    Ok(child)
}

// A container meets what the place is, is one more sample there, and makes its children. Levels and place come one by one: as one
// struct they change what is inlined, and deep containers take 7 % more instructions.
pub fn open_container(
    places: &mut Places<'_, '_>,
    options: TracingOptions,
    container: Container,
    levels: usize,
    place: Place,
) -> Result<(), Refusal>
    requires { place < places.old.count }
    ensures { MadeAs
        (container_made places.old.text.now options.word levels container.kind container.positions place
        places.old.count places.old.table.now)
        places.old places.new result }
{
    let before = words::get(places.table, place, Whole::Kind);
    let met = kinds::meet(options, levels, before, container.kind)?;
    growth::sample(place, met.kind, places.table);
    growth::make(places, place, container, before)
}

// A variant meets what the place is and is one more sample there, which holds the variant's place.
pub fn open_variant(
    places: &mut Places<'_, '_>,
    options: TracingOptions,
    number: u16,
    name: Name,
    levels: usize,
    place: Place,
) -> Result<Place, Refusal>
    requires here { place < places.old.count }
    requires good { Good places.old.text.now name }
    ensures { EnsuredAs
        (variant_held places.old.text.now options.word levels number name place places.old.count places.old.table.now)
        places.old places.new result }
{
    let before = words::get(places.table, place, Whole::Kind);
    let met = kinds::meet(options, levels, before, shapes::UNION)?;
    growth::sample(place, met.kind, places.table);
    hold(places, place, Step::Variant(number, name))
}

// A field that was not seen before, whose name must be UTF-8.
fn new_field(
    places: &mut Places<'_, '_>,
    place: Place,
    name: Name,
) -> Result<Option<Place>, Refusal>
    requires here { place < places.old.count }
    requires inside { Inside places.old.text.now name }
    requires absent { find_in places.old.text.now place field_code name places.old.table.now ≡ 0 }
    ensures { OpenedAs (field_held places.old.text.now place name places.old.count places.old.table.now) places.old places.new result }
{
    if !name.is_utf8(places.text) {
        return Err(Refusal::BadName);
    }
    let child = growth::add(places, place, shapes::FIELD, name)?;
    growth::touch(place, child, places.table);
    Ok(Some(child))
}

// A field by its name, which the present sample holds. The names of fields that were seen are known to be UTF-8.
fn hold_field(
    places: &mut Places<'_, '_>,
    place: Place,
    name: Name,
) -> Result<Option<Place>, Refusal>
    requires here { place < places.old.count }
    requires inside { Inside places.old.text.now name }
    ensures { OpenedAs (field_held places.old.text.now place name places.old.count places.old.table.now) places.old places.new result }
{
    let Some(seen) = search::find_field(places.text, place, name, places.count, places.table) else {
        return new_field(places, place, name);
    };
    growth::touch(place, seen, places.table);
    Ok(Some(seen))
}

// The field that stands at an offset: its place, or `None` where the end stands there.
#[tactic(auto, using(shapes::specs::laws::Field::field_inside))]
pub fn open_field(
    places: &mut Places<'_, '_>,
    commands: &[u8],
    kind: u32,
    at: usize,
    place: Place,
) -> Result<Option<Place>, Refusal>
    requires { place < places.old.count }
    ensures { OpenedAs
        (opened_at commands.now places.old.text.now kind at place places.old.count places.old.table.now)
        places.old places.new result }
{
    match shapes::field_at(commands, places.text, kind, at)? {
        Some(name) => hold_field(places, place, name),
        None => Ok(None),
    }
}
