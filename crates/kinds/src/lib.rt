// Kinds that meet at a place (tracer.rs, ensure_* and coerce_primitive_type): a kind is a primitive type's code, or a container's.

#![tactic(auto)]

ghost use Rattle.std.specs.Prelude.{◌≡◌, ◌<◌, ◌&&◌, ◌||◌, false, eqb};
ghost use Rattle.kinds.specs.Meeting.{met, meeting, of_pairing};
ghost use Rattle.coerce.specs.Joint.{pairing};
ghost use Rattle.model.specs.Kinds.{sequence_kind, is_container, is_struct};
ghost use Rattle.model.specs.Emission.{emits_struct};

use coerce::Pairing;
use datatype::DataType;
use options::TracingOptions;
use refusal::Refusal;

// What a place is where a value met it: its kind, and whether the value widened it.
#[derive(Clone, Copy)]
pub struct Met {
    pub kind: u32,
    pub widened: bool,
}

// The place has that kind, and the value did not widen it.
fn unwidened(kind: u32) -> Met
    ensures { result ≡ met kind false }
{
    Met {
        kind,
        widened: false,
    }
}

// What two primitive types give, or refusal 10.
fn coerce_kinds(options: TracingOptions, kind: u32, other: u32) -> Result<Met, Refusal>
    requires first { kind < sequence_kind }
    requires second { other < sequence_kind }
    ensures { result ≡ of_pairing (pairing options.word kind other) }
{
    let prev = DataType::try_from(kind as u8).unwrap();
    let curr = DataType::try_from(other as u8).unwrap();
    match coerce::coerce_primitive_type(prev, curr, options) {
        Pairing::Alike(joint) => Ok(unwidened(joint.code() as u32)),
        Pairing::Widened(joint) => Ok(Met {
            kind: joint.code() as u32,
            widened: true,
        }),
        Pairing::Apart => Err(Refusal::NoJoint),
    }
}

// Whether one of them is a container.
fn has_container(kind: u32, other: u32) -> bool
    ensures { result ≡ (is_container kind || is_container other) }
{
    shapes::SEQUENCE <= kind || shapes::SEQUENCE <= other
}

pub fn is_struct(kind: u32) -> bool
    ensures { result ≡ is_struct kind }
{
    kind == shapes::STRUCT || kind == shapes::MAP_MODE
}

// Whether both are, in either mode.
fn are_structs(kind: u32, other: u32) -> bool
    ensures { result ≡ (is_struct kind && is_struct other) }
{
    is_struct(kind) && is_struct(other)
}

// Whether a place of that kind is emitted as Struct.
pub fn emits_struct(kind: u32) -> bool
    ensures { result ≡ emits_struct kind }
{
    is_struct(kind) || kind == shapes::TUPLE
}

// Whether a container stands where no level is left.
fn is_too_deep(levels: usize, kind: u32) -> bool
    ensures { result ≡ (is_container kind && eqb levels 0) }
{
    shapes::SEQUENCE <= kind && levels == 0
}

// A place of the first kind meets a value of the second, with so many levels left. Mostly the kinds are equal, or the
// first is still unknown. What they give, or refusal 7, 8 or 10.
#[tactic(auto, using(crate::proofs::Meets::tests), unfolding(crate::specs::Meeting::meeting))]
pub fn meet(options: TracingOptions, levels: usize, kind: u32, other: u32) -> Result<Met, Refusal>
    ensures { result ≡ meeting options.word levels kind other }
{
    if is_too_deep(levels, other) {
        return Err(Refusal::TooDeep);
    }
    if other == shapes::UNKNOWN {
        return Ok(unwidened(kind));
    }
    if kind == shapes::UNKNOWN {
        return Ok(unwidened(other));
    }
    if kind == other {
        return Ok(unwidened(kind));
    }
    if !has_container(kind, other) {
        return coerce_kinds(options, kind, other);
    }
    if are_structs(kind, other) {
        return Ok(unwidened(kind));
    }
    Err(Refusal::Mismatch)
}
