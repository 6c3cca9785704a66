#![tactic(auto)]
// Steps and lookup ("Places, views and values"). A place may be forged: every call makes the whole check of its place first.
ghost use Rattle.std.specs.Prelude.{◌≡◌, suc, ◌+◌, ◌≤◌, ◌<◌, length};
ghost use Rattle.format.specs.Limits.{length_limit};
ghost use Rattle.format.proofs.HeadParts.{Full};
ghost use Rattle.places.specs.Places.{from, step_in, step, lookup};
ghost use Rattle.read.specs.Code.{field_at, look_by};

use faults::Modes;
use format::{Form, Stop};
use open::Opened;
use places::{Field, Place, PlaceError};

// The field at the front of a part that stands from a position on.
#[tactic(auto, using(crate::proofs::StepLaws::field_laws))]
fn field_at(part: &[u8], form: Form, at: usize, depth: u32) -> Result<Field, Stop>
    requires { at + length part.now ≤ length_limit }
    ensures { result ≡ field_at depth at form part.now }
{
    let modes = Modes {
        names: false,
        format: false,
    };
    let met = head::meet_of(part, form, modes, faults::no_faults());
    let field = places::placed(met, depth)?;
    let place = field.place;
    Ok(Field {
        place: Place::of(place.kind, at + place.start, at + place.end, depth),
        name: at + field.name,
    })
}

// Where a step begins.
fn from(begin: usize, last: Option<Place>) -> usize
    ensures { result ≡ from begin last }
{
    last.map_or(begin, |place| place.end)
}

// The next field at a position, in contents that begin here.
#[tactic(auto, using(crate::proofs::StepLaws::in_laws))]
fn step_in(
    payload: &[u8],
    container: Place,
    form: Form,
    begin: usize,
    at: usize,
) -> Result<Option<Field>, PlaceError>
    requires { (container.end ≤ length payload.now) × (length payload.now ≤ length_limit) }
    ensures { result ≡ step_in payload.now container form begin at }
{
    let end = container.end;
    let depth = container.depth;
    if at < begin || end < at {
        return Err(PlaceError::Fault(Stop::Early));
    }
    if at == end {
        return Ok(None);
    }
    if Place::DEPTH <= depth {
        return Err(PlaceError::Fault(Stop::TooDeep));
    }
    let field = field_at(&payload[at..end], form, at, depth + 1)?;
    Ok(Some(field))
}

// The next field after the last place, or the first one.
#[tactic(auto, using(crate::proofs::StepLaws::step_laws))]
pub fn step(
    payload: &[u8],
    container: Place,
    last: Option<Place>,
) -> Result<Option<Field>, PlaceError>
    ensures { result ≡ step payload.now container last }
{
    let opened = open::open_place(payload, container)?;
    match opened {
        Opened::Leaf => Err(PlaceError::WrongKind),
        Opened::Fields { form, begin } | Opened::Items { form, begin } => {
            step_in(payload, container, form, begin, from(begin, last))
        }
    }
}

// The first field of a name, in contents that begin here.
#[tactic(auto, using(crate::proofs::LookLaws::look_laws))]
fn look<'a>(
    payload: &'a [u8],
    object: Place,
    form: Form,
    begin: usize,
    name: &'a [u8],
) -> Result<Option<Place>, PlaceError>
    requires { (begin ≤ object.end) × (object.end ≤ length payload.now) × (length payload.now ≤ length_limit) × Full form }
    ensures { result ≡ look_by (suc object.end) payload.now object form begin name.now begin }
{
    let mut at = begin;
    while let Some(field) = step_in(payload, object, form, begin, at)? {
        let place = field.place;
        let found = text::are_equal(&payload[field.name..place.start], name);
        if found {
            return Ok(Some(place));
        }
        at = place.end;
    }
    Ok(None)
}

// The first field of an object whose name is byte-equal to this one.
#[tactic(auto, using(crate::proofs::LookLaws::lookup_laws))]
pub fn lookup<'a>(
    payload: &'a [u8],
    object: Place,
    name: &'a [u8],
) -> Result<Option<Place>, PlaceError>
    ensures { result ≡ lookup payload.now object name.now }
{
    let opened = open::open_place(payload, object)?;
    match opened {
        Opened::Fields { form, begin } => look(payload, object, form, begin, name),
        _ => Err(PlaceError::WrongKind),
    }
}
