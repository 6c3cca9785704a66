#![tactic(auto)]
// A place's bytes, and a name's ("Places, views and values"). A place may be forged: every call makes the whole check of its place first.
ghost use Rattle.std.specs.Prelude.{◌≡◌};
ghost use Rattle.format.specs.Kinds.{has_size};
ghost use Rattle.places.specs.Places.{name_view, size_length, part, view};

use format::{Class, Kind, Stop};
use places::{Part, Place};

// The name that a step meets; what the step answers says why there is none.
#[tactic(auto, using(crate::proofs::ViewLaws::name_laws))]
pub fn name_view<'a>(payload: &'a [u8], container: Place, last: Option<Place>) -> &'a [u8]
    ensures { result.now ≡ name_view payload.now container last }
{
    let Ok(Some(field)) = read::step(payload, container, last) else {
        return &payload[..0];
    };
    &payload[field.name..field.place.start]
}

#[tactic(auto, using(crate::proofs::ViewLaws::sized_laws))]
fn has_size(kind: Kind) -> bool
    ensures { result ≡ has_size kind }
{
    match format::class_of(kind) {
        Class::Text | Class::Behind(_) => true,
        _ => false,
    }
}

// How many bytes the size takes, if there is one.
#[tactic(auto, using(crate::proofs::ViewLaws::size_laws))]
fn size_length(part: &[u8], known: Option<Kind>) -> usize
    ensures { result ≡ size_length known part.now }
{
    let Some(kind) = known else {
        return 0;
    };
    if has_size(kind) {
        number::read(part).map_or(0, |size| size.length)
    } else {
        0
    }
}

// Where a place's view stands.
#[tactic(auto, using(crate::proofs::ViewLaws::part_laws))]
pub fn part(payload: &[u8], place: Place) -> Result<Part, Stop>
    ensures { result ≡ part payload.now place }
{
    open::checked(payload, place)?;
    let start = place.start;
    let end = place.end;
    let size = size_length(&payload[start..end], format::known_of(place.kind));
    Ok(Part {
        begin: start + size,
        end,
    })
}

// A place's payload after its size, if it has one.
#[tactic(auto, using(crate::proofs::ViewLaws::view_laws))]
pub fn view<'a>(payload: &'a [u8], place: Place) -> &'a [u8]
    ensures { result.now ≡ view payload.now place }
{
    let Ok(view) = part(payload, place) else {
        return &payload[..0];
    };
    &payload[view.begin..view.end]
}
