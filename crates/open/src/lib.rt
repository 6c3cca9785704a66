#![tactic(auto)]
// A place, opened: the whole check of it, which every reading call makes first, since a place may be forged ("Places, views and values").
ghost use Rattle.std.specs.Prelude.{◌≡◌, ◌+◌, ◌≤◌, length, []};
ghost use Rattle.format.specs.Limits.{length_limit};
ghost use Rattle.format.specs.Parse.{whole};
ghost use Rattle.format.specs.Payload.{head};
ghost use Rattle.places.specs.Places.{check, checked};
ghost use Rattle.open.specs.Code.{end_of};
ghost use Rattle.open.specs.Opening.{opened_by};

use faults::Modes;
use format::{Form, Kind, Stop};
use leaves::Heading;
use places::Place;

// A place that was checked: a leaf's; or a container's, how its fields or items stand, and where its contents begin (they end with the place).
#[derive(Clone, Copy)]
pub enum Opened {
    Leaf,
    Fields { form: Form, begin: usize },
    Items { form: Form, begin: usize },
}

fn end_of(heading: Heading) -> usize
    ensures { result ≡ end_of heading }
{
    match heading {
        Heading::Leaf { end, .. } | Heading::Fields { end, .. } | Heading::Items { end, .. } => end,
    }
}

// A payload, from a start on, which has to fill the part.
#[tactic(auto, using(crate::proofs::FillLaws::fill_laws))]
fn open_in(part: &[u8], kind: Kind, start: usize) -> Result<Opened, Stop>
    requires { start + length part.now ≤ length_limit }
    ensures { result ≡ opened_by (start + length part.now) (whole (head kind part.now) []) }
{
    let modes = Modes {
        names: false,
        format: false,
    };
    let length = part.len();
    let heading = head::head_of(part, kind, modes, faults::no_faults())?;
    if end_of(heading) < length {
        return Err(Stop::Early);
    }
    match heading {
        Heading::Leaf { .. } => Ok(Opened::Leaf),
        Heading::Fields { form, begin, .. } => Ok(Opened::Fields {
            form,
            begin: start + begin,
        }),
        Heading::Items { form, begin, .. } => Ok(Opened::Items {
            form,
            begin: start + begin,
        }),
    }
}

// The check of a place, in its order.
#[tactic(auto, using(crate::proofs::OpenLaws::place_laws))]
pub fn open_place(payload: &[u8], place: Place) -> Result<Opened, Stop>
    ensures { result ≡ opened_by place.end (check payload.now place) }
{
    let start = place.start;
    let end = place.end;
    let depth = place.depth;
    if Place::LENGTH < payload.len() {
        return Err(Stop::TooLong);
    }
    let part = payload.get(start..end).ok_or(Stop::Early)?;
    if depth == 0 || Place::DEPTH < depth {
        return Err(Stop::TooDeep);
    }
    let kind = format::known_of(place.kind).ok_or(Stop::Unknown)?;
    open_in(part, kind, start)
}

// The check of a place, as a call of its own: it says why a view of a place is refused.
#[tactic(auto, using(crate::proofs::OpenLaws::checked_laws))]
pub fn checked(payload: &[u8], place: Place) -> Result<(), Stop>
    ensures { result ≡ checked payload.now place }
{
    open_place(payload, place)?;
    Ok(())
}
