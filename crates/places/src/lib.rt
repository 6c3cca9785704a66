#![tactic(auto)]
// Places, and what the calls on them answer ("Places, views and values").
ghost use Rattle.std.specs.Prelude.{◌≡◌};
ghost use Rattle.places.specs.Places.{place_with, top};
ghost use Rattle.places.specs.Placed.{placed};
ghost use Rattle.places.specs.declared.PlaceError.TheVariants as place_error;
ghost use Rattle.places.specs.declared.ValueError.TheVariants as value_error;

use faults::Modes;
use format::{Form, Stop};
use head::Met;

// Where a field stands ("Places, views and values"): its kind, where its payload starts and ends, and its depth. A place may be forged.
// (Its kind is a number, since C hands it over so and any may stand there.)
#[derive(Clone, Copy)]
pub struct Place {
    pub kind: u8,
    pub start: usize,
    pub end: usize,
    pub depth: u32,
}

impl Place {
    // The greatest depth, and the greatest length of a payload or a write list.
    pub const DEPTH: u32 = format::DEPTH;

    pub const LENGTH: usize = format::LENGTH;

    // The top place, read at byte 0 as a step reads a field. Its contents are not looked into.
    #[tactic(auto, using(crate::proofs::TopCases::top_laws))]
    pub fn top(payload: &[u8]) -> Result<Place, Stop>
        ensures { result ≡ top payload.now }
    {
        if Place::LENGTH < payload.len() {
            return Err(Stop::TooLong);
        }
        let modes = Modes {
            names: false,
            format: false,
        };
        let met = head::meet_of(payload, Form::Top, modes, faults::no_faults());
        let field = placed(met, 1)?;
        Ok(field.place)
    }

    // Every place is made here.
    pub fn of(kind: u8, start: usize, end: usize, depth: u32) -> Place
        ensures { result ≡ place_with kind start end depth }
    {
        Place {
            kind,
            start,
            end,
            depth,
        }
    }
}

// A field that is met: its place, and where its name begins (it ends where the payload starts).
#[derive(Clone, Copy)]
pub struct Field {
    pub place: Place,
    pub name: usize,
}

// The field that was met, at a depth; or the fault met in its place, which is handed on.
pub fn placed(met: Result<Met, Stop>, depth: u32) -> Result<Field, Stop>
    ensures { result ≡ placed depth met }
{
    let met = met?;
    match met {
        Met::Leaf {
            kind,
            name,
            start,
            end,
            ..
        }
        | Met::Fields {
            kind,
            name,
            start,
            end,
            ..
        }
        | Met::Items {
            kind,
            name,
            start,
            end,
            ..
        } => {
            let place = Place::of(format::id_of(kind), start, end, depth);
            Ok(Field { place, name })
        }
    }
}

// Why a call on a place has no answer: the place is of another kind than is asked, or it or what is met in it is at fault.
#[derive(Clone, Copy)]
pub enum PlaceError {
    WrongKind,
    Fault(Stop),
}

impl From<Stop> for PlaceError {
    ghost from_gives = { λ stop error. error ≡ place_error.Fault stop };

    fn from(stop: Stop) -> PlaceError {
        PlaceError::Fault(stop)
    }
}

// Why a place gives no number of the kind asked: the one that it holds does not fit, it holds none, or it is at fault.
#[derive(Clone, Copy)]
pub enum ValueError {
    OutOfRange,
    WrongKind,
    Fault(Stop),
}

impl From<Stop> for ValueError {
    ghost from_gives = { λ stop error. error ≡ value_error.Fault stop };

    fn from(stop: Stop) -> ValueError {
        ValueError::Fault(stop)
    }
}

// Where a view stands in the caller's payload.
#[derive(Clone, Copy)]
pub struct Part {
    pub begin: usize,
    pub end: usize,
}
