#![tactic(auto)]
// What was checked of a field and of the contents of a container, and what is said of all the fields or items in it.
ghost use Rattle.std.specs.Prelude.{◌≡◌};
ghost use Rattle.format.specs.Reader.{is_typed};
ghost use Rattle.contents.specs.Contents.{closed, object_end, array_end, item_size, sized_items};

use faults::{Faults, Modes};
use format::{Flaw, Form, Kind, Stop};

// A field that was checked: its kind, its end, and the faults met so far. (Of the contents of a container only the faults are told.)
#[derive(Clone, Copy)]
pub struct Field {
    pub kind: Kind,
    pub end: usize,
    pub faults: Faults,
}

fn is_typed(form: Form) -> bool
    ensures { result ≡ is_typed form }
{
    matches!(form, Form::Top | Form::Field | Form::Item)
}

// A container, by what its contents came to.
pub fn close(contents: Result<Faults, Stop>, kind: Kind, end: usize) -> Result<Field, Stop>
    ensures { result ≡ closed kind end contents }
{
    Ok(Field {
        kind,
        end,
        faults: contents?,
    })
}

// The fields of an object were read, and this is said of all of them.
#[tactic(auto, unfolding(crate::specs::Contents::object_end))]
pub fn end_object(form: Form, modes: Modes, faults: Faults, run: u8, twins: bool) -> Faults
    ensures { result ≡ object_end form modes faults run twins }
{
    let met = faults::note(
        modes,
        faults,
        Flaw::NotUniform,
        is_typed(form) & run::is_uniform(true, run),
    );
    faults::note(modes, met, Flaw::Twin, twins)
}

#[tactic(auto, unfolding(crate::specs::Contents::array_end))]
pub fn end_array(form: Form, modes: Modes, faults: Faults, run: u8) -> Faults
    ensures { result ≡ array_end form modes faults run }
{
    faults::note(
        modes,
        faults,
        Flaw::NotUniform,
        is_typed(form) & run::is_uniform(false, run),
    )
}

// The size that every item has by its kind; 0 where the kind does not tell.
pub fn item_size(form: Form) -> usize
    ensures { result ≡ item_size form }
{
    match form {
        Form::SharedItem(kind) => head::fixed_size(kind),
        _ => 0,
    }
}

// Items of one size in a part of this length: they need not be looked at.
pub fn check_sizes(
    length: usize,
    count: u64,
    size: usize,
    left: usize,
    faults: Faults,
) -> Result<Faults, Stop>
    ensures { result ≡ sized_items count size left faults length }
{
    if (left == 0) & (0 < count) {
        return Err(Stop::TooDeep);
    }
    if size == 0 {
        return Err(Stop::Early);
    }
    if (length % size == 0) & ((length / size) as u64 == count) {
        return Ok(faults);
    }
    Err(Stop::Early)
}
