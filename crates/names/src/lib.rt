#![tactic(auto)]
// Where the name of a field stands.
ghost use Rattle.std.specs.Prelude.{◌≡◌, ◌≤◌, length, Ok};
ghost use Rattle.names.specs.FieldNames.{ended_at, name_of, name_at};

use faults::Modes;
use format::Form;
use head::Met;

// A field's name: where it begins and ends, and where the next field stands.
#[derive(Clone, Copy)]
pub struct Name {
    pub begin: usize,
    pub end: usize,
    pub next: usize,
}

// The name of a field that ends here, unless the field took no byte.
fn ended(begin: usize, end: usize, next: usize) -> Option<Name>
    ensures { result ≡ ended_at begin end next }
{
    if next == 0 {
        return None;
    }
    Some(Name { begin, end, next })
}

// The name of a field that was met.
fn name_of(met: Met) -> Option<Name>
    ensures { result ≡ name_of (Ok met) }
{
    match met {
        Met::Leaf {
            name,
            start,
            end,
            ..
        }
        | Met::Fields {
            name,
            start,
            end,
            ..
        }
        | Met::Items {
            name,
            start,
            end,
            ..
        } => ended(name, start, end),
    }
}

// The name of the field at a position; none, if no field is met there. Behind the part's end no field is met.
pub fn name_at(part: &[u8], at: usize, form: Form) -> Option<Name>
    ensures { result ≡ name_at form at part.now }
{
    if part.len() < at {
        return None;
    }
    let modes = Modes {
        names: false,
        format: false,
    };
    let met = head::meet_of(&part[at..], form, modes, faults::no_faults()).ok()?;
    let name = name_of(met)?;
    Some(Name {
        begin: at + name.begin,
        end: at + name.end,
        next: at + name.next,
    })
}
