#![tactic(auto)]
// What a write list comes to once its top field is measured ("The write list"): that field's refusal; the refusals that only the whole list shows; or the
// encoding's ID and length.
ghost use Rattle.std.specs.Prelude.{◌≡◌};
ghost use Rattle.settle.specs.Decided.{decided_of};

use frames::{Refusal, Refused};

// A field, measured: where the next frame stands; the ID and how long name and payload are as encoded; how many
// containers there are now.
#[derive(Clone, Copy)]
pub struct Measured {
    pub next: usize,
    pub id: u8,
    pub size: usize,
    pub opened: usize,
}

// What the list comes to: the ID of the top field and the encoding's length.
#[derive(Clone, Copy)]
pub struct Settled {
    pub id: u8,
    pub length: usize,
}

// What the measured field comes to: its own refusal; those that only the whole list shows, or the encoding's length.
pub fn decided(
    measured: Result<Measured, Refused>,
    list: usize,
    room: usize,
    numbers: usize,
) -> Result<Settled, Refused>
    ensures { result ≡ decided_of measured list room numbers }
{
    let field = measured?;
    if field.next < list {
        return Err(Refusal::Complete.at(field.next));
    }
    if numbers < field.opened {
        return Err(Refusal::FewWorkNumbers.at(0));
    }
    if room <= field.size || format::LENGTH <= field.size {
        return Err(Refusal::EncodingTooLong.at(0));
    }
    Ok(Settled {
        id: field.id,
        length: field.size + 1,
    })
}
