#![tactic(auto)]
// A payload up to its contents, of a leaf: only where it ends is answered.
ghost use Rattle.std.specs.Prelude.{◌≡◌};
ghost use Rattle.number.specs.VarUInt.{var_uint};
ghost use Rattle.front.specs.Pieces.{text_at};
ghost use Rattle.leaves.specs.Pieces.{fixed_at, positive_of, negative_of, double_at, leaf_of, id_of, name_of};

use faults::{Faults, Modes};
use format::{Flaw, Form, Stop};

// A payload up to its contents: where a leaf ends; or how the fields or items stand, how many items are counted, and where the contents
// begin and end.
#[derive(Clone, Copy)]
pub enum Heading {
    Leaf {
        end: usize,
        faults: Faults,
    },
    Fields {
        form: Form,
        begin: usize,
        end: usize,
        faults: Faults,
    },
    Items {
        form: Form,
        count: u64,
        begin: usize,
        end: usize,
        faults: Faults,
    },
}

// Bytes of a fixed size.
#[tactic(auto, unfolding(crate::specs::Pieces::fixed_at))]
pub fn fixed(part: &[u8], size: usize, faults: Faults) -> Result<Heading, Stop>
    ensures { result ≡ fixed_at size faults part.now }
{
    if part.len() < size {
        return Err(Stop::Early);
    }
    Ok(Heading::Leaf { end: size, faults })
}

pub fn positive(part: &[u8], modes: Modes, faults: Faults) -> Result<Heading, Stop>
    ensures { result ≡ positive_of modes faults (var_uint part.now) }
{
    let number = number::read(part)?;
    Ok(Heading::Leaf {
        end: number.length,
        faults: faults::note(modes, faults, Flaw::Long, !number.minimal),
    })
}

pub fn negative(part: &[u8], modes: Modes, faults: Faults) -> Result<Heading, Stop>
    ensures { result ≡ negative_of modes faults (var_uint part.now) }
{
    let number = number::read(part)?;
    let met = faults::note(modes, faults, Flaw::Long, !number.minimal);
    let high = !(number.value < 0x8000000000000000);
    Ok(Heading::Leaf {
        end: number.length,
        faults: faults::note(modes, met, Flaw::Low, high),
    })
}

pub fn float64(part: &[u8], modes: Modes, faults: Faults) -> Result<Heading, Stop>
    ensures { result ≡ double_at modes faults part.now }
{
    let bits = number::read64(part).ok_or(Stop::Early)?;
    Ok(Heading::Leaf {
        end: 8,
        faults: faults::note(modes, faults, Flaw::Wide, float::float32_holds(bits)),
    })
}

pub fn text_leaf(part: &[u8], modes: Modes, faults: Faults) -> Result<Heading, Stop>
    ensures { result ≡ leaf_of (text_at modes faults part.now) }
{
    let text = front::text_of(part, modes, faults)?;
    Ok(Heading::Leaf {
        end: text.end,
        faults: text.faults,
    })
}

// Behind a size, which counts bytes up to an end: a custom's id, or its name.
pub fn custom_by_id(
    inside: &[u8],
    end: usize,
    modes: Modes,
    faults: Faults,
) -> Result<Heading, Stop>
    ensures { result ≡ id_of modes faults end (var_uint inside.now) }
{
    let id = number::read(inside)?;
    Ok(Heading::Leaf {
        end,
        faults: faults::note(modes, faults, Flaw::Long, !id.minimal),
    })
}

pub fn custom_by_name(
    inside: &[u8],
    end: usize,
    modes: Modes,
    faults: Faults,
) -> Result<Heading, Stop>
    ensures { result ≡ name_of end (text_at modes faults inside.now) }
{
    let name = front::text_of(inside, modes, faults)?;
    Ok(Heading::Leaf {
        end,
        faults: name.faults,
    })
}
