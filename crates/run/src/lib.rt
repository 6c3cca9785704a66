#![tactic(auto)]
// The kinds of the fields met so far, as one number: 0 for no field, the ID that all of them have, or 255 if their IDs differ.
ghost use Rattle.std.specs.Prelude.{◌≡◌};
ghost use Rattle.format.specs.Kinds.{id};
ghost use Rattle.run.specs.Run.{join, uniform};

use format::Kind;

// Numbers and no enum: `join` and `uniform` (specs/Run.antt) fix them, and `packed` (crates/frames/specs/Container.antt) is told the ID as one.
const NONE: u8 = 0;

const DIFFER: u8 = 255;

// One field more, by its ID.
pub fn join(shared: u8, id: u8) -> u8
    ensures { result ≡ join shared id }
{
    if shared == NONE {
        id
    } else if shared == id {
        shared
    } else {
        DIFFER
    }
}

// One field more, by its kind.
pub fn add(shared: u8, kind: Kind) -> u8
    ensures { result ≡ join shared (id kind) }
{
    join(shared, format::id_of(kind))
}

// Whether such fields make a container uniform: an object if they have names, else an array, but not one of a kind without payload.
pub fn is_uniform(named: bool, shared: u8) -> bool
    ensures { result ≡ uniform named shared }
{
    match shared {
        NONE | DIFFER => false,
        1 | 12 | 13 => named,
        _ => true,
    }
}
