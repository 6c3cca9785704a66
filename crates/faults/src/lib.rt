#![tactic(auto)]
// The faults that do not stop, as they are kept while a payload is read. What each is worth, format's specs/Mask.antt says.
ghost use Rattle.std.specs.Prelude.{◌≡◌};
ghost use Rattle.format.specs.Mask.{flaw_value};
ghost use Rattle.faults.specs.Noted.{nothing, asks, noted, flaw_if, is_noted, sum_in};

use format::Flaw;

// What is asked for besides the bounds checks.
#[derive(Clone, Copy)]
pub struct Modes {
    pub names: bool,
    pub format: bool,
}

// The faults that do not stop, of those met so far: the sum of their values, each once. (A number of 64 bits is copied as it was stored.)
#[derive(Clone, Copy)]
pub struct Faults {
    pub sum: u64,
}

// The table: what each is worth.
fn value_of(flaw: Flaw) -> u64
    ensures { result ≡ flaw_value flaw }
{
    match flaw {
        Flaw::Twin => 16,
        Flaw::Blank => 32,
        Flaw::Long => 64,
        Flaw::Low => 128,
        Flaw::Wide => 256,
        Flaw::NotUtf8 => 512,
        Flaw::NotUniform => 1024,
    }
}

// A flaw of names is asked for by one mode, the others by the other.
fn is_asked(modes: Modes, flaw: Flaw) -> bool
    ensures { result ≡ asks modes flaw }
{
    match flaw {
        Flaw::Twin => modes.names,
        Flaw::Blank => modes.names,
        Flaw::Long => modes.format,
        Flaw::Low => modes.format,
        Flaw::Wide => modes.format,
        Flaw::NotUtf8 => modes.format,
        Flaw::NotUniform => modes.format,
    }
}

// No fault was met so far.
pub fn no_faults() -> Faults
    ensures { result ≡ nothing }
{
    Faults { sum: 0 }
}

// One flaw more, if it was met and is asked for.
pub fn note(modes: Modes, faults: Faults, flaw: Flaw, met: bool) -> Faults
    ensures { result ≡ noted modes faults (flaw_if met flaw) }
{
    if is_asked(modes, flaw) & met {
        return Faults {
            sum: faults.sum | value_of(flaw),
        };
    }
    faults
}

// Whether a flaw was met.
pub fn has(faults: Faults, flaw: Flaw) -> bool
    ensures { result ≡ is_noted flaw faults }
{
    faults.sum / value_of(flaw) % 2 == 1
}

// The sum of the values of the faults met.
pub fn sum_of(faults: Faults) -> u64
    ensures { result ≡ sum_in faults }
{
    faults.sum
}
