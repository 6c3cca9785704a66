#![tactic(auto)]
// What stands before a payload: a type byte and a name; a size, and text behind a size.
ghost use Rattle.std.specs.Prelude.{◌≡◌, ◌≤◌, length};
ghost use Rattle.format.specs.declared.Form.TheVariants.{SharedField};
ghost use Rattle.front.specs.Code.{front_at};
ghost use Rattle.front.specs.Pieces.{typed_at, span_at, text_at, named_at, plain_of};

use faults::{Faults, Modes};
use format::{Flaw, Form, Kind, Mark, Stop};

// What stands before a payload: the kind, the start of the name, and its end, where the payload starts.
#[derive(Clone, Copy)]
pub struct Front {
    pub kind: Kind,
    pub name: usize,
    pub start: usize,
    pub faults: Faults,
}

// A size, read: where the bytes that it counts begin and end.
#[derive(Clone, Copy)]
pub struct Span {
    pub begin: usize,
    pub end: usize,
    pub faults: Faults,
}

// The type byte.
#[tactic(auto, using(crate::proofs::FrontReturns::type_laws))]
fn type_of(part: &[u8], mark: Mark) -> Result<Kind, Stop>
    ensures { result ≡ typed_at mark part.now }
{
    if part.len() == 0 {
        return Err(Stop::Early);
    }
    format::kind_at(mark, part[0]).ok_or(Stop::Unknown)
}

// A size. It is compared with what remains before it is added to anything.
#[tactic(auto, using(crate::proofs::FrontReturns::span_laws))]
pub fn span_of(part: &[u8], modes: Modes, faults: Faults) -> Result<Span, Stop>
    ensures { result ≡ span_at modes faults part.now }
{
    let size = number::read(part)?;
    let left = part.len() - size.length;
    if (left as u64) < size.value {
        return Err(Stop::Early);
    }
    Ok(Span {
        begin: size.length,
        end: size.length + (size.value as usize),
        faults: faults::note(modes, faults, Flaw::Long, !size.minimal),
    })
}

// A size and text, which is looked at where Format is asked.
#[tactic(auto, using(crate::proofs::FrontReturns::text_laws))]
pub fn text_of(part: &[u8], modes: Modes, faults: Faults) -> Result<Span, Stop>
    ensures { result ≡ text_at modes faults part.now }
{
    let span = span_of(part, modes, faults)?;
    let begin = span.begin;
    let end = span.end;
    let format = modes.format;
    if format {
        let good = text::is_text(&part[begin..end]);
        return Ok(Span {
            begin,
            end,
            faults: faults::note(modes, span.faults, Flaw::NotUtf8, !good),
        });
    }
    Ok(span)
}

// A name, from a position on.
#[tactic(auto, using(crate::proofs::FrontReturns::named_laws))]
fn named(part: &[u8], from: usize, kind: Kind, modes: Modes, faults: Faults) -> Result<Front, Stop>
    requires { from ≤ length part.now }
    ensures { result ≡ named_at kind from modes faults part.now }
{
    let name = text_of(&part[from..], modes, faults)?;
    Ok(Front {
        kind,
        name: from + name.begin,
        start: from + name.end,
        faults: faults::note(modes, name.faults, Flaw::Blank, name.begin == name.end),
    })
}

#[tactic(auto, using(crate::proofs::FrontReturns::plain_laws))]
fn plain(part: &[u8], mark: Mark, faults: Faults) -> Result<Front, Stop>
    ensures { result ≡ plain_of faults (typed_at mark part.now) }
{
    Ok(Front {
        kind: type_of(part, mark)?,
        name: 1,
        start: 1,
        faults,
    })
}

// What stands before a payload, at the front of a part, beside the faults met before.
#[tactic(auto, using(crate::proofs::FrontReturns::front_laws))]
pub fn front_of(part: &[u8], form: Form, modes: Modes, faults: Faults) -> Result<Front, Stop>
    ensures { result ≡ front_at form modes faults part.now }
{
    match form {
        Form::Top => plain(part, Mark::OfTop, faults),
        Form::Field => named(part, 1, type_of(part, Mark::OfField)?, modes, faults),
        Form::Item => plain(part, Mark::OfItem, faults),
        Form::SharedField(kind) => named(part, 0, kind, modes, faults),
        Form::SharedItem(kind) => Ok(Front {
            kind,
            name: 0,
            start: 0,
            faults,
        }),
    }
}

// A name, at the front of a part, before a payload of this kind.
pub fn name_of(part: &[u8], kind: Kind, modes: Modes, faults: Faults) -> Result<Front, Stop>
    ensures { result ≡ front_at (SharedField kind) modes faults part.now }
{
    named(part, 0, kind, modes, faults)
}
