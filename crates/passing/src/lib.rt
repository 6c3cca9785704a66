#![tactic(auto)]
// The names of the frames of an object, one after another. What is inside a frame is passed over: its frames were read before, and nothing is checked.
ghost use Rattle.std.specs.Prelude.{◌≡◌, ◌≤◌, ◌<◌, length};
ghost use Rattle.passing.specs.Code.{name_end, leaf_end, contents_end, payload_end, frame_end};
ghost use Rattle.passing.specs.FrameNames.{name_at};

use faults::Modes;
use format::Kind;
use leaves::Heading;
use names::Name;

// ---- behind a part of a frame, each from a position on; none if it cannot be passed over

// A name, in an object.
#[tactic(auto, using(crate::proofs::PartReturns::name_laws))]
fn pass_name(part: &[u8], at: usize, named: bool) -> Option<usize>
    requires { at ≤ length part.now }
    ensures { result ≡ name_end named at part.now }
{
    if !named {
        return Some(at);
    }
    let modes = Modes {
        names: false,
        format: false,
    };
    let name = front::name_of(&part[at..], Kind::Null, modes, faults::no_faults()).ok()?;
    Some(at + name.start)
}

#[tactic(auto, using(crate::proofs::PartReturns::leaf_laws))]
fn pass_leaf(part: &[u8], at: usize, kind: Kind) -> Option<usize>
    requires { at ≤ length part.now }
    ensures { result ≡ leaf_end kind at part.now }
{
    let modes = Modes {
        names: false,
        format: false,
    };
    let heading = head::head_of(&part[at..], kind, modes, faults::no_faults()).ok()?;
    let Heading::Leaf { end, .. } = heading else {
        return None;
    };
    Some(at + end)
}

// ---- behind a frame. A frame calls its payload, which calls each frame in it: the depth left falls

// The frames of an object or an array, and the close behind them.
#[cycle(pass_contents_pass_frame_pass_payload)]
#[tactic(auto, using(crate::proofs::FrameReturns::contents_laws))]
fn pass_contents(part: &[u8], at: usize, named: bool, left: u32) -> Option<usize>
    requires { at ≤ length part.now }
    ensures { result ≡ contents_end left named at part.now }
{
    let mut p = at;
    while p < part.len() {
        if part[p] == 0 {
            return Some(p + 1);
        }
        p = pass_frame(part, p, named, left)?;
    }
    None
}

// A payload; `left` levels are left inside it.
#[cycle(pass_contents_pass_frame_pass_payload)]
#[tactic(auto, using(crate::proofs::FrameReturns::payload_laws))]
fn pass_payload(part: &[u8], at: usize, kind: Kind, left: u32) -> Option<usize>
    requires { at ≤ length part.now }
    ensures { result ≡ payload_end left kind at part.now }
{
    match kind {
        Kind::Object => pass_contents(part, at, true, left),
        Kind::Array => pass_contents(part, at, false, left),
        _ => pass_leaf(part, at, kind),
    }
}

#[cycle(pass_contents_pass_frame_pass_payload)]
#[tactic(auto, using(crate::proofs::FrameReturns::frame_laws))]
fn pass_frame(part: &[u8], at: usize, named: bool, left: u32) -> Option<usize>
    requires { at < length part.now }
    ensures { result ≡ frame_end left named at part.now }
{
    if left == 0 {
        return None;
    }
    let kind = frame::kind_of(part[at])?;
    let start = pass_name(part, at + 1, named)?;
    pass_payload(part, start, kind, left - 1)
}

// ---- a frame's name

// The name of the frame at a position, with `left` levels left: where it begins and ends, and where the next frame stands; none, if it cannot be read.
#[tactic(auto, using(crate::proofs::NameReturns::name_laws))]
pub fn name_at(part: &[u8], at: usize, left: u32) -> Option<Name>
    ensures { result ≡ name_at left at part.now }
{
    if left == 0 {
        return None;
    }
    if part.len() <= at {
        return None;
    }
    let kind = frame::kind_of(part[at])?;
    let from = at + 1;
    let modes = Modes {
        names: false,
        format: false,
    };
    let name = front::name_of(&part[from..], kind, modes, faults::no_faults()).ok()?;
    let end = from + name.start;
    let behind = pass_payload(part, end, kind, left - 1);
    Some(Name {
        begin: from + name.name,
        end,
        next: behind.unwrap_or(part.len()),
    })
}
