#![tactic(auto)]
// One frame of the write list, by what stands behind a position of it: a kind, a name, a leaf. Positions in the answers count from there, or from
// the front of the list where that is lent.
ghost use Rattle.std.specs.Prelude.{◌≡◌, ◌≤◌, length, drop};
ghost use Rattle.faults.specs.Noted.{nothing};
ghost use Rattle.frames.specs.FramePieces.{writable};
ghost use Rattle.head.specs.Code.{head_at};
ghost use Rattle.frame.specs.Front.{front_at};
ghost use Rattle.frame.specs.Pieces.{all_modes, no_modes, name_of, name_at, name_end, leaf_frame_of, leaf_frame_at, leaf_end, bits_in};

use faults::Modes;
use format::{Class, Flaw, Kind, Stop};
use frames::Refusal;
use leaves::Heading;

// ---- what the reading of a leaf or a name is asked for

fn all_modes() -> Modes
    ensures { result ≡ all_modes }
{
    Modes {
        names: true,
        format: true,
    }
}

fn no_modes() -> Modes
    ensures { result ≡ no_modes }
{
    Modes {
        names: false,
        format: false,
    }
}

// ---- a position of the list

// A position, or the list's end if it stands behind that.
#[tactic(auto, using(crate::proofs::PositionReturns::inside_law))]
fn inside(list: &[u8], at: usize) -> usize
    ensures { (result ≤ length list.now) × (drop result list.now ≡ drop at list.now) }
{
    at.min(list.len())
}

// ---- a kind and a name

// The kind of a frame: 03 and 05 are no writable kinds.
#[tactic(auto, using(crate::proofs::NameReturns::kind_laws))]
pub fn kind_of(b: u8) -> Option<Kind>
    ensures { result ≡ writable b }
{
    if b == 3 || b == 5 {
        return None;
    }
    format::known_of(b)
}

// A name, by where it stands.
#[derive(Clone, Copy)]
pub struct Name {
    pub begin: usize,
    pub end: usize,
}

// The name whose length stands first, whatever names were used.
#[tactic(auto, using(crate::proofs::NameReturns::name_laws))]
pub fn name_of(part: &[u8]) -> Result<Name, Refusal>
    ensures { result ≡ name_of part.now }
{
    let Ok(front) = front::name_of(part, Kind::Null, all_modes(), faults::no_faults()) else {
        return Err(Refusal::BadFrame);
    };
    let faults = front.faults;
    if faults::has(faults, Flaw::Long) {
        return Err(Refusal::BadFrame);
    }
    if faults::has(faults, Flaw::Blank) {
        return Err(Refusal::EmptyName);
    }
    if faults::has(faults, Flaw::NotUtf8) {
        return Err(Refusal::NotText);
    }
    Ok(Name {
        begin: front.name,
        end: front.start,
    })
}

// The name whose length stands at a position of the list; positions in the answer are the list's.
pub fn name_at(list: &[u8], at: usize) -> Result<Name, Refusal>
    ensures { result ≡ name_at list.now at }
{
    let from = inside(list, at);
    let name = name_of(&list[from..])?;
    Ok(Name {
        begin: from + name.begin,
        end: from + name.end,
    })
}

// Where a name that was read before ends.
#[tactic(auto, using(crate::proofs::NameReturns::end_laws))]
pub fn name_end(part: &[u8]) -> usize
    ensures { result ≡ name_end part.now }
{
    match front::name_of(part, Kind::Null, no_modes(), faults::no_faults()) {
        Ok(front) => front.start,
        Err(_) => 0,
    }
}

// ---- a frame up to its payload

// Its kind, where its name begins, and where its payload starts, which is where the name ends.
#[derive(Clone, Copy)]
pub struct Frame {
    pub kind: Kind,
    pub begin: usize,
    pub start: usize,
}

// The frame at a position of the list, with so many levels left, whatever names were used; inside an object it has a name. Positions in the answer are the
// list's.
#[tactic(auto, using(crate::proofs::FrontReturns::front_laws))]
pub fn front_at(list: &[u8], at: usize, named: bool, left: u32) -> Result<Frame, Refusal>
    ensures { result ≡ front_at left list.now at named }
{
    if left == 0 {
        return Err(Refusal::TooDeep);
    }
    if list.len() <= at {
        return Err(Refusal::BadFrame);
    }
    let kind = kind_of(list[at]).ok_or(Refusal::BadFrame)?;
    if named {
        let name = name_at(list, at + 1)?;
        return Ok(Frame {
            kind,
            begin: name.begin,
            start: name.end,
        });
    }
    Ok(Frame {
        kind,
        begin: at + 1,
        start: at + 1,
    })
}

// ---- a leaf

// A payload up to its contents, with no faults met before. A leaf of most kinds goes straight to its reader: only what stands behind a size is met as an item.
#[tactic(auto, using(crate::proofs::LeafHeadings::heading_laws))]
fn heading(part: &[u8], kind: Kind, modes: Modes) -> Result<Heading, Stop>
    ensures { result ≡ head_at kind modes nothing part.now }
{
    match format::class_of(kind) {
        Class::Fixed(size) => leaves::fixed(part, size, faults::no_faults()),
        Class::Text => leaves::text_leaf(part, modes, faults::no_faults()),
        Class::Positive => leaves::positive(part, modes, faults::no_faults()),
        Class::Negative => leaves::negative(part, modes, faults::no_faults()),
        Class::Wide => leaves::float64(part, modes, faults::no_faults()),
        Class::Behind(inner) => head::head_of(part, kind, modes, faults::no_faults()),
    }
}

// A leaf: where it ends; and its ID and how long its payload is as encoded. (The ID and no kind: it is what `run::join` compares and what is written.)
#[derive(Clone, Copy)]
pub struct LeafFrame {
    pub end: usize,
    pub id: u8,
    pub size: usize,
}

// The leaf of a kind. A Float64 that Float32 holds counts as the Float32 that it becomes.
#[tactic(auto, using(crate::proofs::LeafReturns::leaf_laws))]
pub fn leaf_of(part: &[u8], kind: Kind) -> Result<LeafFrame, Refusal>
    ensures { result ≡ leaf_frame_of kind part.now }
{
    let Ok(heading) = heading(part, kind, all_modes()) else {
        return Err(Refusal::BadFrame);
    };
    let Heading::Leaf { end, faults } = heading else {
        return Err(Refusal::BadFrame);
    };
    if faults::has(faults, Flaw::Long) || faults::has(faults, Flaw::Low) {
        return Err(Refusal::BadFrame);
    }
    if faults::has(faults, Flaw::NotUtf8) {
        return Err(Refusal::NotText);
    }
    if faults::has(faults, Flaw::Wide) {
        return Ok(LeafFrame {
            end,
            id: 0x0a,
            size: 4,
        });
    }
    Ok(LeafFrame {
        end,
        id: format::id_of(kind),
        size: end,
    })
}

// The leaf of a kind at a position of the list; its end is the list's.
pub fn leaf_at(list: &[u8], at: usize, kind: Kind) -> Result<LeafFrame, Refusal>
    ensures { result ≡ leaf_frame_at kind list.now at }
{
    let from = inside(list, at);
    let leaf = leaf_of(&list[from..], kind)?;
    Ok(LeafFrame {
        end: from + leaf.end,
        ..leaf
    })
}

// Where a leaf that was read before ends: b is its kind.
#[tactic(auto, using(crate::proofs::LeafReturns::end_laws))]
pub fn leaf_end(part: &[u8], b: u8) -> usize
    ensures { result ≡ leaf_end b part.now }
{
    let Some(kind) = format::known_of(b) else {
        return 0;
    };
    let Ok(heading) = heading(part, kind, no_modes()) else {
        return 0;
    };
    match heading {
        Heading::Leaf { end, .. } => end,
        _ => 0,
    }
}

// The eight bytes of a Float64.
#[tactic(auto, using(crate::proofs::LeafReturns::bits_law))]
pub fn bits_of(part: &[u8]) -> u64
    ensures { result ≡ bits_in part.now }
{
    number::read64(part).unwrap_or(0)
}
