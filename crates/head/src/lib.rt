#![tactic(auto)]
// A payload up to its contents, and a field up to its contents.
ghost use Rattle.std.specs.Prelude.{◌≡◌, ◌≤◌, length};
ghost use Rattle.number.specs.VarUInt.{var_uint};
ghost use Rattle.front.specs.Between.{between};
ghost use Rattle.front.specs.Pieces.{span_at};
ghost use Rattle.head.specs.Code.{head_at, meet_at};
ghost use Rattle.head.specs.Pieces.{fixed_size, count_of, shared_fields_of, shared_items_of, shared_count_of, inside_of};

use faults::{Faults, Modes};
use format::{Class, Flaw, Form, Inner, Kind, Mark, Stop};
use leaves::Heading;

// A field up to its contents: its kind, the start of its name, and where its payload starts and ends; and of a container how the fields or
// items stand, how many items are counted, and where the contents begin (they end with the payload).
#[derive(Clone, Copy)]
pub enum Met {
    Leaf {
        kind: Kind,
        name: usize,
        start: usize,
        end: usize,
        faults: Faults,
    },
    Fields {
        kind: Kind,
        name: usize,
        start: usize,
        form: Form,
        begin: usize,
        end: usize,
        faults: Faults,
    },
    Items {
        kind: Kind,
        name: usize,
        start: usize,
        form: Form,
        count: u64,
        begin: usize,
        end: usize,
        faults: Faults,
    },
}

// How many bytes a payload has by its kind, whatever they are; 0 for the other kinds, and for 01, 0C and 0D.
pub fn fixed_size(kind: Kind) -> usize
    ensures { result ≡ fixed_size kind }
{
    match format::class_of(kind) {
        Class::Fixed(size) => size,
        _ => 0,
    }
}

// Behind a size, from begin to end: a shared byte, and a field behind it.
fn shared_fields(part: &[u8], begin: usize, end: usize, faults: Faults) -> Result<Heading, Stop>
    requires { (begin ≤ end) × (end ≤ length part.now) }
    ensures { result ≡ shared_fields_of faults begin end (between begin end part.now) }
{
    if begin == end {
        return Err(Stop::Early);
    }
    let kind = format::kind_at(Mark::SharedByFields, part[begin]).ok_or(Stop::Unknown)?;
    if end - begin < 2 {
        return Err(Stop::BadUniform);
    }
    Ok(Heading::Fields {
        form: Form::SharedField(kind),
        begin: begin + 1,
        end,
        faults,
    })
}

// Behind a size: a count.
fn items(
    part: &[u8],
    begin: usize,
    end: usize,
    modes: Modes,
    faults: Faults,
) -> Result<Heading, Stop>
    requires { (begin ≤ end) × (end ≤ length part.now) }
    ensures { result ≡ count_of modes faults begin end (var_uint (between begin end part.now)) }
{
    let count = number::read(&part[begin..end])?;
    Ok(Heading::Items {
        form: Form::Item,
        count: count.value,
        begin: begin + count.length,
        end,
        faults: faults::note(modes, faults, Flaw::Long, !count.minimal),
    })
}

// Behind a size and a count: a shared byte, at a position.
fn shared_byte(
    part: &[u8],
    count: u64,
    at: usize,
    end: usize,
    faults: Faults,
) -> Result<Heading, Stop>
    requires { (at ≤ end) × (end ≤ length part.now) }
    ensures { result ≡ shared_items_of faults count at end (between at end part.now) }
{
    if at == end {
        return Err(Stop::Early);
    }
    let kind = format::kind_at(Mark::SharedByItems, part[at]).ok_or(Stop::Unknown)?;
    if count < 1 {
        return Err(Stop::BadUniform);
    }
    if format::is_bare(kind) {
        return Err(Stop::BadUniform);
    }
    Ok(Heading::Items {
        form: Form::SharedItem(kind),
        count,
        begin: at + 1,
        end,
        faults,
    })
}

fn shared_items(
    part: &[u8],
    begin: usize,
    end: usize,
    modes: Modes,
    faults: Faults,
) -> Result<Heading, Stop>
    requires { (begin ≤ end) × (end ≤ length part.now) }
    ensures { result ≡ shared_count_of modes faults begin end (between begin end part.now) (var_uint (between begin end part.now)) }
{
    let count = number::read(&part[begin..end])?;
    shared_byte(
        part,
        count.value,
        begin + count.length,
        end,
        faults::note(modes, faults, Flaw::Long, !count.minimal),
    )
}

// A size, and what stands behind it.
#[tactic(auto, using(front::proofs::FrontReturns::span_order, front::proofs::FrontReturns::span_within))]
fn behind(part: &[u8], inner: Inner, modes: Modes, faults: Faults) -> Result<Heading, Stop>
    ensures { result ≡ inside_of inner modes part.now (span_at modes faults part.now) }
{
    let span = front::span_of(part, modes, faults)?;
    let begin = span.begin;
    let end = span.end;
    let met = span.faults;
    match inner {
        Inner::Bytes => Ok(Heading::Leaf { end, faults: met }),
        Inner::ById => leaves::custom_by_id(&part[begin..end], end, modes, met),
        Inner::ByName => leaves::custom_by_name(&part[begin..end], end, modes, met),
        Inner::Fields => Ok(Heading::Fields {
            form: Form::Field,
            begin,
            end,
            faults: met,
        }),
        Inner::SharedFields => shared_fields(part, begin, end, met),
        Inner::Items => items(part, begin, end, modes, met),
        Inner::SharedItems => shared_items(part, begin, end, modes, met),
    }
}

// A payload up to its contents. Only `meet_of` calls this, so that the compiler makes one piece of the two.
#[tactic(auto, using(crate::proofs::HeadReturns::head_laws))]
fn header_of(part: &[u8], kind: Kind, modes: Modes, faults: Faults) -> Result<Heading, Stop>
    ensures { result ≡ head_at kind modes faults part.now }
{
    match format::class_of(kind) {
        Class::Fixed(size) => leaves::fixed(part, size, faults),
        Class::Text => leaves::text_leaf(part, modes, faults),
        Class::Positive => leaves::positive(part, modes, faults),
        Class::Negative => leaves::negative(part, modes, faults),
        Class::Wide => leaves::float64(part, modes, faults),
        Class::Behind(inner) => behind(part, inner, modes, faults),
    }
}

// A field up to its contents, at the front of a part, beside the faults met before. (The whole part, taken anew, is handed on by its address
// and length, and not by where these are stored.)
#[tactic(auto, using(crate::proofs::MeetReturns::meet_front, crate::proofs::MeetReturns::meet_stop))]
pub fn meet_of(part: &[u8], form: Form, modes: Modes, faults: Faults) -> Result<Met, Stop>
    ensures { result ≡ meet_at form modes faults part.now }
{
    let front = front::front_of(&part[0..], form, modes, faults)?;
    let kind = front.kind;
    let name = front.name;
    let start = front.start;
    let heading = header_of(&part[start..], kind, modes, front.faults)?;
    match heading {
        Heading::Leaf { end, faults } => Ok(Met::Leaf {
            kind,
            name,
            start,
            end: start + end,
            faults,
        }),
        Heading::Fields {
            form,
            begin,
            end,
            faults,
        } => Ok(Met::Fields {
            kind,
            name,
            start,
            form,
            begin: start + begin,
            end: start + end,
            faults,
        }),
        Heading::Items {
            form,
            count,
            begin,
            end,
            faults,
        } => Ok(Met::Items {
            kind,
            name,
            start,
            form,
            count,
            begin: start + begin,
            end: start + end,
            faults,
        }),
    }
}

// A payload up to its contents, at the front of a part, beside the faults met before: an item of its kind is met.
#[tactic(auto, using(crate::proofs::ItemReturns::item_laws))]
pub fn head_of(part: &[u8], kind: Kind, modes: Modes, faults: Faults) -> Result<Heading, Stop>
    ensures { result ≡ head_at kind modes faults part.now }
{
    let met = meet_of(part, Form::SharedItem(kind), modes, faults)?;
    match met {
        Met::Leaf { end, faults, .. } => Ok(Heading::Leaf { end, faults }),
        Met::Fields {
            form,
            begin,
            end,
            faults,
            ..
        } => Ok(Heading::Fields {
            form,
            begin,
            end,
            faults,
        }),
        Met::Items {
            form,
            count,
            begin,
            end,
            faults,
            ..
        } => Ok(Heading::Items {
            form,
            count,
            begin,
            end,
            faults,
        }),
    }
}
