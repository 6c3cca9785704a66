#![tactic(auto)]
// The checks of `checks` where names are asked about. The notes of an object stand in front of a table, and what is behind them is lent down.
ghost use Rattle.std.specs.Prelude.{◌≡◌, ◌≤◌, ◌<◌, length};
ghost use Rattle.format.specs.Limits.{length_limit};
ghost use Rattle.format.specs.Payload.{fields_in, items_in};
ghost use Rattle.notes.specs.Notes.{noting};
ghost use Rattle.contents.specs.Contents.{closed};
ghost use Rattle.checks.specs.Checks.{contents_at};
ghost use Rattle.named.specs.Top.{top_at, top_within, top_with};
ghost use Rattle.named.specs.Named.{named_by, named_at, noted_at, field_in, Kept};

use contents::Field;
use faults::{Faults, Modes};
use format::{Form, Kind, Stop};
use head::Met;
use notes::Notes;
use select::Source;

// A field, and where its name begins and its payload starts.
#[derive(Clone, Copy)]
pub struct Named {
    pub kind: Kind,
    pub end: usize,
    pub faults: Faults,
    pub name: usize,
    pub start: usize,
}

fn close(
    contents: Result<Faults, Stop>,
    kind: Kind,
    end: usize,
    name: usize,
    start: usize,
) -> Result<Named, Stop>
    ensures { result ≡ named_by name start (closed kind end contents) }
{
    Ok(Named {
        kind,
        end,
        faults: contents?,
        name,
        start,
    })
}

// The name of a field that stands at a position and took so many bytes. (One that takes none is no field of an object.)
#[tactic(auto, using(crate::proofs::ObjectLaws::note_laws))]
fn note(
    part: &[u8],
    table: &mut [u64],
    notes: Notes,
    at: usize,
    name: usize,
    start: usize,
    end: usize,
) -> Notes
    requires { (length part.now < 16777216) × (at ≤ length part.now) × (name ≤ length part.now) × (start ≤ length part.now) }
    ensures { noting result table.new ≡ noted_at part.now table.old notes at name start end }
{
    if end == 0 {
        return notes;
    }
    notes::add(
        part,
        table,
        notes,
        entries::entry(part, at + name, at + start),
    )
}

// A field at the front of a part. (The part is taken anew as in `head::meet_of`.)
#[cycle(check_array_check_field_check_object)]
fn check_field(
    part: &[u8],
    form: Form,
    modes: Modes,
    left: usize,
    faults: Faults,
    table: &mut [u64],
) -> Result<Named, Stop>
    requires { length part.now < 16777216 }
    ensures { (result ≡ named_at form modes left faults part.now) × Kept table.old table.new }
{
    if left == 0 {
        return Err(Stop::TooDeep);
    }
    let met = head::meet_of(&part[0..], form, modes, faults)?;
    match met {
        Met::Leaf {
            kind,
            name,
            start,
            end,
            faults,
        } => Ok(Named {
            kind,
            end,
            faults,
            name,
            start,
        }),
        Met::Fields {
            kind,
            name,
            start,
            form,
            begin,
            end,
            faults,
        } => close(
            check_object(&part[begin..end], form, modes, left - 1, faults, table),
            kind,
            end,
            name,
            start,
        ),
        Met::Items {
            kind,
            name,
            start,
            form,
            count,
            begin,
            end,
            faults,
        } => close(
            check_array(
                &part[begin..end],
                form,
                count,
                modes,
                left - 1,
                faults,
                table,
            ),
            kind,
            end,
            name,
            start,
        ),
    }
}

// The fields of an object, which fill the part. There are no more of them than bytes.
#[cycle(check_array_check_field_check_object)]
fn check_object(
    part: &[u8],
    form: Form,
    modes: Modes,
    left: usize,
    faults: Faults,
    table: &mut [u64],
) -> Result<Faults, Stop>
    requires { length part.now < 16777216 }
    ensures { (result ≡ contents_at (fields_in form part.now) modes left faults) × Kept table.old table.new }
{
    let mut at = 0;
    // No `for` over the bytes: a turn takes a field, and `room` only says that there is an end.
    let mut room = part.len();
    let mut met = faults;
    let mut run: u8 = 0;
    let mut notes = Notes::Few(0);
    while at < part.len() {
        if room == 0 {
            return Err(Stop::Early);
        }
        let held = notes::held(notes);
        let field = check_field(&part[at..], form, modes, left, met, &mut table[held..])?;
        notes = note(part, table, notes, at, field.name, field.start, field.end);
        run = run::add(run, field.kind);
        met = field.faults;
        at += field.end;
        room -= 1;
    }
    let first = notes::first_twin(part, Source::Fields(form), table, notes);
    Ok(contents::end_object(form, modes, met, run, first < 16777216))
}

// The items of an array, which fill the part. They have no names.
#[cycle(check_array_check_field_check_object)]
fn check_array(
    part: &[u8],
    form: Form,
    count: u64,
    modes: Modes,
    left: usize,
    faults: Faults,
    table: &mut [u64],
) -> Result<Faults, Stop>
    requires { length part.now < 16777216 }
    ensures { (result ≡ contents_at (items_in form count part.now) modes left faults) × Kept table.old table.new }
{
    let size = contents::item_size(form);
    if 0 < size {
        return contents::check_sizes(part.len(), count, size, left, faults);
    }
    let mut at = 0;
    let mut met = faults;
    let mut run: u8 = 0;
    for read in 0..count {
        let field = check_field(&part[at..], form, modes, left, met, table)?;
        run = run::add(run, field.kind);
        met = field.faults;
        at += field.end;
    }
    if at < part.len() {
        return Err(Stop::Early);
    }
    Ok(contents::end_array(form, modes, met, run))
}

fn unnamed(named: Result<Named, Stop>) -> Result<Field, Stop>
    ensures { result ≡ field_in named }
{
    let field = named?;
    Ok(Field {
        kind: field.kind,
        end: field.end,
        faults: field.faults,
    })
}

// ---- the top field

// Names are noted in a table.
#[tactic(auto, using(crate::proofs::TopReturns::with_laws))]
fn top(payload: &[u8], modes: Modes, table: &mut [u64]) -> Result<Field, Stop>
    requires { length payload.now ≤ length_limit }
    ensures { (result ≡ top_at modes payload.now) × Kept table.old table.new }
{
    let nothing = faults::no_faults();
    unnamed(check_field(
        payload,
        Form::Top,
        modes,
        format::DEPTH as usize,
        nothing,
        table,
    ))
}

// The check of a payload's top field, in a table of its own. A longer payload is given a larger one. The largest holds all names of a payload within the
// limit that differ from one another: there are at most 21,929 (behind five bytes, one of no byte, 256 of one, the others of two, a length before each).
#[tactic(auto, using(crate::proofs::TopReturns::laws))]
pub fn check(payload: &[u8], modes: Modes) -> Result<Field, Stop>
    ensures { result ≡ top_within modes payload.now }
{
    let size = payload.len();
    if format::LENGTH < size {
        return Err(Stop::TooLong);
    }
    if size <= 256 {
        let mut table = [0u64; 64];
        return top(payload, modes, &mut table);
    }
    if size <= 2048 {
        let mut table = [0u64; 768];
        return top(payload, modes, &mut table);
    }
    if size <= 16384 {
        let mut table = [0u64; 6144];
        return top(payload, modes, &mut table);
    }
    let mut table = [0u64; 22016];
    top(payload, modes, &mut table)
}

// The same with a table that is lent, of any length; it holds zeros afterwards. The names of an object are looked at once, if there are at most 16 of them or
// they ascend. Else they are looked at once more, if the table has a number for each of them behind the notes of the objects around it, which take up to 16
// each; with a shorter table, again for each part of them that it holds, and with next to none, for each part that 64 numbers hold.
#[tactic(auto, using(crate::proofs::TopReturns::with_laws))]
pub fn check_with(payload: &[u8], modes: Modes, table: &mut [u64]) -> Result<Field, Stop>
    ensures { record { answer = result; table = table.new } ≡ top_with modes payload.now table.old }
{
    if format::LENGTH < payload.len() {
        entries::clear(table);
        return Err(Stop::TooLong);
    }
    let answer = top(payload, modes, table);
    entries::clear(table);
    answer
}
