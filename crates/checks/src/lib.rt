#![tactic(auto)]
// The checks of a field and of the contents of a container where names are not asked about. A field calls the check of its contents, which calls the check
// of each field in them: the depth left falls.
ghost use Rattle.std.specs.Prelude.{◌≡◌, false};
ghost use Rattle.format.specs.Payload.{fields_in, items_in};
ghost use Rattle.checks.specs.Checks.{namelessly, field_at, contents_at};

use contents::Field;
use faults::{Faults, Modes};
use format::{Form, Stop};
use head::Met;

// A field at the front of a part. (The part is taken anew as in `head::meet_of`.)
#[cycle(check_array_check_field_check_object)]
fn check_field(
    part: &[u8],
    form: Form,
    modes: Modes,
    left: usize,
    faults: Faults,
) -> Result<Field, Stop>
    requires { modes.names ≡ false }
    ensures { result ≡ field_at form modes left faults part.now }
{
    if left == 0 {
        return Err(Stop::TooDeep);
    }
    let met = head::meet_of(&part[0..], form, modes, faults)?;
    match met {
        Met::Leaf {
            kind,
            end,
            faults,
            ..
        } => Ok(Field { kind, end, faults }),
        Met::Fields {
            kind,
            form,
            begin,
            end,
            faults,
            ..
        } => contents::close(
            check_object(&part[begin..end], form, modes, left - 1, faults),
            kind,
            end,
        ),
        Met::Items {
            kind,
            form,
            count,
            begin,
            end,
            faults,
            ..
        } => contents::close(
            check_array(&part[begin..end], form, count, modes, left - 1, faults),
            kind,
            end,
        ),
    }
}

// The fields of an object, which fill the part. There are no more of them than bytes.
#[cycle(check_array_check_field_check_object)]
fn check_object(
    part: &[u8],
    form: Form,
    modes: Modes,
    left: usize,
    faults: Faults,
) -> Result<Faults, Stop>
    requires { modes.names ≡ false }
    ensures { result ≡ contents_at (fields_in form part.now) modes left faults }
{
    let mut at = 0;
    // No `for` over the bytes: a turn takes a field, and `room` only says that there is an end.
    let mut room = part.len();
    let mut met = faults;
    let mut run: u8 = 0;
    while at < part.len() {
        if room == 0 {
            return Err(Stop::Early);
        }
        let field = check_field(&part[at..], form, modes, left, met)?;
        run = run::add(run, field.kind);
        met = field.faults;
        at += field.end;
        room -= 1;
    }
    Ok(contents::end_object(form, modes, met, run, false))
}

// The items of an array, which fill the part.
#[cycle(check_array_check_field_check_object)]
fn check_array(
    part: &[u8],
    form: Form,
    count: u64,
    modes: Modes,
    left: usize,
    faults: Faults,
) -> Result<Faults, Stop>
    requires { modes.names ≡ false }
    ensures { result ≡ contents_at (items_in form count part.now) modes left faults }
{
    let size = contents::item_size(form);
    if 0 < size {
        return contents::check_sizes(part.len(), count, size, left, faults);
    }
    let mut at = 0;
    let mut met = faults;
    let mut run: u8 = 0;
    for read in 0..count {
        let field = check_field(&part[at..], form, modes, left, met)?;
        run = run::add(run, field.kind);
        met = field.faults;
        at += field.end;
    }
    if at < part.len() {
        return Err(Stop::Early);
    }
    Ok(contents::end_array(form, modes, met, run))
}

// A field at the front of a part, with so many levels left, beside the faults met before.
pub fn check(
    part: &[u8],
    form: Form,
    format: bool,
    left: usize,
    faults: Faults,
) -> Result<Field, Stop>
    ensures { result ≡ field_at form (namelessly format) left faults part.now }
{
    let modes = Modes {
        names: false,
        format,
    };
    check_field(part, form, modes, left, faults)
}
