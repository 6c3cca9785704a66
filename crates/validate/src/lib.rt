#![tactic(auto)]
// The validator.
ghost use Rattle.std.specs.Prelude.{◌≡◌, ◌≤◌, ◌<◌, cond, false, length};
ghost use Rattle.format.specs.Limits.{length_limit};
ghost use Rattle.format.specs.Mask.{is_asked, names_mode, mask};
ghost use Rattle.validate.specs.Asked.{asked, top_at, mask_with};

use contents::Field;
use faults::Modes;
use format::{Form, Stop};

fn value_if(met: bool, value: u32) -> u32
    ensures { (result ≡ cond met value 0) × (result ≤ value) }
{
    if met { value } else { 0 }
}

fn is_asked(modes: u32, bit: u32) -> bool
    requires { 0 < bit }
    ensures { result ≡ is_asked modes bit }
{
    modes / bit % 2 == 1
}

// What the top field's check comes to.
fn settle(modes: u32, payload: &[u8], field: Result<Field, Stop>) -> u32
    requires { (length payload.now ≤ length_limit) × (field ≡ top_at modes payload.now) }
    ensures { result ≡ mask modes payload.now }
{
    match field {
        Err(stop) => format::stop_value(stop),
        Ok(top) => {
            faults::sum_of(top.faults) as u32
                + value_if(is_asked(modes, 4) & (top.end < payload.len()), 4096)
        }
    }
}

// Names are not asked about.
#[tactic(auto, using(crate::proofs::MaskCases::top_nameless))]
fn without_names(modes: u32, payload: &[u8]) -> u32
    requires { (length payload.now ≤ length_limit) × (is_asked modes names_mode ≡ false) }
    ensures { result ≡ mask modes payload.now }
{
    let format = is_asked(modes, 2);
    let nothing = faults::no_faults();
    let field = checks::check(payload, Form::Top, format, format::DEPTH as usize, nothing);
    settle(modes, payload, field)
}

// What is asked, if names are.
fn asked(modes: u32) -> Modes
    ensures { result ≡ asked modes }
{
    Modes {
        names: is_asked(modes, 1),
        format: is_asked(modes, 2),
    }
}

// The mask ("The mask"): 0, or the first fault that stops, or the sum of the faults that do not, each once, where its mode is asked.
#[tactic(auto, using(crate::proofs::MaskCases::laws))]
pub fn validate(modes: u32, payload: &[u8]) -> u32
    ensures { result ≡ mask modes payload.now }
{
    if format::LENGTH < payload.len() {
        return format::stop_value(Stop::TooLong);
    }
    if is_asked(modes, 1) {
        return settle(modes, payload, named::check(payload, asked(modes)));
    }
    without_names(modes, payload)
}

// The same with a table that is lent, of any length, for the names; it holds zeros afterwards.
#[tactic(auto, using(crate::proofs::MaskCases::with_laws))]
pub fn validate_with(modes: u32, payload: &[u8], table: &mut [u64]) -> u32
    ensures { record { answer = result; table = table.new } ≡ mask_with modes payload.now table.old }
{
    if format::LENGTH < payload.len() {
        entries::clear(table);
        return format::stop_value(Stop::TooLong);
    }
    if is_asked(modes, 1) {
        return settle(
            modes,
            payload,
            named::check_with(payload, asked(modes), table),
        );
    }
    entries::clear(table);
    without_names(modes, payload)
}
