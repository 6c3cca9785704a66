#![tactic(auto)]
// Where the first name begins that is equal to one before it, among names that stand in a part one after another: of as many names as there are, in a table of
// any length. If it holds them all, they are divided at once; else the first of them are, and if none of these stands twice, each pass over the part takes the
// least names that are above those of the passes before, as many as the table holds, and arranges them.
ghost use Rattle.std.specs.Prelude.{◌≡◌, ◌/◌, ◌≤◌, ◌<◌, length, take, replicate};
ghost use Rattle.select.specs.Source.{named_at, entries_of, first_twin, searched};
ghost use Rattle.select.specs.Range.{above, up_to, wanted};
ghost use Rattle.select.specs.Passes.{Covered, Cuts, Adds, Finishes, Passes, Fills};

use format::Form;
use names::Name;

// Where the names come from: the fields of an object; or the frames that describe one, with so many levels left, those that begin up to a place.
#[derive(Clone, Copy)]
pub enum Source {
    Fields(Form),
    Frames(u32, usize),
}

// A pass: up to the name of which entry it takes, if not all, how many entries stand in the table, and where the first twin begins so far.
#[derive(Clone, Copy, Debug, PartialEq, Eq)]
pub struct Pass {
    pub high: Option<u64>,
    pub count: usize,
    pub stop: usize,
}

// The name at a position.
pub fn name_at(part: &[u8], at: usize, source: Source) -> Option<Name>
    ensures { result ≡ named_at source at part.now }
{
    match source {
        Source::Fields(form) => names::name_at(part, at, form),
        Source::Frames(left, last) => {
            if at <= last {
                passing::name_at(part, at, left)
            } else {
                None
            }
        }
    }
}

// A range of names ends at the name of an entry, or nowhere.
fn is_above(part: &[u8], low: Option<u64>, x: u64) -> bool
    ensures { result ≡ above part.now low x }
{
    low.is_none_or(|y| compare::compare(part, x, y).is_gt())
}

fn is_upto(part: &[u8], high: Option<u64>, x: u64) -> bool
    ensures { result ≡ up_to part.now high x }
{
    high.is_none_or(|y| compare::compare(part, x, y).is_le())
}

// A name that is above one bound and up to the other, and begins before the first twin so far.
fn is_wanted(part: &[u8], low: Option<u64>, high: Option<u64>, stop: usize, x: u64) -> bool
    ensures { result ≡ wanted part.now low high stop x }
{
    entries::begin_of(x) < stop && is_above(part, low, x) && is_upto(part, high, x)
}

// A full table is arranged. What begins at the first twin or behind it goes, and so does the upper half of the names, if more than half is left.
fn cut(part: &[u8], table: &mut [u64], pass: Pass) -> Pass
    requires { (2 ≤ pass.count) × (pass.count ≤ length table.old / 2) }
    ensures { Cuts part.now table.old table.new pass result }
{
    let half = pass.count / 2;
    let Some(arranged) = order::arrange(part, table, pass.count) else {
        return pass;
    };
    let stop = entries::lesser(pass.stop, arranged.least);
    if half < arranged.count {
        return Pass {
            high: Some(table[half - 1]),
            count: half,
            stop,
        };
    }
    Pass {
        count: arranged.count,
        stop,
        ..pass
    }
}

// One entry more, where there is room for it.
fn put(part: &[u8], low: Option<u64>, table: &mut [u64], pass: Pass, x: u64) -> Pass
    requires { pass.count < length table.old / 2 }
    ensures { Adds part.now table.old table.new low x pass result }
{
    if !is_wanted(part, low, pass.high, pass.stop, x) {
        return pass;
    }
    table[pass.count] = x;
    Pass {
        count: pass.count + 1,
        ..pass
    }
}

// One entry more: a table that is full is cut first.
fn add(part: &[u8], low: Option<u64>, table: &mut [u64], pass: Pass, x: u64) -> Pass
    requires { (4 ≤ length table.old) × (pass.count ≤ length table.old / 2) }
    ensures { Adds part.now table.old table.new low x pass result }
{
    if pass.count < table.len() / 2 {
        return put(part, low, table, pass, x);
    }
    if !is_wanted(part, low, pass.high, pass.stop, x) {
        return pass;
    }
    let less = cut(part, table, pass);
    put(part, low, table, less, x)
}

// All names were met: what is in the table is arranged, and the first twin so far is told.
fn finish(part: &[u8], table: &mut [u64], pass: Pass) -> Pass
    requires { pass.count ≤ length table.old / 2 }
    ensures { Finishes part.now table.old table.new pass result }
{
    let Some(arranged) = order::arrange(part, table, pass.count) else {
        return pass;
    };
    Pass {
        count: 0,
        stop: entries::lesser(pass.stop, arranged.least),
        ..pass
    }
}

// One pass: the least names above a bound, as many as the table holds.
fn gather(part: &[u8], source: Source, low: Option<u64>, table: &mut [u64], stop: usize) -> Pass
    requires { (4 ≤ length table.old) × Covered part.now (entries_of source part.now) low stop }
    ensures { Passes part.now (entries_of source part.now) low table.old table.new result }
{
    let mut at = 0;
    let mut pass = Pass {
        high: None,
        count: 0,
        stop,
    };
    while at < part.len() {
        let Some(name) = name_at(part, at, source) else {
            break;
        };
        pass = add(
            part,
            low,
            table,
            pass,
            entries::entry(part, name.begin, name.end),
        );
        at = name.next;
    }
    finish(part, table, pass)
}

// Pass after pass, until one takes all names that are left.
fn search(part: &[u8], source: Source, table: &mut [u64]) -> usize
    requires { 4 ≤ length table.old }
    ensures { (result ≡ first_twin source part.now) × (length table.new ≡ length table.old) }
{
    let mut low = None;
    let mut stop = 16777216;
    loop {
        let pass = gather(part, source, low, table, stop);
        if pass.high.is_none() {
            return pass.stop;
        }
        low = pass.high;
        stop = pass.stop;
    }
}

// Pass after pass in a table of any length, which holds zeros afterwards.
fn pass_all(part: &[u8], source: Source, table: &mut [u64]) -> usize
    ensures { (result ≡ first_twin source part.now) × (table.new ≡ replicate (length table.old) 0) }
{
    if table.len() < 4 {
        let mut own = [0u64; 64];
        table.fill(0);
        return search(part, source, &mut own);
    }
    let answer = search(part, source, table);
    table.fill(0);
    answer
}

// ---- all names at once

// How many entries stand in front of the table, if they are all; else it is full of the first of them.
fn fill(part: &[u8], source: Source, table: &mut [u64]) -> Option<usize>
    ensures { Fills (entries_of source part.now) table.old table.new result }
{
    let mut at = 0;
    let mut n = 0;
    while at < part.len() {
        let Some(name) = name_at(part, at, source) else {
            break;
        };
        if table.len() <= n {
            return None;
        }
        table[n] = entries::entry(part, name.begin, name.end);
        n += 1;
        at = name.next;
    }
    Some(n)
}

// A table that is full of the first names. A twin among them is the first of all, since each later name begins behind it; if there is none, there are passes.
fn go_on(part: &[u8], source: Source, table: &mut [u64]) -> usize
    requires { table.old ≡ take (length table.old) (entries_of source part.now) }
    ensures { (result ≡ first_twin source part.now) × (table.new ≡ replicate (length table.old) 0) }
{
    let n = table.len();
    match divide::first_twin(part, table, n) {
        None => 0,
        Some(least) if least < 16777216 => least,
        Some(_) => pass_all(part, source, table),
    }
}

// Where the first name begins that is equal to one before it; 16777216 if there is none, in a part that is shorter than that. With a number for each name
// they are divided at once; the numbers that were used hold zeros afterwards. With fewer those that the table holds are divided, and if each of them stands
// once there are passes; the whole table holds zeros.
pub fn first_twin(part: &[u8], source: Source, table: &mut [u64]) -> usize
    ensures { record { answer = result; table = table.new } ≡ searched source part.now table.old }
{
    match fill(part, source, table) {
        None => go_on(part, source, table),
        Some(n) => divide::first_twin(part, table, n).unwrap_or(0),
    }
}
