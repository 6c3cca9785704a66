#![tactic(auto)]
// The first twin of the entries of a table, in place: they are divided by one digit of their names after another, until those that are left are few or have
// one name. A name's digits are its key and its bytes. The smaller part goes into the recursion, which so is no deeper than the table's length has bits.
ghost use Rattle.std.specs.Prelude.{◌≡◌, ◌+◌, ◌≤◌, ◌<◌, length, replicate};
ghost use Rattle.entries.specs.Entry.{begin_in, length_in};
ghost use Rattle.entries.specs.Least.{least};
ghost use Rattle.divide.specs.Divided.{divided};
ghost use Rattle.divide.specs.Passes.{digit_in, count_front, Reach, Alike, Astride, Ranges, Splits, Parts, Narrows, Tells};

// The least and the greatest digit.
#[derive(Clone, Copy)]
struct Range {
    low: usize,
    high: usize,
}

// The first `count` entries are left, whose names are alike up to `at`; `best` is the first twin of the others.
#[derive(Clone, Copy)]
struct Rest {
    best: usize,
    count: usize,
    at: usize,
}

// ---- digits

// A digit of an entry's name: its key, then its bytes.
fn digit(part: &[u8], x: u64, at: usize) -> usize
    requires { (begin_in x + length_in x ≤ length part.now) × (at ≤ length_in x) }
    ensures { result ≡ digit_in part.now at x }
{
    if at == 0 {
        (x / 16777216) as usize
    } else {
        usize::from(part[entries::begin_of(x) + (at - 1)])
    }
}

// The least and the greatest digit of some entries.
fn range_of<'a>(part: &'a [u8], table: &'a [u64], at: usize) -> Range
    requires { (0 < length table.now) × Reach part.now at table.now }
    ensures { Ranges part.now at table.now result.low result.high }
{
    let mut low = digit(part, table[0], at);
    let mut high = low;
    for x in &table[1..] {
        let d = digit(part, *x, at);
        low = low.min(d);
        high = high.max(d);
    }
    Range { low, high }
}

// ---- entries divided

// 1 for a digit that goes to the front: one up to the middle, or one above it.
fn counted(d: usize, mid: usize, lows: bool) -> usize
    ensures { result ≡ count_front lows mid d }
{
    usize::from((d <= mid) == lows)
}

// Those that go to the front are moved there. Each entry changes places with the first that is not in front: no branch goes by an entry.
fn split(part: &[u8], table: &mut [u64], at: usize, mid: usize, lows: bool) -> usize
    requires { Reach part.now at table.old }
    ensures { Splits part.now at mid lows table.old table.new result }
{
    let mut k = 0;
    for i in 0..table.len() {
        let x = table[i];
        // Not `swap`: with it a table takes 1.15 times as long to divide.
        table[i] = table[k];
        table[k] = x;
        k += counted(digit(part, x, at), mid, lows);
    }
    k
}

// The entries are divided at a digit, and the larger part is moved to the front.
fn halve(part: &[u8], table: &mut [u64], at: usize, mid: usize) -> usize
    requires { Astride part.now at mid table.old }
    ensures { Parts part.now at table.old table.new result }
{
    let k = split(part, table, at, mid, true);
    if table.len() - k <= k {
        k
    } else {
        split(part, table, at, mid, false)
    }
}

// ---- the first twin

// One turn: few entries, or entries of one name, are done with; else they are divided, if they differ in a digit.
#[cycle(by_names_narrow)]
fn narrow(part: &[u8], table: &mut [u64], at: usize) -> Rest
    requires { (0 < length table.old) × Alike part.now at table.old }
    ensures { Narrows part.now at table.old table.new result.best result.count result.at }
{
    let n = table.len();
    if n <= 4 {
        return Rest {
            best: pairs::first_twin(part, table, n),
            count: 0,
            at,
        };
    }
    if entries::length_of(table[0]) < at {
        return Rest {
            best: tables::second(table),
            count: 0,
            at,
        };
    }
    let Range { low, high } = range_of(part, table, at);
    if high <= low {
        return Rest {
            best: 16777216,
            count: n,
            at: at + 1,
        };
    }
    let k = halve(part, table, at, low + (high - low) / 2);
    let best = by_names(part, &mut table[k..], at);
    Rest { best, count: k, at }
}

// The first twin of entries whose names are alike up to a digit, turn after turn.
#[cycle(by_names_narrow)]
fn by_names(part: &[u8], table: &mut [u64], at: usize) -> usize
    requires { Alike part.now at table.old }
    ensures { Tells part.now table.old table.new result }
{
    let mut best = 16777216;
    let mut count = table.len();
    let mut from = at;
    while 0 < count {
        let rest = narrow(part, &mut table[..count], from);
        best = rest.best.min(best);
        count = rest.count;
        from = rest.at;
    }
    best
}

// ---- the whole

// The first twin of a table of names that all stand in the part; zeros afterwards.
fn settle(part: &[u8], table: &mut [u64]) -> usize
    requires { Alike part.now 0 table.old }
    ensures { (result ≡ least part.now table.old) × (table.new ≡ replicate (length table.old) 0) }
{
    let best = by_names(part, table, 0);
    table.fill(0);
    best
}

// The first twin of the first n entries of a table, which hold zeros afterwards; where there are fewer, or a name does not stand in the part, nothing.
pub fn first_twin(part: &[u8], table: &mut [u64], n: usize) -> Option<usize>
    ensures { record { answer = result; table = table.new } ≡ divided part.now table.old n }
{
    if n <= table.len() && tables::are_fit(part, &table[..n]) {
        Some(settle(part, &mut table[..n]))
    } else {
        None
    }
}
