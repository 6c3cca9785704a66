#![tactic(auto)]
// The writer ("The write list"). The first pass checks every frame and settles the containers' sizes and all IDs. The second pass cannot fail: it writes the
// encoding from front to back, by the numbers that the first one left.
ghost use Rattle.std.specs.Prelude.{◌≡◌, ◌++◌, ◌+◌, ◌-◌, ◌*◌, ◌≤◌, ◌<◌, length, get_or};
ghost use Rattle.std.proofs.lemmas.List.Edits.{sets};
ghost use Rattle.number.specs.BigEndian.{to_bytes};
ghost use Rattle.number.specs.VarUInt.{encoded};
ghost use Rattle.front.specs.Between.{between};
ghost use Rattle.frames.specs.Writer.{written};
ghost use Rattle.frames.specs.Container.{count_part, type_part};
ghost use Rattle.write.specs.Again.{start_at, end_at};
ghost use Rattle.write.specs.Passes.{LeafReady, LeafMakes, CanOpen, HasOpened, FieldReady, FieldMakes, ContentsReady, ContentsMakes};

use frames::Refused;

// Where the encoder stands: in the list, in the output, in the work numbers.
#[derive(Clone, Copy)]
pub struct Position {
    pub next: usize,
    pub to: usize,
    pub opened: usize,
}

// Behind a header: where the count stands, where the fields go, and whether these have type bytes.
#[derive(Clone, Copy)]
pub struct Opened {
    pub count: usize,
    pub to: usize,
    pub typed: bool,
}

fn whole(x: u32) -> usize
    ensures { (result ≡ x) × (result < 4294967296) }
{
    x as usize
}

fn copy(list: &[u8], from: usize, end: usize, out: &mut [u8], to: usize)
    requires { (from ≤ end) × (end ≤ length list.now) × (to + (end - from) ≤ length out.old) }
    ensures { out.new ≡ sets out.old to (between from end list.now) }
{
    output::copy(list, from, end, out, to);
}

fn put_number(out: &mut [u8], at: usize, n: usize) -> usize
    requires { at + length (encoded n) ≤ length out.old }
    ensures { (result ≡ at + length (encoded n)) × (out.new ≡ sets out.old at (encoded n)) }
{
    encode::put(n as u64, out, at).unwrap_or(at)
}

fn put_float32(out: &mut [u8], at: usize, bits: u32)
    requires { at + 4 ≤ length out.old }
    ensures { out.new ≡ sets out.old at (to_bytes 4 bits) }
{
    out[at..at + 4].copy_from_slice(&bits.to_be_bytes());
}

// ---- a frame again

// Where the payload of the frame at a position starts.
#[tactic(auto, using(crate::proofs::AgainReturns::start_laws))]
fn start_of(list: &[u8], at: usize, named: bool) -> usize
    requires { (at < length list.now) × (length list.now ≤ 65536) }
    ensures { result ≡ start_at named list.now at }
{
    let from = at + 1;
    if named {
        return from + frame::name_end(&list[from..]);
    }
    from
}

// Where a leaf ends: b is its kind.
fn end_at(list: &[u8], at: usize, b: u8) -> usize
    requires { (at ≤ length list.now) × (length list.now ≤ 65536) }
    ensures { result ≡ end_at list.now at b }
{
    at + frame::leaf_end(&list[at..], b)
}

// ---- what is written

fn put_type(out: &mut [u8], at: usize, named: bool, typed: bool, id: u8) -> usize
    requires { (at + length (type_part named typed id) ≤ length out.old) × (id < 32) }
    ensures { (result ≡ at + length (type_part named typed id)) × (out.new ≡ sets out.old at (type_part named typed id)) }
{
    if typed {
        out[at] = container::type_flags(named) + id;
        return at + 1;
    }
    at
}

// The type byte, and the name as it stands in the list, from `from` up to `start`.
fn put_front(
    list: &[u8],
    from: usize,
    start: usize,
    named: bool,
    typed: bool,
    id: u8,
    out: &mut [u8],
    to: usize,
) -> usize
    requires { (from ≤ start) × (start ≤ length list.now) × (to + (length (type_part named typed id) + (start - from)) ≤ length out.old) × (id < 32) }
    ensures { (result ≡ to + (length (type_part named typed id) + (start - from)))
        × (out.new ≡ sets out.old to (type_part named typed id ++ between from start list.now)) }
{
    let at = put_type(out, to, named, typed, id);
    copy(list, from, start, out, at);
    at + (start - from)
}

// A Float64: narrowed where Float32 holds it.
fn put_double(list: &[u8], at: usize, out: &mut [u8], to: usize, k: usize) -> Position
    requires { LeafReady list.now at 11 to out.old }
    ensures { LeafMakes list.now at 11 to k out.old out.new result }
{
    let end = at + 8;
    let size = match float::narrow(output::bits_at(list, at)) {
        Some(bits) => {
            put_float32(out, to, bits);
            4
        }
        None => {
            copy(list, at, end, out, to);
            8
        }
    };
    Position {
        next: end,
        to: to + size,
        opened: k,
    }
}

// A leaf stands in the list as it is encoded, but for a Float64 that Float32 holds.
fn put_leaf(list: &[u8], at: usize, b: u8, out: &mut [u8], to: usize, k: usize) -> Position
    requires { LeafReady list.now at b to out.old }
    ensures { LeafMakes list.now at b to k out.old out.new result }
{
    if b == 11 {
        return put_double(list, at, out, to, k);
    }
    let end = end_at(list, at, b);
    copy(list, at, end, out, to);
    Position {
        next: end,
        to: to + (end - at),
        opened: k,
    }
}

// A container's size, room for the count, and the shared byte if there is one. Its work number is its size from here on.
fn put_head(named: bool, out: &mut [u8], at: usize, work: &mut [u32], k: usize) -> Opened
    requires { CanOpen named at k out.old work.old (get_or work.old k 0) }
    ensures { HasOpened named at k out.old out.new work.old work.new (get_or work.old k 0) result }
{
    let x = work[k];
    work[k] = container::size_in(x);
    let q = put_number(out, at, whole(container::size_in(x)));
    let e = q + whole(container::width_in(x));
    if container::is_uniform_in(x) {
        out[e] = container::shared_flags(named) + container::shared_in(x);
        return Opened {
            count: q,
            to: e + 1,
            typed: false,
        };
    }
    Opened {
        count: q,
        to: e,
        typed: true,
    }
}

#[tactic(auto, using(crate::proofs::PutLaws::count_laws))]
fn put_count(out: &mut [u8], at: usize, named: bool, count: usize)
    requires { at + length (count_part named count) ≤ length out.old }
    ensures { out.new ≡ sets out.old at (count_part named count) }
{
    if !named {
        put_number(out, at, count);
    }
}

// The field at a position, written at `to`. Its containers' numbers stand from k on, and are sizes afterwards.
#[cycle(put_contents_put_field)]
fn put_field(
    list: &[u8],
    at: usize,
    named: bool,
    typed: bool,
    out: &mut [u8],
    to: usize,
    work: &mut [u32],
    k: usize,
    left: u32,
) -> Position
    requires { FieldReady left list.now at named typed to k out.old work.old }
    ensures { FieldMakes left list.now at named typed to k out.old out.new work.old work.new result }
{
    let b = list[at];
    let start = start_of(list, at, named);
    let id = output::final_id(list, b, start, container::number_at(work, k));
    let e = put_front(list, at + 1, start, named, typed, id, out, to);
    if b == 2 {
        return put_contents(list, start, true, out, e, work, k, left - 1);
    }
    if b == 4 {
        return put_contents(list, start, false, out, e, work, k, left - 1);
    }
    put_leaf(list, start, b, out, e, k)
}

// A container's payload. The count is known when the close is met, and goes into the room that was left for it.
#[cycle(put_contents_put_field)]
fn put_contents(
    list: &[u8],
    at: usize,
    named: bool,
    out: &mut [u8],
    to: usize,
    work: &mut [u32],
    k: usize,
    left: u32,
) -> Position
    requires { ContentsReady left list.now at named to k out.old work.old }
    ensures { ContentsMakes left list.now at named to k out.old out.new work.old work.new result }
{
    let h = put_head(named, out, to, work, k);
    let q = h.count;
    let typed = h.typed;
    let mut e = h.to;
    let mut p = at;
    let mut j = k + 1;
    let mut count: usize = 0;
    while p < list.len() {
        if list[p] == 0 {
            put_count(out, q, named, count);
            return Position {
                next: p + 1,
                to: e,
                opened: j,
            };
        }
        let r = put_field(list, p, named, typed, out, e, work, j, left);
        p = r.next;
        e = r.to;
        j = r.opened;
        count += 1;
    }
    Position {
        next: p,
        to: e,
        opened: j,
    }
}

// The writer.
pub fn write(list: &[u8], out: &mut [u8], work: &mut [u32]) -> Result<usize, Refused>
    ensures { record { answer = result; output = out.new; work = work.new }
        ≡ written list.now out.old work.old }
{
    let top = measure::measure(list, out.len(), work)?;
    out[0] = top.id;
    put_field(list, 0, false, false, out, 1, work, 0, format::DEPTH);
    Ok(top.length)
}
