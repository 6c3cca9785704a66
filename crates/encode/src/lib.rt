#![tactic(auto)]
// A number as its VarUInt (document 01, "Numbers and the VarUInt").
ghost use Rattle.std.specs.Prelude.{◌≡◌, ◌+◌, ◌/◌, ◌^◌, ◌≤◌, ◌<◌, length};
ghost use Rattle.std.proofs.lemmas.List.Edits.{sets};
ghost use Rattle.number.specs.BigEndian.{to_bytes};
ghost use Rattle.number.specs.VarUInt as var;
ghost use Rattle.encode.specs.Put.{afterwards, put_at};

// The least first byte with n bytes behind it.
fn lead(n: usize) -> u64
    requires { n ≤ 8 }
    ensures { result ≡ var.lead n }
{
    255 - (255 >> n)
}

// n bytes hold what is below 2^(7n), n from 1 to 8.
const BOUNDS: [u64; 8] = [
    0x80,
    0x4000,
    0x200000,
    0x10000000,
    0x800000000,
    0x40000000000,
    0x2000000000000,
    0x100000000000000,
];

// How many bytes behind the first the minimal form of a value has.
fn needed(v: u64) -> usize
    ensures { result ≡ var.reached var.bounds v }
{
    BOUNDS
        .iter()
        .position(|bound| v < *bound)
        .unwrap_or(BOUNDS.len())
}

// How many bytes the minimal form of a value takes.
pub fn length(v: u64) -> usize
    ensures { result ≡ length (var.encoded v) }
{
    needed(v) + 1
}

// The last n bytes of a value, put behind `at`; the answer is what stands before them in the value.
fn scatter(v: u64, out: &mut [u8], at: usize, n: usize) -> u64
    requires { at + n < length out.old }
    ensures { (result ≡ v / 256 ^ n) × (out.new ≡ sets out.old (at + 1) (to_bytes n v)) }
{
    let mut rest = v;
    for i in (0..n).rev() {
        out[at + 1 + i] = (rest % 256) as u8;
        rest /= 256;
    }
    rest
}

// The minimal form of a value, put at `at`; the answer is the position behind it, none where there is no room.
pub fn put(v: u64, out: &mut [u8], at: usize) -> Option<usize>
    ensures { afterwards result out.new ≡ put_at v out.old at }
{
    let n = needed(v);
    if out.len() <= at || out.len() - at <= n {
        return None;
    }
    let first = lead(n) + scatter(v, out, at, n);
    out[at] = first as u8;
    Some(at + n + 1)
}
