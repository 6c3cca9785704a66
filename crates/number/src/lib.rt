#![tactic(auto)]
// Numbers (document 01, "Numbers and the VarUInt").
ghost use Rattle.std.specs.Prelude.{◌≡◌, ◌-◌, ◌^◌, ◌≤◌, ◌<◌};
ghost use Rattle.number.specs.BigEndian.{behind};
ghost use Rattle.number.specs.VarUInt as var;
ghost use Rattle.number.specs.Fixed.{fixed32, fixed64};
ghost use Rattle.number.specs.Negative.{negative};
ghost use Rattle.number.specs.Signed.{from_twos};

// A number, read: its value, how many bytes it takes, and whether no shorter form holds the value.
#[derive(Clone, Copy, Debug, PartialEq, Eq)]
pub struct VarUInt {
    pub value: u64,
    pub length: usize,
    pub minimal: bool,
}

// The part cuts it off: how many of the bytes that its first byte calls for are missing, 1 for an empty part.
#[derive(Clone, Copy, Debug, PartialEq, Eq)]
pub struct Cut {
    pub missing: usize,
}

// The least value that needs n bytes behind the first.
fn bound(n: usize) -> u64
    requires { (1 ≤ n) × (n ≤ 8) }
    ensures { result ≡ var.bound n }
{
    1 << (7 * n)
}

// How many bytes follow the first byte: as many as it has leading one bits, which are the leading zeros of its complement. (Not `leading_ones`: document 01
// names this form, "The forms we use".)
fn following(first: u8) -> usize
    ensures { result ≡ var.following first }
{
    (!first).leading_zeros() as usize
}

// What the first byte has behind its leading one bits and the zero that ends them: the front of the value.
fn front(first: u8, n: usize) -> u64
    requires { n ≡ var.following first }
    ensures { result ≡ first - var.lead n }
{
    u64::from(first) & (127 >> n)
}

// The number that `front` and then the bytes make.
fn gather(front: u64, bytes: &[u8]) -> u64
    requires { behind front bytes.now < 2 ^ 64 }
    ensures { result ≡ behind front bytes.now }
{
    let mut value = front;
    for byte in bytes {
        value = value * 256 + u64::from(*byte);
    }
    value
}

// The number that stands at the front of a part.
pub fn read(part: &[u8]) -> Result<VarUInt, Cut>
    ensures { result ≡ var.var_uint part.now }
{
    let Some((first, rest)) = part.split_first() else {
        return Err(Cut { missing: 1 });
    };
    let n = following(*first);
    if n == 0 {
        return Ok(VarUInt {
            value: u64::from(*first),
            length: 1,
            minimal: true,
        });
    }
    if rest.len() < n {
        return Err(Cut {
            missing: n - rest.len(),
        });
    }
    let value = gather(front(*first, n), &rest[..n]);
    Ok(VarUInt {
        value,
        length: n + 1,
        minimal: bound(n) <= value,
    })
}

pub fn read32(part: &[u8]) -> Option<u32>
    ensures { result ≡ fixed32 part.now }
{
    part.first_chunk().map(|bytes| u32::from_be_bytes(*bytes))
}

pub fn read64(part: &[u8]) -> Option<u64>
    ensures { result ≡ fixed64 part.now }
{
    part.first_chunk().map(|bytes| u64::from_be_bytes(*bytes))
}

// Minus (m plus 1), exact to -2^63.
pub fn minus_plus_one(m: u64) -> Option<i64>
    ensures { result ≡ negative m }
{
    let x = i64::try_from(m).ok()?;
    Some(-x - 1)
}

// Two's complement of 64 bits. (Not `cast_signed`: by negation and subtraction, as document 01 names it, "The forms we use".)
pub fn ticks(m: u64) -> i64
    ensures { result ≡ from_twos m }
{
    if m < 0x8000000000000000 {
        return m as i64;
    }
    let x = (0xffffffffffffffff - m) as i64;
    -x - 1
}
