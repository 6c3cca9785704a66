#![tactic(auto)]
// Floats by their bits.
ghost use Rattle.std.specs.Prelude.{◌≡◌};
ghost use Rattle.float.specs.Rule.{holds};
ghost use Rattle.float.specs.Width.{is_nan32, is_nan64, widen};
ghost use Rattle.float.specs.Answer.{narrowed, exact};

// The float rule, without a branch: 2^k divides 2^52 + f where that ends in k zeros or more, and it ends in 52 at most. `twice` has no sign.
pub fn float32_holds(bits: u64) -> bool
    ensures { result ≡ holds bits }
{
    let exponent = bits / 4503599627370496 % 2048;
    let zeros = u64::from((4503599627370496 + bits % 4503599627370496).trailing_zeros());
    let number = (926 <= zeros + exponent) & (29 <= zeros) & (exponent <= 1150);
    let twice = bits % 9223372036854775808 * 2;
    let special = (twice == 0) | (twice == 18437736874454810624);
    special | number
}

// Not `is_nan` of the library: `from_bits` wants the bits of a number. One test for both widths would be handed both constants, which is no plainer.
pub fn is_nan32(bits: u32) -> bool
    ensures { result ≡ is_nan32 bits }
{
    2139095040 < bits % 2147483648
}

pub fn is_nan64(bits: u64) -> bool
    ensures { result ≡ is_nan64 bits }
{
    9218868437227405312 < bits % 9223372036854775808
}

// A NaN goes by its bits, any other number by the machine's conversion, which changes none.
pub fn widen(bits: u32) -> u64
    ensures { result ≡ widen bits }
{
    if is_nan32(bits) {
        let sign = u64::from(bits / 2147483648);
        let fraction = u64::from(bits % 8388608);
        return sign * 9223372036854775808 + 9218868437227405312 + fraction * 536870912;
    }
    (f32::from_bits(bits) as f64).to_bits()
}

// None where Float32 does not hold the number.
pub fn narrow(bits: u64) -> Option<u32>
    ensures { result ≡ narrowed bits }
{
    if float32_holds(bits) {
        Some((f64::from_bits(bits) as f32).to_bits())
    } else {
        None
    }
}

// None past 2^53 on either side, up to where every integer is a Float64.
pub fn of_integer(z: i64) -> Option<u64>
    ensures { result ≡ exact z }
{
    let near = z.unsigned_abs() <= 9007199254740992;
    if near {
        Some((z as f64).to_bits())
    } else {
        None
    }
}
