#![tactic(auto)]
// The text that the program prints, put into what is lent for it.
ghost use Rattle.std.specs.Prelude.{◌≡◌, ◌++◌, ◌+◌, ◌*◌, ◌≤◌, ◌<◌, length};
ghost use Rattle.format.specs.Encoding.{concat};
ghost use Rattle.frames.specs.Program.{hex_digit, hex_byte, decimal, word_refused, word_at, line_end};
ghost use Rattle.printing.specs.Text.{put, put_in};

fn hex_digit(n: u8) -> u8
    requires { n < 16 }
    ensures { result ≡ hex_digit n }
{
    match n {
        0..=9 => b'0' + n,
        _ => b'a' + (n - 10),
    }
}

// Characters one behind the other.
fn put_word(word: &[u8], text: &mut [u8], at: usize) -> usize
    requires { at + length word.now ≤ length text.old }
    ensures { record { next = result; text = text.new } ≡ put word.now text.old at }
{
    let end = at + word.len();
    text[at..end].copy_from_slice(word);
    end
}

// A number in decimal, in as few digits as it takes, of which there are at most as many as said.
fn put_decimal(digits: usize, n: u64, text: &mut [u8], at: usize) -> usize
    requires { at + digits ≤ length text.old }
    ensures text_after { record { next = result; text = text.new } ≡ put (decimal digits n) text.old at }
    ensures upper_bound { result ≤ at + digits }
{
    if digits == 0 {
        return at;
    }
    if n < 10 {
        text[at] = b'0' + n as u8;
        return at + 1;
    }
    let last = put_decimal(digits - 1, n / 10, text, at);
    text[last] = b'0' + (n % 10) as u8;
    last + 1
}

// Bytes in hexadecimal, two digits each.
fn put_bytes(part: &[u8], text: &mut [u8]) -> usize
    requires { 2 * length part.now ≤ length text.old }
    ensures { record { next = result; text = text.new } ≡ put (concat hex_byte part.now) text.old 0 }
{
    for (i, &b) in part.iter().enumerate() {
        text[2 * i] = hex_digit(b / 16);
        text[2 * i + 1] = hex_digit(b % 16);
    }
    2 * part.len()
}

// `refused N at P`, and its line end.
fn refused_in(number: u32, place: u64, text: &mut [u8]) -> usize
    requires { 35 ≤ length text.old }
    ensures { record { next = result; text = text.new }
        ≡ put (word_refused ++ decimal 2 number ++ word_at ++ decimal 20 place ++ line_end) text.old 0 }
{
    let number_at = put_word(b"refused ", text, 0);
    let word_at = put_decimal(2, number as u64, text, number_at);
    let place_at = put_word(b" at ", text, word_at);
    let end_at = put_decimal(20, place, text, place_at);
    put_word(b"\n", text, end_at)
}

// An encoding and its line end.
fn encoding_in(encoding: &[u8], text: &mut [u8]) -> usize
    requires { 2 * length encoding.now + 1 ≤ length text.old }
    ensures { record { next = result; text = text.new } ≡ put (concat hex_byte encoding.now ++ line_end) text.old 0 }
{
    let end_at = put_bytes(encoding, text);
    put_word(b"\n", text, end_at)
}

// A refusal, where the text has room for the longest; else nothing is put.
pub fn put_refused(number: u32, place: u64, text: &mut [u8]) -> usize
    ensures { record { next = result; text = text.new }
        ≡ put_in 35 (word_refused ++ decimal 2 number ++ word_at ++ decimal 20 place ++ line_end) text.old }
{
    if text.len() < 35 {
        return 0;
    }
    refused_in(number, place, text)
}

// An encoding, where the text has room for it; else nothing is put.
pub fn put_encoding(encoding: &[u8], text: &mut [u8]) -> usize
    ensures { record { next = result; text = text.new }
        ≡ put_in (2 * length encoding.now + 1) (concat hex_byte encoding.now ++ line_end) text.old }
{
    if text.len().div_ceil(2) <= encoding.len() {
        return 0;
    }
    encoding_in(encoding, text)
}
