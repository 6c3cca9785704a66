#![tactic(auto)]
// What the program answers to what was typed ("The write list", the last paragraph of document 01).
ghost use Rattle.std.specs.Prelude.{◌≡◌, ◌++◌, min, length, drop};
ghost use Rattle.frames.specs.Program.{typed, bytes_typed, program};
ghost use Rattle.hexadecimal.specs.Typing.{start, fed};
ghost use Rattle.answers.specs.Answer.{afterwards, answered_of, answered};

use hexadecimal::Typing;

// What the program lends. A list has at most 65,536 bytes, and one byte more tells one that is longer.
pub const LIST: usize = 65537;

pub const OUTPUT: usize = 65536;

pub const NUMBERS: usize = 16384;

// An encoding has at most 65,536 bytes, of two digits each, and a line end behind them.
pub const TEXT: usize = 131073;

// How many characters the answer's text has, and whether it is a refusal.
#[derive(Clone, Copy)]
pub struct Printed {
    pub length: usize,
    pub refused: bool,
}

// What the program answers to a list.
fn answer_to(list: &[u8], out: &mut [u8], numbers: &mut [u32], text: &mut [u8]) -> Printed
    requires { (length out.old ≡ 65536) × (length numbers.old ≡ 16384) × (length text.old ≡ 131073) }
    ensures { afterwards result text.new out.new numbers.new
        ≡ answered_of (typed list.now) text.old out.old numbers.old }
{
    match write::write(list, out, numbers) {
        Ok(size) => Printed {
            length: printing::put_encoding(&out[..size], text),
            refused: false,
        },
        Err(refused) => {
            let number = frames::refusal_number(refused.refusal);
            Printed {
                length: printing::put_refused(number, refused.place as u64, text),
                refused: true,
            }
        }
    }
}

// How many of the bytes that were formed the list holds.
fn held(formed: u64, list: &[u8]) -> usize
    ensures { result ≡ min formed (length list.now) }
{
    formed.min(list.len() as u64) as usize
}

// What the program answers to what was typed.
pub fn answer(
    typing: Typing,
    list: &[u8; LIST],
    out: &mut [u8; OUTPUT],
    numbers: &mut [u32; NUMBERS],
    text: &mut [u8; TEXT],
) -> Printed
    ensures { afterwards result text.new out.new numbers.new
        ≡ answered typing list.now text.old out.old numbers.old }
{
    if typing.digit.is_some() | typing.wrong {
        container::clear(numbers);
        return Printed {
            length: printing::put_refused(2, typing.formed, text),
            refused: true,
        };
    }
    let all: &[u8] = list;
    let end = held(typing.formed, all);
    answer_to(&all[..end], out, numbers, text)
}

// What the program answers to a whole input.
pub fn whole(
    input: &[u8],
    list: &mut [u8; LIST],
    out: &mut [u8; OUTPUT],
    numbers: &mut [u32; NUMBERS],
    text: &mut [u8; TEXT],
) -> Printed
    ensures text_after { text.new ≡ program input.now ++ drop result.length text.old }
    ensures numbers_after { afterwards result text.new out.new numbers.new
        ≡ answered_of (bytes_typed input.now) text.old out.old numbers.old }
    ensures list_after { list.new ≡ (fed input.now start list.old).list }
{
    let typing = hexadecimal::feed(input, hexadecimal::nothing(), list);
    answer(typing, list, out, numbers, text)
}
