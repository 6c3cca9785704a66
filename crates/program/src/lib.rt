#![tactic(auto)]
// The program that reads a write list and prints its encoding, or why it is refused ("The write list", the last paragraph of document 01). No contract
// can say what is read or written: what stands between is `hexadecimal::feed`, part by part, and `answers::answer`.
ghost use Rattle.std.specs.Prelude.{◌≡◌, cond, ◌⊎◌, ◌≤◌, length};
ghost use Rattle.program.specs.Input.{Heard, Ran};

use answers::{LIST, NUMBERS, OUTPUT, Printed, TEXT};
use hexadecimal::Typing;
use std::io::{Read, Write};
use std::rt::{Stderr, Stdin, Stdout};

// Reads all of the input, in parts that go through `chunk`: what was typed, or none where a read fails. A proved loop has to end, so it counts down how
// many bytes there may be, from 2^64 - 1: as many as can be counted.
fn read_all(input: &mut Stdin, chunk: &mut [u8], list: &mut [u8]) -> Option<Typing>
    ensures { Heard result list.old list.new }
{
    let mut typing = hexadecimal::nothing();
    let mut left = u64::MAX;
    while left > 0 {
        let n = input.read(chunk).ok()?;
        if n == 0 {
            return Some(typing);
        }
        left = left.checked_sub(n as u64)?;
        typing = hexadecimal::feed(&chunk[..n], typing, list);
    }
    None
}

// Says on standard error why there is no answer. Where that fails too, the exit status is all that is left to say it.
fn complain(error: &mut Stderr, reason: &[u8]) {
    let _ = error.write_all(reason);
}

// Writes the answer. A refusal has the exit status 1, and an answer that cannot be written 2.
fn print(output: &mut Stdout, error: &mut Stderr, printed: Printed, text: &[u8]) -> u32
    requires { printed.length ≤ length text.now }
    ensures { (result ≡ cond printed.refused 1 0) ⊎ (result ≡ 2) }
{
    match output.write_all(&text[..printed.length]) {
        Ok(()) => { if printed.refused { 1 } else { 0 } }
        Err(_) => {
            complain(error, b"write_list: the answer cannot be written\n");
            2
        }
    }
}

fn run(
    input: &mut Stdin,
    output: &mut Stdout,
    error: &mut Stderr,
    list: &mut [u8; LIST],
    out: &mut [u8; OUTPUT],
    numbers: &mut [u32; NUMBERS],
    text: &mut [u8; TEXT],
) -> u32
    ensures { Ran result text.new ⊎ (result ≡ 2) }
{
    let Some(typing) = read_all(input, text, list) else {
        complain(error, b"write_list: standard input cannot be read\n");
        return 2;
    };
    let printed = answers::answer(typing, list, out, numbers, text);
    print(output, error, printed, text)
}

// The whole program; the answer is its exit status. What it lends, some 330,000 bytes, is on the stack, with some 87,000 of the writer's own. The
// input is read through the text, which nothing stands in yet.
pub fn ajuqvane_write_list(mut input: Stdin, mut output: Stdout, mut error: Stderr) -> u32
    ensures { result ≤ 2 }
{
    let mut list = [0u8; LIST];
    let mut out = [0u8; OUTPUT];
    let mut numbers = [0u32; NUMBERS];
    let mut text = [0u8; TEXT];
    run(
        &mut input,
        &mut output,
        &mut error,
        &mut list,
        &mut out,
        &mut numbers,
        &mut text,
    )
}
