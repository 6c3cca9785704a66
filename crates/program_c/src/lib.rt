#![tactic(auto)]
// The program that writes a list, for C: programs/write_list.c hands its exit status on. The streams take no bytes, so that C passes nothing for them.
ghost use Rattle.std.specs.Prelude.{◌≤◌};

use std::rt::{Stderr, Stdin, Stdout};

#[unsafe(no_mangle)]
pub extern "C" fn ajuqvane_write_list(input: Stdin, output: Stdout, error: Stderr) -> u32
    ensures { result ≤ 2 }
{
    program::ajuqvane_write_list(input, output, error)
}
