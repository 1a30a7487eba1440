// Reads lines from standard input and prints an answer for each (document 01, "Line program").
#![tactic(auto)]

mod input;
mod output;
mod pending;
mod stream;

use input::{OUTPUT, PIECE, answer_input};
use lines::Pending;
use pending::LONGEST;
use std::io;

fn main(rt: HostRuntime) -> io::Result<()> {
    let mut line = Pending::<LONGEST>::new();
    let mut piece = [0u8; PIECE];
    let mut out = [0u8; OUTPUT];
    let mut input = rt.stdin();
    let mut output = rt.stdout();
    answer_input(&mut input, &mut output, &mut line, &mut piece, &mut out).outcome
}
