// Reads calls from standard input, a line each, makes them on one table and prints the answers (docs/DESK-LINES.md).
#![tactic(auto)]

mod arguments;
mod file;
mod input;

use arguments::argument;
use file::serve_argument;
use input::serve_own_table;
use script::sizes::TABLE;
use script::state::{Stage, Table};
use std::io;

fn main(rt: HostRuntime) -> io::Result<()> {
    let mut none = [0u8; 0];
    if argument(&rt, 2, &mut none).is_some() {
        return eprintln!(rt; "usage: desk_lines [FILE]");
    }
    let mut input = rt.stdin();
    let mut output = rt.stdout();
    let mut table = Table {
        bytes: [0; TABLE],
        stage: Stage {
            fresh: true,
            rows: 0,
        },
    };
    if argument(&rt, 1, &mut none).is_some() {
        return serve_argument(&rt, &mut input, &mut output, &mut table);
    }
    match serve_own_table(&mut input, &mut output, &mut table) {
        Ok(()) => Ok(()),
        Err(error) => eprintln!(rt; "desk_lines: {error}"),
    }
}
