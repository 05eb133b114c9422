// Prints the parents of all places: 680 lines, place, a space and parent, 680 for an argument.
#![tactic(auto)]

use std::io::{Write, writer};

fn main(rt: HostRuntime) -> std::io::Result<()> {
    let mut text = [0u8; 5210];
    parent_lines::put_parents(&mut text);
    writer(&rt).write_all(&text)
}
