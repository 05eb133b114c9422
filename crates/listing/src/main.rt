// The listing: reads a sheet from sheet.bin and pieces from standard input, and prints a line for the sheet and for each piece.
#![tactic(auto)]

ghost use Rattle.io.specs.Counts.{IsPrefixLen};

use std::fs;
use std::io::{Read, Write, writer};
use std::rt::Files;

// Reads until the buffer is full, the input ends or a read fails, and returns how many bytes it put at the buffer's start.
fn read_full<R: Read>(input: &mut R, buf: &mut [u8]) -> usize
    ensures { IsPrefixLen result buf.new }
{
    let mut done = 0;
    while done < buf.len() {
        match input.read(&mut buf[done..]) {
            Ok(n) if n > 0 => done += n,
            _ => break,
        }
    }
    done
}

// The bytes of sheet.bin, none where it is missing or cannot be read.
fn read_sheet(files: &impl Files, buf: &mut [u8]) -> usize
    ensures { IsPrefixLen result buf.new }
{
    match fs::open(files, "sheet.bin") {
        Ok(mut file) => read_full(&mut file, buf),
        Err(_) => 0,
    }
}

fn main(rt: HostRuntime) -> std::io::Result<()> {
    let mut sheet = [0u8; 65536];
    let sheet_bytes = read_sheet(&rt, &mut sheet);
    let mut input = [0u8; 65536];
    let input_bytes = read_full(&mut rt.reader(), &mut input);
    let mut out = output::room();
    let bytes = output::listing(&sheet[..sheet_bytes], &input[..input_bytes], &mut out);
    writer(&rt).write_all(&out[..bytes])
}
