// Runs the worked calls of its file `stdin`, a line each, and prints each line and under it what the call answers and leaves. The file `stdout`
// has what that should be, worked out by hand from the papers. tests/src/cases holds the independent side to the same two files.
//
//     r WORDS PLAN                               reader::read
//     c WORDS BYTES PLAN                         editor::canonicalize
//     i WORDS BYTES NODE PLACE KEY VALUE PLAN    editor::insert
//     # TEXT                                     a comment, as an empty line is
//
// One space stands between the parts of a line. WORDS of the table, at most 800, and BYTES of the output, at most 700, are lent.
// `[64 a:1:{i:0;]` stands for 64 times `a:1:{i:0;`, and `[]` for no byte at all. No space stands in KEY and VALUE.
//
// Under a call stands, indented, its answer: `nodes 3, ordinals 2`, `length 43` or `refused 14 at 0`; then `, wrote 43: TEXT`, the bytes of the
// output up to the last that is not as it was, if any is not; then `, zeros 800`, if so many words of the table, from the first on, are zero;
// then the words behind those up to the last that is not as it was, a line for each node, with its index. Before a call every word and
// byte, those behind the lent ones too, holds what no call writes (memory.rt), and what is not printed holds it still: no wrong word or
// byte leaves the text as it is.
//
// A read or a write that fails ends it with that error, on the standard error, and status 1.
#![tactic(auto)]

use crate::line::{expand, field, lent, number, part};
use crate::memory::{held_byte, held_word, hold};
use crate::report::{print_output, print_reading, print_table, print_writing};
use std::io::{self, Read};

mod line;
mod memory;
mod report;

const SOURCE_SIZE: usize = 65536;

// Table and output are what is lent.
fn call(rt: &impl Print, line: &[u8], table: &mut [u64], out: &mut [u8]) -> io::Result<()> {
    match line {
        [b'r', ..] => print_reading(rt, reader::read(part(line, 2), table)),
        [b'c', ..] => print_writing(rt, editor::canonicalize(part(line, 3), table, out)),
        _ => {
            let (node, place) = (number(line, 3), number(line, 4));
            let (key, value) = (field(line, 5), field(line, 6));
            let plan = part(line, 7);
            print_writing(
                rt,
                editor::insert(plan, node, place, key, value, table, out),
            )
        }
    }
}

// At most half is lent, so that something always stands behind.
fn run_line(rt: &impl Print, text: &[u8]) -> io::Result<()> {
    // A line may have a longer plan than is accepted.
    let mut buffer = [0u8; 70000];
    let expanded = expand(text, &mut buffer);
    let line = expanded.text();
    let mut table = [0u64; 1600];
    let mut out = [0u8; 1400];
    hold(&mut table, held_word);
    hold(&mut out, held_byte);
    let words = lent(line, 1, table.len() / 2);
    let bytes = lent(line, 2, out.len() / 2);
    call(rt, line, &mut table[..words], &mut out[..bytes])?;
    print_output(rt, &out)?;
    print_table(rt, &table)
}

// A line that does not end is no line.
fn run_lines(rt: &impl Print, source: &[u8]) -> io::Result<()> {
    for line in source.split_inclusive(|byte| *byte == b'\n') {
        let [text @ .., b'\n'] = line else {
            break;
        };
        rt.write_all(line)?;
        if let [b'r' | b'c' | b'i', ..] = text {
            run_line(rt, text)?;
        }
    }
    Ok(())
}

fn main(rt: HostRuntime) -> io::Result<()> {
    let mut source = [0u8; SOURCE_SIZE];
    let mut input = rt.stdin().take(SOURCE_SIZE as u64);
    let size = io::copy(&mut input, &mut &mut source[..])?;
    run_lines(&rt, &source[..SOURCE_SIZE.min(size as usize)])
}
