// What is printed under a line.
use crate::memory::{changed, held_byte, held_word};
use format::codes::Refusal;
use format::table::WIDTH;
use reader::Counts;
use std::io;

pub(crate) fn print_reading(rt: &impl Print, reading: Result<Counts, Refusal>) -> io::Result<()> {
    match reading {
        Ok(Counts { nodes, ordinals }) => print!(rt; "    nodes {nodes}, ordinals {ordinals}"),
        Err(refusal) => print!(rt; "    {refusal}"),
    }
}

pub(crate) fn print_writing(rt: &impl Print, writing: Result<usize, Refusal>) -> io::Result<()> {
    match writing {
        Ok(length) => print!(rt; "    length {length}"),
        Err(refusal) => print!(rt; "    {refusal}"),
    }
}

pub(crate) fn print_output(rt: &impl Print, out: &[u8]) -> io::Result<()> {
    let end = changed(out, held_byte);
    if 0 < end {
        print!(rt; ", wrote {end}: ")?;
        rt.write_all(&out[..end])?;
    }
    Ok(())
}

pub(crate) fn print_table(rt: &impl Print, table: &[u64]) -> io::Result<()> {
    let end = changed(table, held_word);
    let zeros = table.iter().take_while(|word| **word == 0).count();
    if 0 < zeros {
        print!(rt; ", zeros {zeros}")?;
    }
    for (i, word) in table[..end].iter().enumerate().skip(zeros) {
        if i % WIDTH == 0 {
            print!(rt; "\n    {}:", i / WIDTH)?;
        }
        print!(rt; " {word}")?;
    }
    println!(rt; "")
}
