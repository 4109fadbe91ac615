// The program nodes: takes a plan from standard input and prints a line for each node, `97,1,0,0,1,3`, or `refused 2 at 0`.
// It takes 65,537 bytes at the most, one more than a plan may have, and lends `read` a table of 8,190 words; so what is too long `read` refuses, 1 at 0.
// Each line ends with one LF, and nothing else is printed. A read or a write that fails ends it with that error, on the standard error, and status 1.
// Users call it, and tests/programs/nodes.sh. It is proved to end without fault; what it prints is tested.
#![tactic(auto)]

ghost use Rattle.std.specs.Prelude.{◌*◌, ◌≤◌, length};
ghost use Rattle.format.specs.Table.{width};

use format::limits::SOURCE_LIMIT;
use format::table::WIDTH;
use std::io::{self, Read};

// What the program lends: as much source as is taken, and a table for 1,365 nodes.
const SOURCE_SIZE: usize = SOURCE_LIMIT + 1;

const TABLE_WORDS: usize = 8190;

// A line for each of the table's first nodes: its words, with commas between them.
fn print_nodes(rt: &impl Print, table: &[u64], nodes: usize) -> io::Result<()>
    requires { nodes * width ≤ length table.now }
{
    let (all, _) = table.as_chunks::<WIDTH>();
    for [tag, ordinal, content, size, link, end] in all.iter().take(nodes) {
        println!(rt; "{tag},{ordinal},{content},{size},{link},{end}")?;
    }
    Ok(())
}

fn print_reading(rt: &impl Print, source: &[u8], table: &mut [u64]) -> io::Result<()> {
    match reader::read(source, table) {
        Ok(counts) => print_nodes(rt, table, counts.nodes),
        Err(refusal) => println!(rt; "{refusal}"),
    }
}

fn main(rt: HostRuntime) -> io::Result<()> {
    let mut source = [0u8; SOURCE_SIZE];
    let mut input = rt.stdin().take(SOURCE_SIZE as u64);
    let size = io::copy(&mut input, &mut &mut source[..])?;
    let mut table = [0u64; TABLE_WORDS];
    print_reading(&rt, &source[..SOURCE_SIZE.min(size as usize)], &mut table)
}
