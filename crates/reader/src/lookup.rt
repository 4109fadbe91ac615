// The node that carries an ordinal, found by a scan over the nodes so far, from where it can stand at the earliest. (Paper 02's L5 narrows it by halves.)
// Each asks for its own end that the table has it: a struct of the table and its nodes would still leave the scan to ask that its end is none behind them.
ghost use Rattle.std.specs.Prelude.{◌*◌, ◌<◌, ◌≤◌, length};
ghost use Rattle.format.specs.Table.{width};
ghost use Rattle.reader.specs.Nodes.{CarrierIn};

use format::table::{ORDINAL, WIDTH};

// The first node from one index up to another that carries the ordinal.
fn scan(table: &[u64], from: usize, to: usize, ordinal: u64) -> Option<usize>
    requires { (from ≤ to) × (to * width ≤ length table.now) }
    ensures { CarrierIn table.now from to ordinal result }
{
    (from..to).find(|i| table[*i * WIDTH + ORDINAL] == ordinal)
}

// Where to begin: each value but the plan's own has its key before it, so two nodes at least stand before it for each earlier ordinal. Only the time rests
// on that: what is not found from there on is looked for before it.
fn hint(nodes: usize, ordinal: u64) -> usize
    requires { 0 < ordinal }
    ensures { result ≤ nodes }
{
    if nodes as u64 / 2 < ordinal {
        return 0;
    }
    (2 * (ordinal - 1)) as usize
}

// A node, of so many, that carries the ordinal.
pub(crate) fn node_of(table: &[u64], nodes: usize, ordinal: u64) -> Option<usize>
    requires { (nodes * width ≤ length table.now) × (0 < ordinal) }
    ensures { CarrierIn table.now 0 nodes ordinal result }
{
    let from = hint(nodes, ordinal);
    scan(table, from, nodes, ordinal).or_else(|| scan(table, 0, from, ordinal))
}
