// The table that a caller lends. `clear` takes any, and makes every word of it zero, those behind the last whole node too; `tag_at` gives the tag of a node.
// Nothing is refused here: zeros are what a refusal leaves.
// Reader, placing and editor call `clear`, each for the refusals that are its own; rewriting calls `tag_at`.
#![tactic(auto)]

ghost use Rattle.std.specs.Prelude.{◌≡◌};
ghost use Rattle.format.specs.Table.{word_at, tag_word};
ghost use Rattle.format.specs.Reading.{cleared};

use format::table::WIDTH;

// Makes every word of a table zero, as a refusal does.
pub fn clear(table: &mut [u64])
    ensures { table.new ≡ cleared table.old }
{
    table.fill(0);
}

// Word 0 of a node; 0 where the table has none, and no Option: so says `word_at`, a definition for any table.
pub fn tag_at(table: &[u64], node: usize) -> u64
    ensures { result ≡ word_at table.now node tag_word }
{
    let tag = node.saturating_mul(WIDTH);
    table.get(tag).copied().unwrap_or(0)
}
