// The steps of inserting that only pass or fail: 9, 8 and 7.
ghost use Rattle.std.specs.Prelude.{◌≡◌, not, suc, ◌+◌, ◌*◌, ◌≤◌, leb, ltb, length};
ghost use Rattle.format.specs.Answer.{require};
ghost use Rattle.format.specs.Limits.{depth_limit};
ghost use Rattle.format.specs.Table.{width};
ghost use Rattle.placing.specs.Words.{key_present};
ghost use Rattle.placing.specs.Checks.{check_answer};

use format::codes::Code;
use format::limits::DEPTH_LIMIT;
use format::table::{END, WIDTH};
use keys::{KeyWords, has_key};

// 9, "new key present": no key of the array at a node is equal to the new one.
#[tactic(auto, unfolding(crate::specs::Words::key_present))]
pub(crate) fn new_key(
    source: &[u8],
    table: &[u64],
    array_node: usize,
    key: &[u8],
    words: KeyWords,
) -> Result<(), Code>
    requires { array_node * width + width ≤ length table.now }
    ensures { check_answer result ≡ require (not (key_present source.now key.now words table.now array_node)) 9 0 }
{
    let end = table[array_node * WIDTH + END] as usize;
    if has_key(true, source, table, array_node + 1, end, key, words) {
        return Err(Code::KeyRepeated);
    }
    Ok(())
}

// 8, "array at depth 64": so many containers stand around the array.
pub(crate) fn shallow(around: usize) -> Result<(), Code>
    ensures { check_answer result ≡ require (ltb (suc around) depth_limit) 8 0 }
{
    if DEPTH_LIMIT - 1 <= around {
        return Err(Code::TooDeep);
    }
    Ok(())
}

// 7, "two more nodes": there is room for them.
pub(crate) fn two_more(nodes: usize, capacity: usize) -> Result<(), Code>
    ensures { check_answer result ≡ require (leb (nodes + 2) capacity) 7 0 }
{
    if capacity < 2 || capacity - 2 < nodes {
        return Err(Code::TableFull);
    }
    Ok(())
}
