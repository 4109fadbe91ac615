// What the memory lent holds before a call.
ghost use Rattle.std.specs.Prelude.{◌≤◌, length};

// No two words the same, and none that a table has.
pub(crate) fn held_word(i: usize) -> u64 {
    12000000000000000000u64.wrapping_sub(i as u64)
}

// No two bytes near each other the same, and none of ASCII.
pub(crate) fn held_byte(i: usize) -> u8 {
    (128 + i % 128) as u8
}

// In place: an array made by a function of the index is cleared and copied besides.
pub(crate) fn hold<T: Drop, H: Fn(usize) -> T>(memory: &mut [T], held: H)
    requires { (f : H) (i : _) → H.pre f i }
{
    for (i, now) in memory.iter_mut().enumerate() {
        *now = held(i);
    }
}

// How many are to be printed: all up to the last that is not as it was.
pub(crate) fn changed<T: PartialEq + Copy, H: Fn(usize) -> T>(memory: &[T], held: H) -> usize
    requires { (f : H) (i : _) → H.pre f i }
    ensures { result ≤ length memory.now }
{
    memory
        .iter()
        .enumerate()
        .rposition(|(i, now)| *now != held(i))
        .map_or(0, |last| last + 1)
}
