// The limits of specs/Limits, for code.

// "plan longer than 65,536 bytes"
pub const SOURCE_LIMIT: usize = 65536;

// "*Number* below means digits without sign, of value at most 65,536."
pub const NUMBER_LIMIT: u64 = 65536;

// "to a depth of 64"
pub const DEPTH_LIMIT: usize = 64;
