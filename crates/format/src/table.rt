// The words of a node, by the names of specs/Table; word 0 is the tag.
use crate::kind::Kind;

// "six to a node"
pub const WIDTH: usize = 6;

// Word 0 of an integer, and of an array.
pub const INT_TAG: u64 = Kind::INT as u64;

pub const ARRAY_TAG: u64 = Kind::ARRAY as u64;

pub const ORDINAL: usize = 1;

pub const CONTENT: usize = 2;

pub const SIZE: usize = 3;

pub const LINK: usize = 4;

pub const END: usize = 5;

// From a key's node on: the end of the value's node behind it is the pair's.
pub const PAIR_END: usize = WIDTH + END;
