// The numbers of the kinds, as rows have them. 0 is End, and refusals stand from 256 on; of what is between, 11 is the
// parser's word for a kept End.
pub const NEWLINE: usize = 1;

pub const COMMENT: usize = 2;

pub const INDENT: usize = 3;

pub const OUTDENT: usize = 4;

pub const LIST_ITEM: usize = 5;

pub const MAP_KEY: usize = 6;

pub const VALUE: usize = 7;

pub const MULTILINE_HINT: usize = 8;

pub const MULTILINE_VALUE: usize = 9;

pub const NO_VALUE: usize = 10;
