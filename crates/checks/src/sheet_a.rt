// Document 01's sheet A as a file, and the places in it that a check changes.
pub const LENGTH: usize = 70;

// One byte more follows the sheet.
pub const PADDED: usize = LENGTH + 1;

// A record's mark, or a byte of a number: the last if no other is named.
pub const HEAD_MARK: usize = 0;

pub const VARS: usize = 2;

pub const BANDS: usize = 3;

pub const DELTA: usize = 7;

pub const ALPHA_FIRST: usize = 8;

pub const ALPHA: usize = 9;

pub const GREATEST_SECOND: usize = 17;

pub const CAP: usize = 21;

pub const BAND_MARK: usize = 22;

pub const EDGE: usize = 27;

pub const SAFETY_LEAST: usize = 31;

pub const DIVISOR: usize = 49;

pub const UNSAFE_UPPER: usize = 59;

// A line for each record, the byte more in the last.
pub const FILE: [u8; PADDED] =
    *b"SH\x01\x01\x01\x00\x00\x04\x00\x04\x00\x04\xff\xff\xff\xe7\x00\x00\x00\x19\x00\x05\
       BD\xff\xe1\x7b\x80\x00\x00\x00\x00\x00\x00\x00\x00\xff\xff\x00\x04\x00\x00\x00\x00\x00\x00\x00\x00\x00\x14\
       NG\x00\x00\x00\x82\x00\x1e\x84\x80\
       RC\xff\xff\xff\x9c\x00\x00\x00\x64\x00";
