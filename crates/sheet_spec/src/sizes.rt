// Where the numbers of a record are in a file, and how many bytes its parts have: the names of specs/Sizes.antt.

// The number of bytes of a number.
pub const U8: usize = 1;

pub const U16: usize = 2;

pub const I16: usize = 2;

pub const I32: usize = 4;

// The number of letters that a record starts with.
pub const LETTERS: usize = 2;

// The head, from its letters on. A file that ends before the caps is refused.
pub const VARS_AT: usize = LETTERS;

pub const BANDS_AT: usize = VARS_AT + U8;

pub const BOXES_AT: usize = BANDS_AT + U8;

pub const BAND_VAR_AT: usize = BOXES_AT + U8;

pub const DELTA_AT: usize = BAND_VAR_AT + U8;

pub const ALPHA_AT: usize = DELTA_AT + U16;

pub const RHO_AT: usize = ALPHA_AT + U16;

pub const LEAST_AT: usize = RHO_AT + U16;

pub const GREATEST_AT: usize = LEAST_AT + I32;

pub const CAPS_AT: usize = GREATEST_AT + I32;

// A band, from its edge on: the safety range, and what follows it.
pub const SAFETY_LEAST_AT: usize = I32;

pub const SAFETY_GREATEST_AT: usize = SAFETY_LEAST_AT + I32;

pub const LAW_AT: usize = SAFETY_GREATEST_AT + I32;

// A law that follows the state, from its constant on: the divisor.
pub const DIVISOR_AT: usize = I32;

pub const LAW_REST_BYTES: usize = DIVISOR_AT + U16;

// A row, from b on: c, d and q.
pub const C_AT: usize = I16;

pub const D_AT: usize = C_AT + I32;

pub const Q_AT: usize = D_AT + I32;

pub const REST_BYTES: usize = Q_AT + U16;

// A band's letters and what comes before its law.
pub const BAND_HEAD: usize = LETTERS + LAW_AT;

// A pair of sides.
pub const UPPER_AT: usize = I32;

pub const PAIR_BYTES: usize = UPPER_AT + I32;
