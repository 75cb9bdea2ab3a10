// Where each number of a sheet's value is: the names of specs/Slots.antt.

use crate::limits::{MAX_BANDS, MAX_BOXES};

// There is room for N variables.
pub const N: usize = 6;

// The head.
pub const VARS: usize = 0;

pub const BANDS: usize = 1;

pub const BOXES: usize = 2;

pub const BAND_VAR: usize = 3;

pub const DELTA: usize = 4;

pub const ALPHA: usize = 5;

pub const RHO: usize = 6;

pub const LEAST: usize = 7;

pub const GREATEST: usize = 8;

pub const HEAD_SIZE: usize = 9;

// The cap of variable i is at FIRST_CAP + i.
pub const FIRST_CAP: usize = HEAD_SIZE;

// A row: N coefficients a, then b, c, d, q.
pub const ROW_B: usize = N;

pub const ROW_C: usize = N + 1;

pub const ROW_D: usize = N + 2;

pub const ROW_Q: usize = N + 3;

pub const REST_SIZE: usize = 4;

pub const ROW_SIZE: usize = N + REST_SIZE;

// A law that follows the state: N coefficients, then its constant and its divisor.
pub const LAW_CONSTANT: usize = N;

pub const LAW_DIVISOR: usize = N + 1;

pub const LAW_SIZE: usize = N + 2;

// A band: its edge, its safety range, its law, N rows. Band k is at FIRST_BAND + k * BAND_SIZE.
pub const SAFETY_LEAST: usize = 1;

pub const SAFETY_GREATEST: usize = 2;

pub const LAW: usize = 3;

pub const FIRST_ROW: usize = LAW + LAW_SIZE;

pub const BAND_SIZE: usize = FIRST_ROW + N * ROW_SIZE;

pub const FIRST_BAND: usize = HEAD_SIZE + N;

// A box: N lower sides, then N upper sides. No-go box j is at FIRST_UNSAFE + j * BOX_SIZE.
pub const BOX_SIZE: usize = 2 * N;

pub const RECOVERY: usize = FIRST_BAND + MAX_BANDS * BAND_SIZE;

pub const FIRST_UNSAFE: usize = RECOVERY + BOX_SIZE;

// How many numbers a sheet has.
pub const SLOTS: usize = FIRST_UNSAFE + MAX_BOXES * BOX_SIZE;
