// How far the numbers of a sheet, a question and a reach go: the names of specs/Limits.antt.

// The variables of a sheet; there is room for N (Slots).
pub const MAX_VARS: usize = 6;

// Its bands.
pub const MAX_BANDS: usize = 8;

// Its no-go boxes.
pub const MAX_BOXES: usize = 8;

// Δ + α, ρ, and the ticks of a reach.
pub const MAX_TICKS: u32 = 1000;

// The width of a reach.
pub const MAX_WIDTH: u32 = 1000;

// A command, without its sign.
pub const MAX_COMMAND: i64 = 10000;

// A cap.
pub const MAX_CAP: i64 = 1000;

// An edge, without its sign.
pub const MAX_EDGE: i64 = 2000000;

// A and b of a row, and a of a law that follows the state, without their sign.
pub const MAX_COEFFICIENT: i64 = 1000;

// C of a row or of a law, without its sign.
pub const MAX_CONSTANT: i64 = 100000000;

// D of a row.
pub const MAX_SPREAD: i64 = 100000000;

// Q of a row or of a law.
pub const MAX_DIVISOR: i64 = 4096;

// A side of a no-go box, without its sign.
pub const MAX_UNSAFE_SIDE: u32 = 2000000;

// A side of the recovery box, without its sign.
pub const MAX_RECOVERY_SIDE: u32 = 1000000;

// A side of a measured box or of the start box of a reach, without its sign.
pub const MAX_SIDE: i64 = 1000000;

// A question's allowance.
pub const MAX_ALLOWANCE: u32 = 1000000;
