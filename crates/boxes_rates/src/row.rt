// A row of the sheet over a box (document 01, "The machine on a sheet"): its number N, bounded from below or above, and the
// allowed change that comes of it. A face is `false` for a lower and `true` for an upper one. The definitions are in
// machine_spec/specs/Machine and machine_spec/specs/Rate.
ghost use Rattle.std.specs.Prelude.{◌≡◌, true, not, ◌+◌, ◌*◌, ◌<◌, ◌*ℤ◌, ◌≤ℤ◌};
ghost use Rattle.integers.specs.Bound.{Bound};
ghost use Rattle.sheet_spec.specs.Slots.{◌!◌};
ghost use Rattle.sheet_spec.specs.Slots as slots;
ghost use Rattle.sheet_spec.specs.Box.{lo, hi};
ghost use Rattle.machine_spec.specs.Machine.{change};
ghost use Rattle.machine_spec.specs.Rate.{neutral, outer, weighted};
ghost use Rattle.boxes_arithmetic.specs.Limits.{limit, word};
ghost use Rattle.boxes_rates.specs.Limits.{ChangeAsked, RowAsked, RowBounded, TermAsked, outer_end, term_limit};

use boxes_arithmetic::{Outermost, outer_quotient};
use sheet_spec::slots::{BOX_SIZE, N, ROW_C, ROW_D, ROW_Q, SLOTS};

// Of the least and the greatest of a range the one at which a coefficient's product is the outer one.
#[tactic(auto, unfolding(crate::specs::Limits::outer_end))]
pub(crate) fn outer_end<T: Copy>(up: bool, coefficient: i32, least: T, greatest: T) -> T
    ensures { result ≡ outer_end up coefficient least greatest }
{
    if up {
        if coefficient < 0 { least } else { greatest }
    } else {
        if coefficient < 0 { greatest } else { least }
    }
}

// The outer one of a coefficient's products with the sides of variable j.
fn term(up: bool, coefficient: i32, over: &[i64; BOX_SIZE], j: usize) -> i64
    requires { TermAsked over.now j }
    ensures { result ≡ outer up (coefficient *ℤ lo over.now j) (coefficient *ℤ hi over.now j) }
{
    let place = outer_end(up, coefficient, j, j + N);
    (coefficient as i64) * over[place]
}

// Σ aj·xj over the box, by the coefficients of the row or of the law at a slot.
pub fn weighted(up: bool, n: usize, sheet: &[i32; SLOTS], row: usize, over: &[i64; BOX_SIZE]) -> i64
    requires { RowAsked n row over.now }
    ensures value { result ≡ weighted up n (λ j. sheet.now ! (row + j)) over.now }
    ensures bound { Bound result (slots.N * (word * limit)) }
{
    let mut sum: i64 = 0;
    // n is at most N: with both the compiler writes the turns out
    for j in 0..n.min(N) {
        let slot = row + j;
        sum += term(up, sheet[slot], over, j);
    }
    sum
}

// A coefficient times a command.
pub fn product(coefficient: i32, command: i64) -> i64
    requires { Bound command word }
    ensures { (result ≡ coefficient *ℤ command) × Bound result term_limit }
{
    (coefficient as i64) * command
}

// The outer one of a coefficient's products with the commands of a span.
pub fn span_term(up: bool, coefficient: i32, least: i64, greatest: i64) -> i64
    requires { (least ≤ℤ greatest) × (Bound least word × Bound greatest word) }
    ensures { (result ≡ outer up (coefficient *ℤ least) (coefficient *ℤ greatest)) × Bound result term_limit }
{
    product(coefficient, outer_end(up, coefficient, least, greatest))
}

// The number N of the row at a slot, bounded over the box and over the commands whose outer term is given.
pub fn bound(
    up: bool,
    n: usize,
    sheet: &[i32; SLOTS],
    row: usize,
    over: &[i64; BOX_SIZE],
    term: i64,
) -> i64
    requires { RowAsked n row over.now × Bound term term_limit }
    ensures { RowBounded up n (slots.row_at sheet.now row) over.now term result }
{
    let slot = row + ROW_C;
    let constant = sheet[slot] as i64;
    let sum = weighted(up, n, sheet, row, over);
    sum + term + constant
}

// The outer one of the outermost so far and of the allowed change by the row at a slot, where `number` is the row's N.
pub fn further(
    up: bool,
    cap: i64,
    sheet: &[i32; SLOTS],
    row: usize,
    number: i64,
    outermost: i64,
) -> Outermost
    requires { ChangeAsked cap sheet.now row number outermost }
    ensures { (result.change ≡ outer up outermost (change up cap (slots.row_at sheet.now row) number)) × (result.capped ≡ true → result.change ≡ neutral (not up) cap) }
{
    let spread_slot = row + ROW_D;
    let divisor_slot = row + ROW_Q;
    let spread = sheet[spread_slot] as i64;
    let divisor = sheet[divisor_slot] as i64;
    if up {
        outer_quotient(up, cap, number + spread, divisor, outermost)
    } else {
        outer_quotient(up, cap, number - spread, divisor, outermost)
    }
}
