// Boxes that grow and move by their rates (document 01, "One lifted step"). They are lent, and changed in place: a
// box that is returned is copied, and the next turn would wait for the copy. Loops end at N too, which n is at most: the
// compiler knows it and writes the turns out. The definitions are in machine_spec/specs/Box; `compare` says what a box is.
ghost use Rattle.std.specs.Prelude.{◌≡◌, ◌≤◌, ◌<◌, pos, ◌+ℤ◌, ◌*ℤ◌};
ghost use Rattle.sheet_spec.specs.Slots as slots;
ghost use Rattle.sheet_spec.specs.Slots.{◌!◌};
ghost use Rattle.machine_spec.specs.Box.{hull, moved, trim, within};
ghost use Rattle.machine_spec.specs.Rate.{outer};
ghost use Rattle.boxes_shape.specs.Limits.{ArriveDone, ArriveSideDone, Movable, SideMovable, TookIn, Trimmed};

use boxes_arithmetic::outer;
use sheet_spec::slots::{BOX_SIZE, N};

// A side moved by its rate for `ticks` ticks.
fn along(side: i64, ticks: usize, rate: i64) -> i64
    requires { SideMovable side ticks rate }
    ensures { result ≡ side +ℤ pos ticks *ℤ rate }
{
    side + (ticks as i64) * rate
}

// The side of the hull of a side and of the side moved: the lower one, or the upper.
fn swept_side(up: bool, side: i64, ticks: usize, rate: i64) -> i64
    requires { SideMovable side ticks rate }
    ensures { result ≡ outer up side (side +ℤ pos ticks *ℤ rate) }
{
    outer(up, side, along(side, ticks, rate))
}

// Whether the sides of a variable lie in those of `work`, which become the hull of both.
fn take_in(i: usize, low: i64, high: i64, work: &mut [i64; BOX_SIZE]) -> bool
    requires { i < slots.N }
    ensures { TookIn i low high work.old result work.new }
{
    let upper = i + N;
    let lower_side = work[i];
    let upper_side = work[upper];
    work[i] = lower_side.min(low);
    work[upper] = upper_side.max(high);
    lower_side <= low && high <= upper_side
}

// Whether the hull of `start` and of `start` moved by its rates for `ticks` ticks lies in `work`, which becomes the hull of both.
pub fn grow(
    n: usize,
    start: &[i64; BOX_SIZE],
    ticks: usize,
    rates: &[i64; BOX_SIZE],
    work: &mut [i64; BOX_SIZE],
) -> bool
    requires { Movable n start.now ticks rates.now × (trim n work.old ≡ work.old) }
    ensures value { result ≡ within n (hull n start.now (moved n start.now ticks rates.now)) work.old }
    ensures work_after { work.new ≡ hull n work.old (hull n start.now (moved n start.now ticks rates.now)) }
{
    let mut inside = true;
    for i in 0..n.min(N) {
        let upper = i + N;
        let low = swept_side(false, start[i], ticks, rates[i]);
        let high = swept_side(true, start[upper], ticks, rates[upper]);
        let right = take_in(i, low, high, work);
        inside = inside && right;
    }
    inside
}

// A side of `at` moves on by its rate, the side of `work` becomes the same, and that of `path` the hull's.
fn arrive_side(
    up: bool,
    place: usize,
    ticks: usize,
    rates: &[i64; BOX_SIZE],
    work: &mut [i64; BOX_SIZE],
    at: &mut [i64; BOX_SIZE],
    path: &mut [i64; BOX_SIZE],
)
    requires { (place < slots.box_size) × SideMovable (at.old ! place) ticks (rates.now ! place) }
    ensures { ArriveSideDone up place at.old ticks rates.now work.old path.old at.new work.new path.new }
{
    let end = along(at[place], ticks, rates[place]);
    path[place] = outer(up, at[place], end);
    at[place] = end;
    work[place] = end;
}

// `at` moves on by its rates for `ticks` ticks, `work` becomes the same box, and `path` the hull of both ends.
pub fn arrive(
    n: usize,
    ticks: usize,
    rates: &[i64; BOX_SIZE],
    work: &mut [i64; BOX_SIZE],
    at: &mut [i64; BOX_SIZE],
    path: &mut [i64; BOX_SIZE],
)
    requires { Movable n at.old ticks rates.now × Trimmed n work.old at.old path.old }
    ensures { ArriveDone n at.old ticks rates.now at.new work.new path.new }
{
    for i in 0..n.min(N) {
        arrive_side(false, i, ticks, rates, work, at, path);
        arrive_side(true, i + N, ticks, rates, work, at, path);
    }
}

// `out` becomes the hull of itself and another box.
pub fn join(n: usize, other: &[i64; BOX_SIZE], out: &mut [i64; BOX_SIZE])
    requires { (n ≤ slots.N) × (trim n out.old ≡ out.old) }
    ensures { out.new ≡ hull n out.old other.now }
{
    for i in 0..n.min(N) {
        take_in(i, other[i], other[i + N], out);
    }
}
