// The arithmetic of a box's faces: the outer one of two numbers, and signed numbers divided by positive ones, rounded outward and clamped
// (document 01, "The machine on a sheet"; document 02, paper 6: compared first, and divided only where nothing is clamped): a change to its
// cap, a command of the plain law to the safety range. The definitions are in integers/specs/Division, machine_spec/specs/Machine and
// machine_spec/specs/Rate, the law that makes comparisons of the clamp in machine_spec/specs/Clamped.
#![tactic(auto)]

ghost use Rattle.std.specs.Prelude.{◌≡◌, true, not, ◌*◌, nat_abs};
ghost use Rattle.integers.specs.Bound.{Bound};
ghost use Rattle.integers.specs.Division.{floor_div};
ghost use Rattle.sheet_spec.specs.Limits.{max_cap, max_divisor};
ghost use Rattle.machine_spec.specs.Machine.{clamp, clamp_to, outward_div};
ghost use Rattle.machine_spec.specs.Rate.{neutral, outer};
ghost use Rattle.boxes_arithmetic.specs.Limits.{AboveAsked, CommandAsked, QuotientAsked, WithinAsked};
ghost use Rattle.boxes_arithmetic.specs.Outward.{no_further};

// The smaller for a lower face, the greater for an upper.
pub fn outer(up: bool, a: i64, b: i64) -> i64
    ensures { result ≡ outer up a b }
{
    if up { a.max(b) } else { a.min(b) }
}

// The quotient, rounded down, of a dividend that is above divisor·base. What it is above that, 32 bits hold: so nothing negative is divided.
fn quotient_above(base: i64, dividend: i64, divisor: i64) -> i64
    requires { AboveAsked base dividend divisor }
    ensures { result ≡ (floor_div dividend (nat_abs divisor)) }
{
    let moved = dividend - divisor * base;
    let quotient = (moved as u32) / (divisor as u32);
    i64::from(quotient) + base
}

// The quotient, rounded outward (down for a lower face, up for an upper), of a dividend strictly between divisor·least and divisor·greatest.
pub fn outward_div(up: bool, least: i64, greatest: i64, dividend: i64, divisor: i64) -> i64
    requires { WithinAsked least greatest dividend divisor }
    ensures { result ≡ outward_div up dividend (nat_abs divisor) }
{
    if up {
        // the negative is rounded down
        -quotient_above(-greatest, -dividend, divisor)
    } else {
        quotient_above(least, dividend, divisor)
    }
}

// The value that leaves the outermost as it is: the cap that the face goes away from.
#[tactic(auto, unfolding(machine_spec::specs::Rate::neutral))]
pub fn neutral(up: bool, cap: i64) -> i64
    requires { Bound cap max_cap }
    ensures { result ≡ neutral up cap }
{
    if up { -cap } else { cap }
}

// The outermost change so far, and whether it is known to be the cap, beyond which no change goes.
#[derive(Clone, Copy)]
pub struct Outermost {
    pub change: i64,
    pub capped: bool,
}

// x is no further out than z.
fn no_further(up: bool, z: i64, x: i64) -> bool
    ensures { result ≡ no_further up z x }
{
    if up { x <= z } else { z <= x }
}

// x is at or beyond the end that the face goes towards, of the range from −most to most.
fn is_clamped(up: bool, most: i64, x: i64) -> bool
    requires { Bound most (max_divisor * max_cap) }
    ensures { result ≡ no_further up x (neutral (not up) most) }
{
    if up { most <= x } else { x <= -most }
}

// The outer one of the outermost so far and of the quotient, rounded outward and clamped by the cap. A dividend is divided only if it is
// strictly between −divisor·cap and divisor·cap, and its quotient further out than the outermost so far.
pub fn outer_quotient(up: bool, cap: i64, dividend: i64, divisor: i64, outermost: i64) -> Outermost
    requires { QuotientAsked cap divisor outermost }
    ensures { (result.change ≡ outer up outermost (clamp cap (outward_div up dividend (nat_abs divisor)))) × (result.capped ≡ true → result.change ≡ neutral (not up) cap) }
{
    if no_further(up, outermost * divisor, dividend) {
        return Outermost {
            change: outermost,
            capped: false,
        };
    }
    let most = divisor * cap;
    if is_clamped(up, most, dividend) {
        return Outermost {
            change: if up { cap } else { -cap },
            capped: true,
        };
    }
    // The dividend is further out than the outermost so far, which lies within the cap: so it lies within the other end too.
    Outermost {
        change: outward_div(up, -cap, cap, dividend, divisor),
        capped: false,
    }
}

// The quotient, rounded outward and clamped to the commands from `least` to `greatest`. A dividend is divided only if it is strictly between
// divisor·least and divisor·greatest.
pub fn clamped_command(up: bool, least: i64, greatest: i64, dividend: i64, divisor: i64) -> i64
    requires { CommandAsked least greatest divisor }
    ensures { result ≡ clamp_to least greatest (outward_div up dividend (nat_abs divisor)) }
{
    if dividend <= divisor * least {
        return least;
    }
    if divisor * greatest <= dividend {
        return greatest;
    }
    outward_div(up, least, greatest, dividend, divisor)
}
