// Readings of the new drive (document 02, paper 1): floor and ceiling of a 32-bit float, worked out from its bits, the sides that a
// reading gives its variable, and the measured box of a list of readings. What they give is equal to the definitions in readings_spec.
#![tactic(auto)]

ghost use Rattle.std.specs.Prelude.{◌≡◌, cond, true, ◌+◌, ◌-◌, ◌^◌, ◌<◌, ◌≤◌, min, T, pos};
ghost use Rattle.sheet_spec.specs.Slots as slots;
ghost use Rattle.readings_spec.specs.Exact.{between, finite, rounded, scaled};
ghost use Rattle.readings_spec.specs.FromBits.{significand};
ghost use Rattle.readings_spec.specs.declared.Reading.TheVariants.{Pair, Point};
ghost use Rattle.readings_spec.specs.Reading.{tolerance_in, value_in};
ghost use Rattle.readings_spec.specs.SideCall.{side_call};
ghost use Rattle.readings.specs.Rounding.{PartsOf};
ghost use Rattle.readings.specs.Sides.{BoxOf, SidesOf};

use readings_spec::{Measurement, Reading};
use sheet_spec::Vars;
use sheet_spec::refusals::Refusal;
use sheet_spec::slots::{BOX_SIZE, N};

// The greatest value, without its sign, and the greatest tolerance.
const MAX_VALUE: f32 = 1_000_000.0;

const MAX_TOLERANCE: f32 = 1000.0;

// The weight of the sign in a float's bits, and that of the exponent's field, which is that of the leading digit too.
const SIGN: u32 = 0x8000_0000;

const LEADING: u32 = 0x80_0000;

// A whole number's last binary digit has this exponent's field.
const ONES: u32 = 150;

// How many binary digits a float has.
const DIGITS: u32 = 24;

// The code of a refusal, as the calls of include/guard.h have it above its number.
const CODE: i64 = 3;

// The parts of a float: its sign, the whole part of its size, and whether nothing else is left. Each of the three holds in every case.
#[derive(Clone, Copy)]
pub struct Parts {
    pub negative: bool,
    pub whole: u32,
    pub exact: bool,
}

impl Parts {
    // The whole part.
    fn near(self) -> i64
        ensures { result ≡ pos self.whole }
    {
        i64::from(self.whole)
    }

    // The whole part, or the next whole number where something is left.
    fn far(self) -> i64
        ensures { result ≡ pos (cond self.exact self.whole (self.whole + 1)) }
    {
        if self.exact {
            self.near()
        } else {
            self.near() + 1
        }
    }
}

// The sides that a reading gives its variable.
#[derive(Clone, Copy)]
pub struct Sides {
    pub lower: i64,
    pub upper: i64,
}

// Whether a float is finite and lies from least to greatest.
fn lies_between(x: f32, least: f32, greatest: f32) -> bool
    requires { T (finite least) × T (finite greatest) }
    ensures { result ≡ between (scaled least) (scaled greatest) x }
{
    (least..=greatest).contains(&x)
}

fn value_in(x: f32) -> bool
    ensures { result ≡ value_in x }
{
    lies_between(x, -MAX_VALUE, MAX_VALUE)
}

fn tolerance_in(x: f32) -> bool
    ensures { result ≡ tolerance_in x }
{
    lies_between(x, 0.0, MAX_TOLERANCE)
}

// The digits behind a float's leading one with that digit, which the field of the least exponent has not.
fn significand(exponent: u32, digits: u32) -> u32
    requires { digits < 2 ^ 23 }
    ensures { (result ≡ significand exponent digits) × (result < 2 ^ 24) }
{
    if exponent == 0 {
        return digits;
    }
    LEADING + digits
}

// How many digits stand behind the point; all of them where they are more than a float has.
fn fraction_digits(exponent: u32) -> u32
    requires { exponent ≤ 150 }
    ensures { result ≡ min 24 (149 - (exponent - 1)) }
{
    DIGITS.min(ONES - exponent)
}

// By the bits, and not by `f32::floor` and `f32::ceil`: those add and subtract floats, and so depend on how the processor rounds.
fn parts_of(x: f32) -> Parts
    requires { value_in x ≡ true }
    ensures { PartsOf x result }
{
    let bits = f32::to_bits(x);
    let exponent = bits % SIGN / LEADING;
    let all = significand(exponent, bits % LEADING);
    let behind = fraction_digits(exponent);
    let whole = all >> behind;
    Parts {
        negative: SIGN <= bits,
        whole,
        exact: whole << behind == all,
    }
}

// The floor of a value, or its ceiling.
fn rounded(x: f32, ceiling: bool) -> i64
    requires { value_in x ≡ true }
    ensures { result ≡ rounded ceiling x }
{
    let parts = parts_of(x);
    let near = parts.near();
    let far = parts.far();
    match (parts.negative, ceiling) {
        (false, false) => near,
        (false, true) => far,
        (true, false) => -far,
        (true, true) => -near,
    }
}

fn point_sides(point: Measurement) -> Result<Sides, Refusal>
    ensures { SidesOf (Point point) result }
{
    let Measurement { value, tolerance } = point;
    if !value_in(value) || !tolerance_in(tolerance) {
        return Err(Refusal::Reading);
    }
    let margin = rounded(tolerance, true);
    Ok(Sides {
        lower: rounded(value, false) - margin,
        upper: rounded(value, true) + margin,
    })
}

fn pair_sides(lower: f32, upper: f32) -> Result<Sides, Refusal>
    ensures { SidesOf (Pair lower upper) result }
{
    let reversed = upper < lower;
    if !value_in(lower) || !value_in(upper) || reversed {
        return Err(Refusal::Reading);
    }
    Ok(Sides {
        lower: rounded(lower, false),
        upper: rounded(upper, true),
    })
}

fn sides_of(reading: Reading) -> Result<Sides, Refusal>
    ensures { SidesOf reading result }
{
    match reading {
        Reading::Point(point) => point_sides(point),
        Reading::Pair { lower, upper } => pair_sides(lower, upper),
        Reading::Missing => Err(Refusal::Missing),
    }
}

// The box of the first n readings.
pub fn measured(n: Vars, readings: [Reading; N]) -> Result<[i64; BOX_SIZE], Refusal>
    ensures { BoxOf n readings result }
{
    let mut measured = [0i64; BOX_SIZE];
    for (i, reading) in readings[..n.count()].iter().enumerate() {
        let sides = sides_of(*reading)?;
        measured[i] = sides.lower;
        measured[i + N] = sides.upper;
    }
    Ok(measured)
}

// A float's floor (face 0) or its ceiling (any other face), or why it is refused, as include/readings.h has it. `readings_c` exports it to C.
pub fn reading_side(value: f32, face: u32) -> i64
    ensures { result ≡ side_call value face }
{
    if !value_in(value) {
        return (CODE << 48) + (i64::from(u8::from(Refusal::Reading)) << 32);
    }
    rounded(value, face != 0)
}
