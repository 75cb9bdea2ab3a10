// The decision by readings as a call: a sheet's bytes, those before a question's pairs, and the readings as two slices, a byte and two
// floats for each variable. The answer is one 64-bit number. decision_spec/specs/ReadingsCall says what is answered, for all inputs;
// `guard` exports it to C.
#![tactic(auto)]

ghost use Rattle.std.specs.Prelude.{◌≡◌, ◌<◌, get_or};
ghost use Rattle.sheet_spec.specs.Slots as slots;
ghost use Rattle.decision_spec.specs.ReadingsCall.{reading_in, reading_of, readings_in};

use readings_spec::{Measurement, Reading};
use sheet_spec::slots::N;

// The kinds: the numbers are the C interface's (include/guard.h).
const POINT: u8 = 1;

const PAIR: u8 = 2;

// Variable i's kind, or 0, which is none, where there are too few.
fn kind_at(kinds: &[u8], i: usize) -> u8
    ensures { result ≡ get_or kinds.now i 0 }
{
    kinds.get(i).copied().unwrap_or(0)
}

// A variable's reading, from its kind and its two floats.
#[tactic(auto, unfolding(decision_spec::specs::ReadingsCall::reading_of))]
fn reading_of(kind: u8, x: f32, y: f32) -> Reading
    ensures { result ≡ reading_of kind x y }
{
    match kind {
        POINT => Reading::Point(Measurement {
            value: x,
            tolerance: y,
        }),
        PAIR => Reading::Pair { lower: x, upper: y },
        _ => Reading::Missing,
    }
}

// Variable i's reading. Where a slice does not reach that far there is none.
#[tactic(auto, unfolding(decision_spec::specs::ReadingsCall::reading_in))]
fn reading_in(kinds: &[u8], values: &[f32], i: usize) -> Reading
    requires { i < slots.N }
    ensures { result ≡ reading_in kinds.now values.now i }
{
    let at = 2 * i;
    let (Some(&x), Some(&y)) = (values.get(at), values.get(at + 1)) else {
        return Reading::Missing;
    };
    reading_of(kind_at(kinds, i), x, y)
}

// The readings of all variables.
#[tactic(auto, unfolding(decision_spec::specs::ReadingsCall::readings_in))]
pub fn readings_in(kinds: &[u8], values: &[f32]) -> [Reading; N]
    ensures { result ≡ readings_in kinds.now values.now slots.N }
{
    std::array::from_fn(|i| reading_in(kinds, values, i))
}
