// The call of include/readings.h and nothing else: a static library for products that round floats as the guard does and decide nothing.
// readings_spec/specs/SideCall says what the call answers, for every float; `readings` has the code.
#![tactic(auto)]

ghost use Rattle.std.specs.Prelude.{◌≡◌};
ghost use Rattle.readings_spec.specs.SideCall.{side_call};

// A float's floor (face 0) or its ceiling (any other face), or why it is refused.
#[unsafe(no_mangle)]
pub extern "C" fn reading_side(value: f32, face: u32) -> i64
    ensures { result ≡ side_call value face }
{
    readings::reading_side(value, face)
}
