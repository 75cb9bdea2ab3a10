// Reading a sheet from C (include/sheet.h), in an archive of its own for products that decide nothing.
#![tactic(auto)]

ghost use Rattle.std.specs.Prelude.{◌≡◌};
ghost use Rattle.sheet_spec.specs.Slots.{slots};
ghost use Rattle.sheet_spec.specs.Sheet.{refusal, values};

use sheet_spec::slots::SLOTS;

// The number of numbers in the array of `sheet_read`.
#[unsafe(no_mangle)]
pub extern "C" fn sheet_numbers() -> u64
    ensures { result ≡ slots }
{
    SLOTS as u64
}

// Reads a sheet; a refusal leaves the array as it was.
#[unsafe(no_mangle)]
pub extern "C" fn sheet_read(f: &[u8], v: &mut [i32; SLOTS]) -> u8
    ensures value { result ≡ refusal f.now }
    ensures v_after { (result ≡ 0 → v.new ≡ values f.now) × ((result ≡ 0 → ⊥) → v.new ≡ v.old) }
{
    match sheet::read_into(f, v) {
        Ok(()) => 0,
        Err(refusal) => u8::from(refusal),
    }
}
