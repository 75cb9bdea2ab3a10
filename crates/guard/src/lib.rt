// The C interface (include/guard.h) and nothing else: wrappers around the crates below, each answer one 64-bit number.
// decision_spec/specs/Calls (of a reach: ReachCall, of readings: ReadingsCall) says what a call answers and what it leaves in a lent
// buffer or array; no call has a `requires`. The first three are the drive's.
#![tactic(auto)]

ghost use Rattle.std.specs.Prelude.{◌≡◌};
ghost use Rattle.sheet_spec.specs.Slots.{slots};
ghost use Rattle.sheet_spec.specs.Refusals.{refusal_number};
ghost use Rattle.decision_spec.specs.Call.{refused_call};
ghost use Rattle.decision_spec.specs.ReachCall.{reach_call, reach_out};
ghost use Rattle.decision_spec.specs.ReadingsCall.{readings_call};
ghost use Rattle.decision_spec.specs.Calls.{decide_call, read_call, read_out, recovery_call, sheet_call, write_call, write_out};

use decision::{check_recovery, decide};
use decision_answers::{Decision, pack_decision, pack_refusal};
use decision_readings::decide_readings;
use guard_reach::reach_call;
use guard_readings::readings_in;
use sheet::{read_into, read_zeroed, write};
use sheet_spec::refusals::Refusal;
use sheet_spec::slots::SLOTS;

// What a refused call answers.
fn refused(refusal: Refusal) -> u64
    ensures { result ≡ refused_call (refusal_number refusal) }
{
    pack_refusal(u8::from(refusal))
}

#[tactic(auto, unfolding(decision_spec::specs::Calls::sheet_call, sheet_spec::specs::Refusals::unless_refused), using(sheet_spec::proofs::Valid::zeros_are))]
#[unsafe(no_mangle)]
pub extern "C" fn guard_sheet(sheet: &[u8]) -> u64
    ensures { result ≡ sheet_call sheet.now }
{
    let mut numbers = [0i32; SLOTS];
    match read_zeroed(sheet, &mut numbers) {
        Ok(()) => 0,
        Err(refusal) => refused(refusal),
    }
}

#[unsafe(no_mangle)]
pub extern "C" fn guard_recovery(sheet: &[u8]) -> u64
    ensures { result ≡ recovery_call sheet.now }
{
    pack_decision(check_recovery(sheet).map(Decision::from))
}

#[unsafe(no_mangle)]
pub extern "C" fn guard_decide(sheet: &[u8], question: &[u8]) -> u64
    ensures { result ≡ decide_call sheet.now question.now }
{
    pack_decision(decide(sheet, question))
}

// The decision by readings: the bytes before a question's pairs, and for the pairs a kind and two floats for each variable.
#[unsafe(no_mangle)]
pub extern "C" fn guard_decide_readings(
    sheet: &[u8],
    head: &[u8],
    kinds: &[u8],
    values: &[f32],
) -> u64
    ensures { result ≡ readings_call sheet.now head.now kinds.now values.now }
{
    pack_decision(decide_readings(sheet, head, readings_in(kinds, values)))
}

// The number of numbers in the arrays below.
#[unsafe(no_mangle)]
pub extern "C" fn guard_numbers() -> u64
    ensures { result ≡ slots }
{
    SLOTS as u64
}

#[tactic(auto, unfolding(decision_spec::specs::Calls::read_call, decision_spec::specs::Calls::read_out, sheet_spec::specs::Refusals::unless_refused))]
#[unsafe(no_mangle)]
pub extern "C" fn guard_sheet_read(sheet: &[u8], numbers: &mut [i32; SLOTS]) -> u64
    ensures value { result ≡ read_call sheet.now }
    ensures numbers_after { numbers.new ≡ read_out sheet.now numbers.old }
{
    match read_into(sheet, numbers) {
        Ok(()) => sheet.len() as u64,
        Err(refusal) => refused(refusal),
    }
}

#[tactic(auto, unfolding(decision_spec::specs::Calls::write_call, decision_spec::specs::Calls::write_out, sheet_spec::specs::Refusals::unless_refused))]
#[unsafe(no_mangle)]
pub extern "C" fn guard_sheet_write(numbers: &[i32; SLOTS], buffer: &mut [u8], place: u64) -> u64
    ensures value { result ≡ write_call numbers.now buffer.old place }
    ensures buffer_after { buffer.new ≡ write_out numbers.now buffer.old place }
{
    match write(numbers, buffer, place as usize) {
        Ok(length) => length as u64,
        Err(refusal) => refused(refusal),
    }
}

#[unsafe(no_mangle)]
pub extern "C" fn guard_reach(
    sheet: &[u8],
    ticks: u32,
    width: u32,
    law: u32,
    command: i32,
    start: &[u8],
    out: &mut [u8],
) -> u64
    ensures value { result ≡ reach_call sheet.now ticks width law command start.now out.old }
    ensures out_after { out.new ≡ reach_out sheet.now ticks width law command start.now out.old }
{
    reach_call(sheet, ticks, width, law, command, start, out)
}
