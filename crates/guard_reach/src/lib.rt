// The reach as a call on bytes: a sheet, a start box as pairs of sides, and a lent buffer for the end box and the swept box. The
// answer is one 64-bit number. decision_spec/specs/ReachCall says what is answered and what is left in the buffer, for all inputs;
// `guard` exports it to C.
#![tactic(auto)]

ghost use Rattle.std.specs.Prelude.{◌≡◌, ◌≤◌};
ghost use Rattle.std.specs.declared.result.Result.TheVariants.{Ok};
ghost use Rattle.sheet_spec.specs.Slots as slots;
ghost use Rattle.machine_spec.specs.Box.{Near};
ghost use Rattle.boxes_spec.specs.Reach.{max_reached};
ghost use Rattle.boxes.specs.ReachAnswer.{answer_of};
ghost use Rattle.decision_spec.specs.ReachCall.{law_of, reach_call, reach_out, reached_call, reached_out, start_box};
ghost use Rattle.guard_reach.specs.Answered.{number_of};

pub mod numbers;

use crate::numbers::{put_numbers, put_sides};
use boxes::{Reached, reach_of};
use decision_answers::pack_refusal;
use decision_question::pairs;
use machine_spec::Law;
use sheet::read_zeroed;
use sheet_encoding::count;
use sheet_spec::Vars;
use sheet_spec::refusals::Refusal;
use sheet_spec::sizes::PAIR_BYTES;
use sheet_spec::slots::{BOX_SIZE, SLOTS, VARS};

// The start box of a reach of n variables. Of another length it is a reversed box, which is refused.
fn start_box(n: usize, start: &[u8]) -> [i64; BOX_SIZE]
    requires { n ≤ slots.N }
    ensures { result ≡ start_box n start.now }
{
    if start.len() == PAIR_BYTES * n {
        return pairs(Vars { count: n }, start, 0);
    }
    let mut reversed = [0; BOX_SIZE];
    reversed[0] = 1;
    reversed
}

// Law 0 is the plain law, any other the command: both are the C interface's numbers (include/guard.h).
#[tactic(auto, unfolding(decision_spec::specs::ReachCall::law_of), using(integers::proofs::Z::from32))]
fn law_of(law: u32, command: i32) -> Law
    ensures { result ≡ law_of law command }
{
    match law {
        0 => Law::Baseline,
        _ => {
            let command = i64::from(command);
            Law::Span {
                least: command,
                greatest: command,
            }
        }
    }
}

// Writes the boxes that a reach of n variables came to, and gives its rounds.
fn put_reached(n: usize, reached: Reached, out: &mut [u8]) -> Result<u32, Refusal>
    requires { (n ≤ slots.N) × (Near n max_reached reached.end × Near n max_reached reached.swept) }
    ensures value { number_of result ≡ reached_call n (answer_of (Ok reached)) out.old }
    ensures out_after { out.new ≡ reached_out n (answer_of (Ok reached)) out.old }
{
    if out.len() < 2 * PAIR_BYTES * n {
        return Err(Refusal::Room);
    }
    let Reached { end, swept, rounds } = reached;
    let mut v = [0i32; SLOTS];
    put_sides(&mut v, 0, n, &end);
    put_sides(&mut v, 2 * n, n, &swept);
    put_numbers(out, &v, 4 * n);
    Ok(rounds)
}

// The rounds of the reach that the bytes of a call ask for, or why it is refused.
fn reach_rounds(
    sheet: &[u8],
    ticks: u32,
    width: u32,
    law: u32,
    command: i32,
    start: &[u8],
    out: &mut [u8],
) -> Result<u32, Refusal>
    ensures value { number_of result ≡ reach_call sheet.now ticks width law command start.now out.old }
    ensures out_after { out.new ≡ reach_out sheet.now ticks width law command start.now out.old }
{
    let mut v = [0i32; SLOTS];
    read_zeroed(sheet, &mut v)?;
    let n = count(&v, VARS);
    let from = start_box(n, start);
    let reached = reach_of(&v, ticks, width, law_of(law, command), &from)?;
    put_reached(n, reached, out)
}

// The answer to the bytes of a call.
pub fn reach_call(
    sheet: &[u8],
    ticks: u32,
    width: u32,
    law: u32,
    command: i32,
    start: &[u8],
    out: &mut [u8],
) -> u64
    ensures value { result ≡ reach_call sheet.now ticks width law command start.now out.old }
    ensures out_after { out.new ≡ reach_out sheet.now ticks width law command start.now out.old }
{
    match reach_rounds(sheet, ticks, width, law, command, start, out) {
        Ok(rounds) => u64::from(rounds),
        Err(refusal) => pack_refusal(u8::from(refusal)),
    }
}
