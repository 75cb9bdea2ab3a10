// Why a reach is refused (document 01, "Refused calls"): 16 its ticks or its width, 14 its commands, 15 its start box. A question
// is refused for the last two as well, with the same numbers. The definitions are in boxes_spec/specs/Reach; the sheet's own
// refusals are in `sheet_spec`.
#![tactic(auto)]

ghost use Rattle.std.specs.Prelude.{◌≡◌, ◌≤◌};
ghost use Rattle.sheet_spec.specs.Slots as slots;
ghost use Rattle.sheet_spec.specs.Refusals.{refusal_of};
ghost use Rattle.boxes_spec.specs.Reach.{in_range, law_refusal, reach_refusal, sides_refusal, ticks_refusal};

use machine_spec::Law;
use sheet_spec::Vars;
use sheet_spec::limits::{MAX_SIDE, MAX_TICKS, MAX_WIDTH};
use sheet_spec::refusals::Refusal;
use sheet_spec::slots::{BOX_SIZE, GREATEST, LEAST, N, SLOTS};

#[tactic(auto, unfolding(boxes_spec::specs::Reach::ticks_refusal))]
fn ticks_refusal(ticks: u32, width: u32) -> Result<(), Refusal>
    ensures { refusal_of result ≡ ticks_refusal ticks width }
{
    if MAX_TICKS < ticks {
        return Err(Refusal::Reach);
    }
    if width < 1 {
        return Err(Refusal::Reach);
    }
    if MAX_WIDTH < width {
        return Err(Refusal::Reach);
    }
    Ok(())
}

#[tactic(auto, unfolding(boxes_spec::specs::Reach::law_refusal), using(integers::proofs::Z::ints))]
pub fn law_refusal(sheet: &[i32; SLOTS], law: Law) -> Result<(), Refusal>
    ensures { refusal_of result ≡ law_refusal sheet.now law }
{
    let Law::Span { least, greatest } = law else {
        return Ok(());
    };
    if least < sheet[LEAST] as i64 {
        return Err(Refusal::Command);
    }
    if greatest < least {
        return Err(Refusal::Command);
    }
    if (sheet[GREATEST] as i64) < greatest {
        return Err(Refusal::Command);
    }
    Ok(())
}

fn in_range(lower: i64, upper: i64) -> bool
    ensures { result ≡ in_range lower upper }
{
    if lower < -MAX_SIDE {
        return false;
    }
    if upper < lower {
        return false;
    }
    upper <= MAX_SIDE
}

#[tactic(auto, using(crate::proofs::Turn::sides_none, crate::proofs::Turn::sides_more, crate::proofs::Turn::sides_stop))]
pub fn sides_refusal(n: Vars, start: &[i64; BOX_SIZE]) -> Result<(), Refusal>
    ensures { refusal_of result ≡ sides_refusal n start.now }
{
    for i in 0..n.count() {
        let upper = i + N;
        if !in_range(start[i], start[upper]) {
            return Err(Refusal::Start);
        }
    }
    Ok(())
}

// The first of them, for a sheet of n variables.
#[tactic(auto, unfolding(boxes_spec::specs::Reach::reach_refusal, sheet_spec::specs::Refusals::first_of, sheet_spec::specs::Refusals::unless_refused))]
pub fn reach_refusal(
    n: Vars,
    sheet: &[i32; SLOTS],
    ticks: u32,
    width: u32,
    law: Law,
    start: &[i64; BOX_SIZE],
) -> Result<(), Refusal>
    requires { n ≡ slots.vars sheet.now }
    ensures { refusal_of result ≡ reach_refusal sheet.now ticks width law start.now }
{
    ticks_refusal(ticks, width)?;
    law_refusal(sheet, law)?;
    sides_refusal(n, start)
}
