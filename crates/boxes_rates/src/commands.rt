// The commands that a law offers over a box (document 01, "The machine on a sheet"; document 02, papers 4 and 9), and the term that a row has of
// them. A face is `false` for a lower and `true` for an upper one, and an end of the commands likewise. The definitions are in
// machine_spec/specs/Machine and machine_spec/specs/Rate.
ghost use Rattle.std.specs.Prelude.{◌≡◌, true, false, cond, List, ◌<◌, ℤ, set};
ghost use Rattle.sheet_spec.specs.Limits.{max_bands};
ghost use Rattle.integers.specs.Bound.{Bound};
ghost use Rattle.sheet_spec.specs.Slots as slots;
ghost use Rattle.sheet_spec.specs.declared.BandKind.TheVariants.{Fixed, Feedback};
ghost use Rattle.machine_spec.specs.Machine.{machine};
ghost use Rattle.machine_spec.specs.Rate.{law_over};
ghost use Rattle.boxes_rates.specs.Limits.{BaselineTerm, CommandTerm, CommandsAsked, FeedbackAsked, FeedbackEnd, RowAsked, SafetyAsked, outer_end, row_limit};
ghost use Rattle.boxes_rates.specs.Plant.{Chosen};
ghost use Rattle.boxes_rates.specs.Known.{KnownAsked, Noted, end_count, end_place};

use crate::Plant;
use crate::row::{outer_end, product, span_term, weighted};
use boxes_arithmetic::{clamped_command, outer};
use machine_spec::Law;
use sheet_spec::limits::MAX_BANDS;
use sheet_spec::slots::{
    BOX_SIZE, LAW, LAW_CONSTANT, LAW_DIVISOR, ROW_B, SAFETY_GREATEST, SAFETY_LEAST, SLOTS,
};

// The sum of the law at a slot, Σ aj·xj + c, bounded over the box.
fn law_over(up: bool, n: usize, sheet: &[i32; SLOTS], law: usize, over: &[i64; BOX_SIZE]) -> i64
    requires { RowAsked n law over.now }
    ensures { (result ≡ law_over up n (slots.feedback_at sheet.now law) over.now) × Bound result row_limit }
{
    let slot = law + LAW_CONSTANT;
    let constant = sheet[slot] as i64;
    weighted(up, n, sheet, law, over) + constant
}

// The least or the greatest command over the box of the plain law that follows the state, in the band at the slot `band`.
fn feedback_end(
    up: bool,
    n: usize,
    sheet: &[i32; SLOTS],
    band: usize,
    over: &[i64; BOX_SIZE],
) -> i64
    requires { FeedbackAsked n sheet.now over.now band }
    ensures { FeedbackEnd up sheet.now band over.now result }
{
    let law = band + LAW;
    let divisor = law + LAW_DIVISOR;
    let lowest = band + SAFETY_LEAST;
    let highest = band + SAFETY_GREATEST;
    let sum = law_over(up, n, sheet, law, over);
    clamped_command(
        up,
        sheet[lowest] as i64,
        sheet[highest] as i64,
        sum,
        sheet[divisor] as i64,
    )
}

// How many ends of the plain law's commands there are in all bands.
pub const ENDS: usize = 2 * MAX_BANDS;

// In place of an end that is not known yet. It is above every command.
pub const UNKNOWN: i64 = 1000000;

// The place of the least or of the greatest command of band k among the ends that are known.
fn end_place(greatest: bool, k: usize) -> usize
    requires { k < max_bands }
    ensures { result ≡ end_place greatest k }
{
    if greatest { k + MAX_BANDS } else { k }
}

// The end at a place becomes known, if the ends are shared.
fn note(shared: bool, place: usize, command: i64, ends: &mut [i64; ENDS])
    requires { place < end_count }
    ensures { ends.new ≡ cond shared (set ends.old place command) ends.old }
{
    if shared {
        ends[place] = command;
    }
}

// The least or the greatest command over the box of the plain law that follows the state, in the band k at the slot `band`. If the box is the
// working box's part, its ends are shared by all faces with such a box, and worked out once.
fn end_over(
    greatest: bool,
    n: usize,
    sheet: &[i32; SLOTS],
    band: usize,
    k: usize,
    over: &[i64; BOX_SIZE],
    shared: bool,
    ends: &mut [i64; ENDS],
) -> i64
    requires { FeedbackAsked n sheet.now over.now band × KnownAsked shared sheet.now band k over.now ends.old }
    ensures feedback_end { FeedbackEnd greatest sheet.now band over.now result }
    ensures noted { Noted shared sheet.now k over.now ends.old ends.new }
{
    let place = end_place(greatest, k);
    let known = ends[place];
    if shared && known < UNKNOWN {
        return known;
    }
    let command = feedback_end(greatest, n, sheet, band, over);
    note(shared, place, command, ends);
    command
}

// The outer one of a coefficient's products with the commands of the law that follows the state, in the band k at a slot, over the box.
fn feedback_term(
    up: bool,
    n: usize,
    sheet: &[i32; SLOTS],
    coefficient: i32,
    band: usize,
    k: usize,
    over: &[i64; BOX_SIZE],
    shared: bool,
    ends: &mut [i64; ENDS],
) -> i64
    requires { FeedbackAsked n sheet.now over.now band × KnownAsked shared sheet.now band k over.now ends.old }
    ensures baseline_term { BaselineTerm Feedback up sheet.now coefficient band over.now result }
    ensures noted { Noted shared sheet.now k over.now ends.old ends.new }
{
    if coefficient == 0 {
        return 0;
    }
    let end = outer_end(up, coefficient, false, true);
    let command = end_over(end, n, sheet, band, k, over, shared, ends);
    product(coefficient, command)
}

// The outer one of a coefficient's products with the commands of the safety range, in the band at a slot.
fn safety_term(up: bool, sheet: &[i32; SLOTS], coefficient: i32, band: usize) -> i64
    requires { SafetyAsked sheet.now band }
    ensures { (B : List ℤ) → BaselineTerm Fixed up sheet.now coefficient band B result }
{
    let least = band + SAFETY_LEAST;
    let greatest = band + SAFETY_GREATEST;
    outer(
        up,
        product(coefficient, sheet[least] as i64),
        product(coefficient, sheet[greatest] as i64),
    )
}

// The outer one of b·u over the commands u that the law offers in the band k at a slot, over the box, where b is that of the row at a slot.
pub fn command_term(
    up: bool,
    follows: bool,
    n: usize,
    plant: Plant,
    sheet: &[i32; SLOTS],
    row: usize,
    band: usize,
    k: usize,
    over: &[i64; BOX_SIZE],
    shared: bool,
    ends: &mut [i64; ENDS],
) -> i64
    requires commands_asked { CommandsAsked plant sheet.now over.now row band × Chosen follows n plant sheet.now }
    requires known_asked { KnownAsked shared sheet.now band k over.now ends.old }
    ensures command_term { CommandTerm up (machine sheet.now plant.law) (slots.row_at sheet.now row) band over.now result }
    ensures noted { Noted shared sheet.now k over.now ends.old ends.new }
{
    let slot = row + ROW_B;
    let coefficient = sheet[slot];
    if follows {
        return feedback_term(up, n, sheet, coefficient, band, k, over, shared, ends);
    }
    let law = plant.law;
    match law {
        Law::Baseline => safety_term(up, sheet, coefficient, band),
        Law::Span { least, greatest } => span_term(up, coefficient, least, greatest),
    }
}
