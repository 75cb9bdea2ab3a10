// The rates of a box's faces. A face is `false` for a lower and `true` for an upper one.
ghost use Rattle.std.specs.Prelude.{◌≡◌, ℕ, ◌+◌, ◌≤◌, ◌<◌, true, false, ◌&&◌};
ghost use Rattle.std.specs.Int.Signed.{le_z};
ghost use Rattle.integers.specs.Bound.{Bound};
ghost use Rattle.sheet_spec.specs.Limits.{max_cap};
ghost use Rattle.sheet_spec.specs.Slots as slots;
ghost use Rattle.sheet_spec.specs.Valid.{ValidNumbers};
ghost use Rattle.machine_spec.specs.Machine.{machine};
ghost use Rattle.machine_spec.specs.Rate.{face_rate, neighborhood, neutral, rate, rates};
ghost use Rattle.boxes_rates.specs.Limits.{BandAsked, NarrowAsked, RateAsked, RatesAsked, RowRated};
ghost use Rattle.boxes_rates.specs.Plant.{Chosen, FirstBand, cut_at, follows_state, next_starts_by};
ghost use Rattle.boxes_rates.specs.Known.{Known, KnownAsked, Noted, NotedAll};

use crate::Plant;
use crate::commands::{ENDS, UNKNOWN, command_term};
use crate::row::{bound, further};
use boxes_arithmetic::{Outermost, neutral};
use machine_spec::Law;
use sheet_spec::BandKind;
use sheet_spec::slots::{
    BAND_SIZE, BOX_SIZE, FIRST_BAND, FIRST_CAP, FIRST_ROW, N, ROW_SIZE, SLOTS,
};

// A band follows the one at the slot `at`, which is not the last band's slot `top`, and starts at or below x.
#[tactic(auto, unfolding(crate::specs::Plant::next_starts_by))]
fn next_starts_by(sheet: &[i32; SLOTS], top: usize, at: usize, x: i64) -> bool
    requires { top + slots.band_size ≤ slots.slots }
    ensures { result ≡ next_starts_by sheet.now top at x }
{
    if top <= at {
        return false;
    }
    let next = at + BAND_SIZE;
    (sheet[next] as i64) <= x
}

// The slot of the first band that has a number from `low` on.
fn first_band(sheet: &[i32; SLOTS], top: usize, low: i64) -> usize
    requires { ValidNumbers sheet.now × (top + slots.band_size ≡ slots.band_slot (slots.bands sheet.now)) }
    ensures { FirstBand sheet.now low result }
{
    let mut at: usize = FIRST_BAND;
    while next_starts_by(sheet, top, at, low) {
        at += BAND_SIZE;
    }
    at
}

// The number of the band at a slot.
fn band_number(band: usize) -> usize
    requires { slots.band_slot 0 ≤ band }
    ensures { (k : ℕ) → band ≡ slots.band_slot k → result ≡ k }
{
    (band - FIRST_BAND) / BAND_SIZE
}

// The outer one of the outermost so far and of the allowed change of variable i over the box, by the row of the band k at the slot `band`.
fn row_rate(
    up: bool,
    follows: bool,
    n: usize,
    plant: Plant,
    sheet: &[i32; SLOTS],
    over: &[i64; BOX_SIZE],
    i: usize,
    band: usize,
    k: usize,
    outermost: i64,
    shared: bool,
    ends: &mut [i64; ENDS],
) -> Outermost
    requires band_asked { BandAsked plant sheet.now over.now i band outermost × Chosen follows n plant sheet.now }
    requires known_asked { KnownAsked shared sheet.now band k over.now ends.old }
    ensures row_rated { RowRated up (machine sheet.now plant.law) over.now i band outermost result }
    ensures noted { Noted shared sheet.now k over.now ends.old ends.new }
{
    let row = band + FIRST_ROW + i * ROW_SIZE;
    let term = command_term(
        up, follows, n, plant, sheet, row, band, k, over, shared, ends,
    );
    let number = bound(up, n, sheet, row, over, term);
    let slot = FIRST_CAP + i;
    further(up, sheet[slot] as i64, sheet, row, number, outermost)
}

// The least or the greatest allowed change of variable i over the box, band by band from the first that it meets to the last, or to
// one at which it is the cap. The part of the box that lies in a band is made in `over`, which is then as it was.
// `shared` says that the box is the working box, whose ends of the plain law's commands are shared by the faces.
fn rate(
    up: bool,
    follows: bool,
    n: usize,
    plant: Plant,
    sheet: &[i32; SLOTS],
    over: &mut [i64; BOX_SIZE],
    i: usize,
    shared: bool,
    ends: &mut [i64; ENDS],
) -> i64
    requires rate_asked { RateAsked plant sheet.now over.old i × Chosen follows n plant sheet.now }
    requires known { shared ≡ true → Known (machine sheet.now plant.law) over.old ends.old }
    ensures value { result ≡ rate up (machine sheet.now plant.law) over.old i }
    ensures over_unchanged { over.new ≡ over.old }
    ensures noted_all { NotedAll shared (machine sheet.now plant.law) over.old ends.old ends.new }
{
    let lower = plant.var;
    let upper = lower + N;
    let low = over[lower];
    let high = over[upper];
    let slot = FIRST_CAP + i;
    let top = FIRST_BAND + (plant.bands - 1) * BAND_SIZE;
    let mut outermost = neutral(up, sheet[slot] as i64);
    let mut band = first_band(sheet, top, low);
    let mut k = band_number(band);
    // while the next band is met too
    while next_starts_by(sheet, top, band, high) {
        let next = band + BAND_SIZE;
        let last = (sheet[next] as i64) - 1;
        over[upper] = last;
        let rated = row_rate(
            up, follows, n, plant, sheet, over, i, band, k, outermost, shared, ends,
        );
        outermost = rated.change;
        // no change goes beyond the cap
        if rated.capped {
            over[upper] = high;
            over[lower] = low;
            return outermost;
        }
        over[lower] = last + 1;
        band = next;
        k += 1;
    }
    // the last part ends with the box
    over[upper] = high;
    let rated = row_rate(
        up, follows, n, plant, sheet, over, i, band, k, outermost, shared, ends,
    );
    over[lower] = low;
    rated.change
}

// The place of the side that a face's neighborhood cuts: the other face's.
#[tactic(auto, unfolding(crate::specs::Plant::cut_at))]
fn cut_at(up: bool, i: usize) -> usize
    requires { i < slots.N }
    ensures { result ≡ cut_at up i }
{
    if up { i } else { i + N }
}

// `work` becomes the part of it within `reach` of the start's face.
fn narrow(up: bool, start: &[i64; BOX_SIZE], reach: i64, work: &mut [i64; BOX_SIZE], i: usize)
    requires { NarrowAsked start.now reach i }
    ensures { work.new ≡ neighborhood up start.now reach work.old i }
{
    let upper = i + N;
    if up {
        work[i] = work[i].max(start[upper] - reach);
    } else {
        work[upper] = work[upper].min(start[i] + reach);
    }
}

// The side is where it was, and the ends of the commands are to be shared.
fn is_shared(follows: bool, side: i64, old: i64) -> bool
    ensures { result ≡ (follows && (le_z side old && le_z old side)) }
{
    follows && side == old
}

// The rate of a face of variable i in a step of `ticks` ticks from `start`, with the working box. The neighborhood is made in
// `work`, which is then as it was. `ends` has what is known of the plain law's commands over the working box.
fn face_rate(
    up: bool,
    follows: bool,
    n: usize,
    plant: Plant,
    sheet: &[i32; SLOTS],
    start: &[i64; BOX_SIZE],
    ticks: usize,
    work: &mut [i64; BOX_SIZE],
    i: usize,
    ends: &mut [i64; ENDS],
) -> i64
    requires rates_asked { RatesAsked plant sheet.now start.now ticks work.old × (i < slots.vars sheet.now) }
    requires chosen { Chosen follows n plant sheet.now × (follows ≡ true → Known (machine sheet.now plant.law) work.old ends.old) }
    ensures value { result ≡ face_rate up (machine sheet.now plant.law) start.now ticks work.old i }
    ensures work_unchanged { work.new ≡ work.old }
    ensures known { follows ≡ true → Known (machine sheet.now plant.law) work.old ends.new }
{
    let slot = FIRST_CAP + i;
    let caps = ticks + 1;
    let reach = (caps as i64) * (sheet[slot] as i64);
    let side = cut_at(up, i);
    let old = work[side];
    narrow(up, start, reach, work, i);
    let shared = is_shared(follows, work[side], old);
    let answer = rate(up, follows, n, plant, sheet, work, i, shared, ends);
    work[side] = old;
    answer
}

// `face_rates` becomes the rates of all faces, as a box. `work` is as it was. Each case of `follows`, and N in place of n, is compiled by itself.
fn rates_of(
    follows: bool,
    n: usize,
    plant: Plant,
    sheet: &[i32; SLOTS],
    start: &[i64; BOX_SIZE],
    ticks: usize,
    work: &mut [i64; BOX_SIZE],
    face_rates: &mut [i64; BOX_SIZE],
    ends: &mut [i64; ENDS],
)
    requires rates_asked { RatesAsked plant sheet.now start.now ticks work.old × Chosen follows n plant sheet.now }
    requires known { follows ≡ true → Known (machine sheet.now plant.law) work.old ends.old }
    ensures face_rates_after { face_rates.new ≡ rates (machine sheet.now plant.law) start.now ticks work.old }
    ensures work_unchanged { work.new ≡ work.old }
{
    *face_rates = [0; BOX_SIZE];
    for i in 0..plant.n {
        let upper = i + N;
        face_rates[i] = face_rate(false, follows, n, plant, sheet, start, ticks, work, i, ends);
        face_rates[upper] = face_rate(true, follows, n, plant, sheet, start, ticks, work, i, ends);
    }
}

// The same where the commands do not follow the state. This function and the next stand apart, and each calls with constants: called in one place
// with a variable, the cases are not compiled by themselves, and a round takes twice as many instructions.
fn fixed_rates(
    plant: Plant,
    sheet: &[i32; SLOTS],
    start: &[i64; BOX_SIZE],
    ticks: usize,
    work: &mut [i64; BOX_SIZE],
    face_rates: &mut [i64; BOX_SIZE],
)
    requires { RatesAsked plant sheet.now start.now ticks work.old × (follows_state plant.law plant.kind ≡ false) }
    ensures face_rates_after { face_rates.new ≡ rates (machine sheet.now plant.law) start.now ticks work.old }
    ensures work_unchanged { work.new ≡ work.old }
{
    // nothing is looked up in it
    let mut ends: [i64; ENDS] = [0; ENDS];
    if plant.n < N {
        rates_of(
            false, plant.n, plant, sheet, start, ticks, work, face_rates, &mut ends,
        );
    } else {
        rates_of(
            false, N, plant, sheet, start, ticks, work, face_rates, &mut ends,
        );
    }
}

// And where they do.
fn following_rates(
    plant: Plant,
    sheet: &[i32; SLOTS],
    start: &[i64; BOX_SIZE],
    ticks: usize,
    work: &mut [i64; BOX_SIZE],
    face_rates: &mut [i64; BOX_SIZE],
)
    requires { RatesAsked plant sheet.now start.now ticks work.old × (follows_state plant.law plant.kind ≡ true) }
    ensures face_rates_after { face_rates.new ≡ rates (machine sheet.now plant.law) start.now ticks work.old }
    ensures work_unchanged { work.new ≡ work.old }
{
    let mut ends: [i64; ENDS] = [UNKNOWN; ENDS];
    if plant.n < N {
        rates_of(
            true, plant.n, plant, sheet, start, ticks, work, face_rates, &mut ends,
        );
    } else {
        rates_of(
            true, N, plant, sheet, start, ticks, work, face_rates, &mut ends,
        );
    }
}

// The plain law acts, and it follows the state.
#[tactic(auto, unfolding(crate::specs::Plant::follows_state))]
fn follows_state(plant: Plant) -> bool
    ensures { result ≡ follows_state plant.law plant.kind }
{
    let law = plant.law;
    match law {
        Law::Baseline => {
            let kind = plant.kind;
            match kind {
                BandKind::Fixed => false,
                BandKind::Feedback => true,
            }
        }
        Law::Span { least, greatest } => false,
    }
}

// `face_rates` becomes the rates of all faces, as a box. `work` is as it was.
pub fn rates(
    plant: Plant,
    sheet: &[i32; SLOTS],
    start: &[i64; BOX_SIZE],
    ticks: usize,
    work: &mut [i64; BOX_SIZE],
    face_rates: &mut [i64; BOX_SIZE],
)
    requires { RatesAsked plant sheet.now start.now ticks work.old }
    ensures face_rates_after { face_rates.new ≡ rates (machine sheet.now plant.law) start.now ticks work.old }
    ensures work_unchanged { work.new ≡ work.old }
{
    if follows_state(plant) {
        following_rates(plant, sheet, start, ticks, work, face_rates);
    } else {
        fixed_rates(plant, sheet, start, ticks, work, face_rates);
    }
}
