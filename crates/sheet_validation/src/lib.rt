// The tests of a sheet's numbers (document 01, "Sheet layout"), in the file's order, over the value: reader and writer share
// them. Each gives `Ok(())`, or the refusal of the first number out of range. The definitions are in sheet_spec/specs/Layout: each
// field has its range and its cause; and in sheet_spec/specs/File: the test of a record as a whole.
#![tactic(auto)]

ghost use Rattle.std.specs.Prelude.{◌≡◌, true, ◌+◌, ◌≤◌, ◌<◌};
ghost use Rattle.integers.specs.Bound.{Bound};
ghost use Rattle.sheet_spec.specs.Limits.{max_bands};
ghost use Rattle.sheet_spec.specs.Slots.{◌!◌, N, head_size, box_size, law_size, row_size, slots};
ghost use Rattle.sheet_spec.specs.Refusals.{number, refusal_number, refusal_of};
ghost use Rattle.sheet_spec.specs.File.{Small, HasRoom, records, closing, bad_numbers, bad_all};
ghost use Rattle.sheet_spec.specs.Fields.{Field, test, bad};
ghost use Rattle.sheet_spec.specs.declared.BandKind.TheVariants.{Feedback};
ghost use Rattle.sheet_spec.specs.Layout.{head_fields, coefficient_field, edge_field, law_fields, law_count, row_fields, row_count, band_fields, band_count, box_fields, box_count, fields, field_count};

pub mod order;
pub mod overlap;

use crate::order::bad_order;
use crate::overlap::bad_overlap;
use sheet_encoding::records::{record_at, record_count};
use sheet_spec::limits::*;
use sheet_spec::refusals::Refusal;
use sheet_spec::slots::*;
use sheet_spec::{BandKind, Record, Shape, Vars};

const MOST_VARS: i64 = MAX_VARS as i64;

const MOST_TICKS: i64 = MAX_TICKS as i64;

const MIN_COMMAND: i64 = -MAX_COMMAND;

const MIN_EDGE: i64 = -MAX_EDGE;

const MIN_COEFFICIENT: i64 = -MAX_COEFFICIENT;

const MIN_CONSTANT: i64 = -MAX_CONSTANT;

// The number at a slot, where one more and one less fit too.
fn value(v: &[i32; SLOTS], slot: usize) -> i64
    requires { slot < slots }
    ensures { (result ≡ v.now ! slot) × Bound result 2147483648 }
{
    let x = v[slot];
    x as i64
}

// The number at a slot lies in a range, or else there is this refusal.
fn in_range(
    v: &[i32; SLOTS],
    slot: usize,
    least: i64,
    greatest: i64,
    refusal: Refusal,
) -> Result<(), Refusal>
    requires { slot < slots }
    ensures { (p : Field) → p.slot ≡ slot → p.least v.now ≡ least → p.greatest v.now ≡ greatest → number p.cause ≡ refusal_number refusal → refusal_of result ≡ test v.now p }
{
    let z = value(v, slot);
    if least <= z && z <= greatest {
        return Ok(());
    }
    Err(refusal)
}

// The head's numbers but for the caps.
pub fn bad_head(v: &[i32; SLOTS]) -> Result<(), Refusal>
    ensures { refusal_of result ≡ bad head_fields v.now head_size }
{
    in_range(v, VARS, 1, MOST_VARS, Refusal::Counts)?;
    in_range(v, BANDS, 1, MAX_BANDS as i64, Refusal::Counts)?;
    in_range(v, BOXES, 1, MAX_BOXES as i64, Refusal::Counts)?;
    in_range(v, BAND_VAR, 0, value(v, VARS) - 1, Refusal::Counts)?;
    in_range(v, DELTA, 1, MOST_TICKS, Refusal::Times)?;
    in_range(v, ALPHA, 1, MOST_TICKS - value(v, DELTA), Refusal::Times)?;
    in_range(v, RHO, 1, MOST_TICKS, Refusal::Times)?;
    in_range(v, LEAST, MIN_COMMAND, MAX_COMMAND, Refusal::Commands)?;
    in_range(v, GREATEST, value(v, LEAST), MAX_COMMAND, Refusal::Commands)
}

pub fn bad_caps(v: &[i32; SLOTS], n: Vars) -> Result<(), Refusal>
    ensures { refusal_of result ≡ bad head_fields v.now (head_size + n) }
{
    bad_head(v)?;
    for i in 0..n.count() {
        in_range(v, FIRST_CAP + i, 1, MAX_CAP, Refusal::Cap)?;
    }
    Ok(())
}

// The coefficients of a law or of a row.
fn bad_coefficients(v: &[i32; SLOTS], n: Vars, slot: usize) -> Result<(), Refusal>
    requires { slot + N ≤ slots }
    ensures { refusal_of result ≡ bad (coefficient_field slot) v.now n }
{
    for j in 0..n.count() {
        in_range(v, slot + j, MIN_COEFFICIENT, MAX_COEFFICIENT, Refusal::Row)?;
    }
    Ok(())
}

// A law that follows the state.
fn bad_feedback(v: &[i32; SLOTS], n: Vars, slot: usize) -> Result<(), Refusal>
    requires { slot + law_size ≤ slots }
    ensures { refusal_of result ≡ bad (law_fields n slot) v.now (law_count Feedback n) }
{
    bad_coefficients(v, n, slot)?;
    in_range(
        v,
        slot + LAW_CONSTANT,
        MIN_CONSTANT,
        MAX_CONSTANT,
        Refusal::Row,
    )?;
    in_range(v, slot + LAW_DIVISOR, 1, MAX_DIVISOR, Refusal::Row)
}

// The law of a band of a kind.
fn bad_law(v: &[i32; SLOTS], n: Vars, kind: BandKind, slot: usize) -> Result<(), Refusal>
    requires { slot + law_size ≤ slots }
    ensures { refusal_of result ≡ bad (law_fields n slot) v.now (law_count kind n) }
{
    match kind {
        BandKind::Fixed => Ok(()),
        BandKind::Feedback => bad_feedback(v, n, slot),
    }
}

fn bad_row(v: &[i32; SLOTS], n: Vars, slot: usize) -> Result<(), Refusal>
    requires { slot + row_size ≤ slots }
    ensures { refusal_of result ≡ bad (row_fields n slot) v.now (row_count n) }
{
    bad_coefficients(v, n, slot)?;
    in_range(
        v,
        slot + ROW_B,
        MIN_COEFFICIENT,
        MAX_COEFFICIENT,
        Refusal::Row,
    )?;
    in_range(v, slot + ROW_C, MIN_CONSTANT, MAX_CONSTANT, Refusal::Row)?;
    in_range(v, slot + ROW_D, 0, MAX_SPREAD, Refusal::Row)?;
    in_range(v, slot + ROW_Q, 1, MAX_DIVISOR, Refusal::Row)
}

fn bad_edge(v: &[i32; SLOTS], k: usize) -> Result<(), Refusal>
    requires { k < max_bands }
    ensures { refusal_of result ≡ test v.now (edge_field k) }
{
    let slot = FIRST_BAND + k * BAND_SIZE;
    if k == 0 {
        return in_range(v, slot, MIN_EDGE, MIN_EDGE, Refusal::Edge);
    }
    let before = value(v, slot - BAND_SIZE);
    in_range(v, slot, before + 1, MAX_EDGE, Refusal::Edge)
}

pub fn bad_band(v: &[i32; SLOTS], n: Vars, kind: BandKind, k: usize) -> Result<(), Refusal>
    requires { k < max_bands }
    ensures { refusal_of result ≡ bad (band_fields n kind k) v.now (band_count n kind) }
{
    let slot = FIRST_BAND + k * BAND_SIZE;
    let least = value(v, LEAST);
    let greatest = value(v, GREATEST);
    let lower = value(v, slot + SAFETY_LEAST);
    bad_edge(v, k)?;
    in_range(v, slot + SAFETY_LEAST, least, greatest, Refusal::Safety)?;
    in_range(v, slot + SAFETY_GREATEST, lower, greatest, Refusal::Safety)?;
    bad_law(v, n, kind, slot + LAW)?;
    for i in 0..n.count() {
        bad_row(v, n, slot + FIRST_ROW + i * ROW_SIZE)?;
    }
    Ok(())
}

pub fn bad_box(v: &[i32; SLOTS], n: Vars, slot: usize, most: u32) -> Result<(), Refusal>
    requires { slot + box_size ≤ slots }
    ensures { refusal_of result ≡ bad (box_fields most slot) v.now (box_count n) }
{
    let side = most as i64;
    for i in 0..n.count() {
        in_range(v, slot + i, -side, side, Refusal::Side)?;
        in_range(v, slot + i + N, value(v, slot + i), side, Refusal::Side)?;
    }
    Ok(())
}

// The fields of a record.
fn bad_fields(v: &[i32; SLOTS], n: Vars, record: Record) -> Result<(), Refusal>
    requires { HasRoom «record» }
    ensures { refusal_of result ≡ bad (fields n «record») v.now (field_count n «record») }
{
    match record {
        Record::Head => bad_caps(v, n),
        Record::Band(kind, k) => bad_band(v, n, kind, k),
        Record::Unsafe(j) => bad_box(v, n, FIRST_UNSAFE + j * BOX_SIZE, MAX_UNSAFE_SIDE),
        Record::Recovery => bad_box(v, n, RECOVERY, MAX_RECOVERY_SIDE),
    }
}

// A record as a whole, after its fields.
fn closing(v: &[i32; SLOTS], shape: Shape, record: Record) -> Result<(), Refusal>
    requires { Small shape × HasRoom «record» }
    ensures { refusal_of result ≡ closing v.now shape «record» }
{
    let n = Vars { count: shape.vars };
    match record {
        Record::Head => Ok(()),
        Record::Band(_, _) => Ok(()),
        Record::Unsafe(j) => bad_order(v, n, j),
        Record::Recovery => bad_overlap(v, n, shape.boxes),
    }
}

// The numbers of a record.
#[tactic(auto, unfolding(sheet_spec::specs::Refusals::unless_refused))]
pub fn bad_record(v: &[i32; SLOTS], shape: Shape, record: Record) -> Result<(), Refusal>
    requires { Small shape × HasRoom «record» }
    ensures { refusal_of result ≡ bad_numbers v.now shape «record» }
{
    let n = Vars { count: shape.vars };
    bad_fields(v, n, record)?;
    closing(v, shape, record)
}

// The numbers of every record.
pub fn bad_values(v: &[i32; SLOTS], shape: Shape) -> Result<(), Refusal>
    requires { Small shape }
    ensures { refusal_of result ≡ bad_all (λ r. true) shape v.now (records shape) }
{
    for r in 0..record_count(shape) {
        bad_record(v, shape, record_at(shape, r))?;
    }
    Ok(())
}
