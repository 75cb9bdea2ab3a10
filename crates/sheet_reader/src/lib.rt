// The records of a file, read to the slots of a sheet's value (document 01, "Sheet layout"): head, bands, boxes, each by its
// fields in the file's order. `sheet::read_zeroed` puts them together; what is read is equal to `filled_all` in
// sheet_spec/specs/File. A field is read from the whole file and a place in it, not from a part of the file, since `filled` there
// has the file and the place, too.
#![tactic(auto)]

ghost use Rattle.std.specs.Prelude.{◌≡◌, ℕ, ◌+◌, ◌≤◌, ◌<◌, length};
ghost use Rattle.sheet_spec.specs.Limits.{max_bands};
ghost use Rattle.sheet_spec.specs.Slots.{N, head_size, law_size, row_size, box_size, slots, vars};
ghost use Rattle.sheet_spec.specs.Refusals.{refusal_of};
ghost use Rattle.sheet_spec.specs.File.{Small, HasRoom, records, record_length, record_start, filled_all, marked_at, bad_all};
ghost use Rattle.sheet_spec.specs.Fields.{filled};
ghost use Rattle.sheet_spec.specs.Sizes.{letters, caps_at, cap_bytes, coefficient_bytes, law_bytes, row_bytes, band_bytes, box_bytes};
ghost use Rattle.sheet_spec.specs.Sheet.{head_of, kind_of};
ghost use Rattle.sheet_spec.specs.declared.BandKind.TheVariants.{Feedback};
ghost use Rattle.sheet_spec.specs.Layout.{head_fields, coefficient_field, law_fields, law_count, row_fields, row_count, band_fields, band_count, box_fields, box_count, fields, field_count};

use sheet_encoding::bytes::{get_i16, get_i32, get_u8, get_u16};
use sheet_encoding::marks::marked;
use sheet_encoding::places::record_places;
use sheet_encoding::records::law_bytes;
use sheet_spec::refusals::Refusal;
use sheet_spec::sizes::*;
use sheet_spec::slots::*;
use sheet_spec::{BandKind, Record, Shape, Vars};
use sheet_validation::bad_record;

// The head's numbers but for the caps. The head starts at a place.
pub fn read_head(f: &[u8], at: usize, v: &mut [i32; SLOTS])
    requires { at + caps_at ≤ length f.now }
    ensures { v.new ≡ filled head_fields f.now (at + letters) head_size v.old }
{
    v[VARS] = get_u8(f, at + VARS_AT);
    v[BANDS] = get_u8(f, at + BANDS_AT);
    v[BOXES] = get_u8(f, at + BOXES_AT);
    v[BAND_VAR] = get_u8(f, at + BAND_VAR_AT);
    v[DELTA] = get_u16(f, at + DELTA_AT);
    v[ALPHA] = get_u16(f, at + ALPHA_AT);
    v[RHO] = get_u16(f, at + RHO_AT);
    v[LEAST] = get_i32(f, at + LEAST_AT);
    v[GREATEST] = get_i32(f, at + GREATEST_AT);
}

fn read_caps(f: &[u8], at: usize, n: Vars, v: &mut [i32; SLOTS])
    requires { at + (caps_at + cap_bytes n) ≤ length f.now }
    ensures { v.new ≡ filled head_fields f.now (at + letters) (head_size + n) v.old }
{
    read_head(f, at, v);
    let caps = at + CAPS_AT;
    for i in 0..n.count() {
        v[FIRST_CAP + i] = get_u16(f, caps + U16 * i);
    }
}

// The coefficients of a law or of a row.
fn read_coefficients(f: &[u8], at: usize, n: Vars, slot: usize, v: &mut [i32; SLOTS])
    requires { (slot + N ≤ slots) × (at + coefficient_bytes n ≤ length f.now) }
    ensures { v.new ≡ filled (coefficient_field slot) f.now at n v.old }
{
    for j in 0..n.count() {
        v[slot + j] = get_i16(f, at + I16 * j);
    }
}

// A law that follows the state.
fn read_feedback(f: &[u8], at: usize, n: Vars, slot: usize, v: &mut [i32; SLOTS])
    requires { (slot + law_size ≤ slots) × (at + law_bytes Feedback n ≤ length f.now) }
    ensures { v.new ≡ filled (law_fields n slot) f.now at (law_count Feedback n) v.old }
{
    read_coefficients(f, at, n, slot, v);
    let rest = at + I16 * n.count();
    v[slot + LAW_CONSTANT] = get_i32(f, rest);
    v[slot + LAW_DIVISOR] = get_u16(f, rest + DIVISOR_AT);
}

// The law of a band of a kind.
fn read_law(f: &[u8], at: usize, n: Vars, kind: BandKind, slot: usize, v: &mut [i32; SLOTS])
    requires { (slot + law_size ≤ slots) × (at + law_bytes kind n ≤ length f.now) }
    ensures { v.new ≡ filled (law_fields n slot) f.now at (law_count kind n) v.old }
{
    match kind {
        BandKind::Fixed => {}
        BandKind::Feedback => read_feedback(f, at, n, slot, v),
    }
}

fn read_row(f: &[u8], at: usize, n: Vars, slot: usize, v: &mut [i32; SLOTS])
    requires { (slot + row_size ≤ slots) × (at + row_bytes n ≤ length f.now) }
    ensures { v.new ≡ filled (row_fields n slot) f.now at (row_count n) v.old }
{
    read_coefficients(f, at, n, slot, v);
    let rest = at + I16 * n.count();
    v[slot + ROW_B] = get_i16(f, rest);
    v[slot + ROW_C] = get_i32(f, rest + C_AT);
    v[slot + ROW_D] = get_i32(f, rest + D_AT);
    v[slot + ROW_Q] = get_u16(f, rest + Q_AT);
}

fn read_band(f: &[u8], at: usize, n: Vars, kind: BandKind, k: usize, v: &mut [i32; SLOTS])
    requires { (k < max_bands) × (at + band_bytes kind n ≤ length f.now) }
    ensures { v.new ≡ filled (band_fields n kind k) f.now at (band_count n kind) v.old }
{
    let slot = FIRST_BAND + k * BAND_SIZE;
    v[slot] = get_i32(f, at);
    v[slot + SAFETY_LEAST] = get_i32(f, at + SAFETY_LEAST_AT);
    v[slot + SAFETY_GREATEST] = get_i32(f, at + SAFETY_GREATEST_AT);
    read_law(f, at + LAW_AT, n, kind, slot + LAW, v);
    let rows = at + LAW_AT + law_bytes(kind, n);
    for i in 0..n.count() {
        read_row(
            f,
            rows + i * (I16 * n.count() + REST_BYTES),
            n,
            slot + FIRST_ROW + i * ROW_SIZE,
            v,
        );
    }
}

fn read_box(f: &[u8], at: usize, n: Vars, slot: usize, v: &mut [i32; SLOTS])
    requires { (slot + box_size ≤ slots) × (at + box_bytes n ≤ length f.now) }
    ensures { (h : ℕ) → v.new ≡ filled (box_fields h slot) f.now at (box_count n) v.old }
{
    for i in 0..n.count() {
        v[slot + i] = get_i32(f, at + PAIR_BYTES * i);
        v[slot + i + N] = get_i32(f, at + PAIR_BYTES * i + UPPER_AT);
    }
}

// The numbers of a record, which starts at a place.
fn read_record(f: &[u8], at: usize, shape: Shape, record: Record, v: &mut [i32; SLOTS])
    requires small { Small shape × HasRoom «record» }
    requires record_in_bounds { at + record_length shape.vars «record» ≤ length f.now }
    ensures { v.new ≡ filled (fields shape.vars «record») f.now (at + letters) (field_count shape.vars «record») v.old }
{
    let n = Vars { count: shape.vars };
    let body = at + LETTERS;
    match record {
        Record::Head => read_caps(f, at, n, v),
        Record::Band(kind, k) => read_band(f, body, n, kind, k, v),
        Record::Unsafe(j) => read_box(f, body, n, FIRST_UNSAFE + j * BOX_SIZE, v),
        Record::Recovery => read_box(f, body, n, RECOVERY, v),
    }
}

// The kind of a file's bands, whether its head is in range or not: the mark of the first band tells, if the file reaches it.
pub fn kind_of(f: &[u8]) -> BandKind
    requires { caps_at ≤ length f.now }
    ensures { result ≡ kind_of f.now (vars (head_of f.now)) }
{
    let at = CAPS_AT + U16 * usize::from(f[VARS_AT]);
    if at + LETTERS <= f.len() && marked(f, at, Record::Band(BandKind::Feedback, 0)) {
        BandKind::Feedback
    } else {
        BandKind::Fixed
    }
}

pub fn read_records(f: &[u8], shape: Shape, v: &mut [i32; SLOTS])
    requires { Small shape × (record_start shape (records shape) ≤ length f.now) }
    ensures { v.new ≡ filled_all shape f.now (records shape) v.old }
{
    for (record, at) in record_places(shape) {
        read_record(f, at, shape, record, v);
    }
}

// The marks and the numbers of every record, once they were read.
pub fn bad_file(f: &[u8], shape: Shape, v: &[i32; SLOTS]) -> Result<(), Refusal>
    requires { Small shape × (record_start shape (records shape) ≤ length f.now) }
    ensures { refusal_of result ≡ bad_all (marked_at shape f.now) shape v.now (records shape) }
{
    for (record, at) in record_places(shape) {
        if !marked(f, at, record) {
            return Err(Refusal::Mark);
        }
        bad_record(v, shape, record)?;
    }
    Ok(())
}
