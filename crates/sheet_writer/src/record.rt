// The records of a sheet's value, each written to a part of a buffer (document 01, "Sheet layout"): head, bands, boxes. A record's
// writer gets the part that starts at the record, and leaves every byte after the record as it was. The definitions are in
// sheet_spec/specs/Fields and sheet_spec/specs/File.
ghost use Rattle.std.specs.Prelude.{◌≡◌, ℕ, ◌+◌, ◌≤◌, ◌<◌, length};
ghost use Rattle.std.proofs.lemmas.List.Edits.{sets};
ghost use Rattle.sheet_spec.specs.Limits.{max_bands};
ghost use Rattle.sheet_spec.specs.Slots.{N, head_size, law_size, row_size, box_size, slots};
ghost use Rattle.sheet_spec.specs.File.{Small, HasRoom, record_length, record_bytes};
ghost use Rattle.sheet_spec.specs.Fields.{coded};
ghost use Rattle.sheet_spec.specs.Sizes.{letters, caps_at, cap_bytes, coefficient_bytes, law_bytes, row_bytes, band_bytes, box_bytes};
ghost use Rattle.sheet_spec.specs.declared.BandKind.TheVariants.{Feedback};
ghost use Rattle.sheet_spec.specs.Layout.{head_fields, coefficient_field, law_fields, law_count, row_fields, row_count, band_fields, band_count, box_fields, box_count, fields, field_count};

use sheet_encoding::bytes::{put_i32, put_u8, put_u16};
use sheet_encoding::marks::mark_of;
use sheet_encoding::records::law_bytes;
use sheet_spec::sizes::*;
use sheet_spec::slots::*;
use sheet_spec::{BandKind, Record, Shape, Vars};

// The head's numbers but for the caps.
fn write_head(s: &mut [u8], v: &[i32; SLOTS])
    requires { caps_at ≤ length s.old }
    ensures { s.new ≡ sets s.old letters (coded head_fields v.now head_size) }
{
    put_u8(s, VARS_AT, v, VARS);
    put_u8(s, BANDS_AT, v, BANDS);
    put_u8(s, BOXES_AT, v, BOXES);
    put_u8(s, BAND_VAR_AT, v, BAND_VAR);
    put_u16(s, DELTA_AT, v, DELTA);
    put_u16(s, ALPHA_AT, v, ALPHA);
    put_u16(s, RHO_AT, v, RHO);
    put_i32(s, LEAST_AT, v, LEAST);
    put_i32(s, GREATEST_AT, v, GREATEST);
}

fn write_caps(s: &mut [u8], n: Vars, v: &[i32; SLOTS])
    requires { caps_at + cap_bytes n ≤ length s.old }
    ensures { s.new ≡ sets s.old letters (coded head_fields v.now (head_size + n)) }
{
    write_head(s, v);
    for i in 0..n.count() {
        put_u16(s, CAPS_AT + U16 * i, v, FIRST_CAP + i);
    }
}

// The coefficients of a law or of a row.
fn write_coefficients(s: &mut [u8], at: usize, n: Vars, v: &[i32; SLOTS], slot: usize)
    requires { (slot + N ≤ slots) × (at + coefficient_bytes n ≤ length s.old) }
    ensures { s.new ≡ sets s.old at (coded (coefficient_field slot) v.now n) }
{
    for j in 0..n.count() {
        put_u16(s, at + I16 * j, v, slot + j);
    }
}

// A law that follows the state.
fn write_feedback(s: &mut [u8], at: usize, n: Vars, v: &[i32; SLOTS], slot: usize)
    requires { (slot + law_size ≤ slots) × (at + law_bytes Feedback n ≤ length s.old) }
    ensures { s.new ≡ sets s.old at (coded (law_fields n slot) v.now (law_count Feedback n)) }
{
    write_coefficients(s, at, n, v, slot);
    let rest = at + I16 * n.count();
    put_i32(s, rest, v, slot + LAW_CONSTANT);
    put_u16(s, rest + DIVISOR_AT, v, slot + LAW_DIVISOR);
}

// The law of a band of a kind.
fn write_law(s: &mut [u8], at: usize, n: Vars, kind: BandKind, v: &[i32; SLOTS], slot: usize)
    requires { (slot + law_size ≤ slots) × (at + law_bytes kind n ≤ length s.old) }
    ensures { s.new ≡ sets s.old at (coded (law_fields n slot) v.now (law_count kind n)) }
{
    match kind {
        BandKind::Fixed => {}
        BandKind::Feedback => write_feedback(s, at, n, v, slot),
    }
}

fn write_row(s: &mut [u8], at: usize, n: Vars, v: &[i32; SLOTS], slot: usize)
    requires { (slot + row_size ≤ slots) × (at + row_bytes n ≤ length s.old) }
    ensures { s.new ≡ sets s.old at (coded (row_fields n slot) v.now (row_count n)) }
{
    write_coefficients(s, at, n, v, slot);
    let rest = at + I16 * n.count();
    put_u16(s, rest, v, slot + ROW_B);
    put_i32(s, rest + C_AT, v, slot + ROW_C);
    put_i32(s, rest + D_AT, v, slot + ROW_D);
    put_u16(s, rest + Q_AT, v, slot + ROW_Q);
}

fn write_band(s: &mut [u8], n: Vars, kind: BandKind, v: &[i32; SLOTS], k: usize)
    requires { (k < max_bands) × (letters + band_bytes kind n ≤ length s.old) }
    ensures { s.new ≡ sets s.old letters (coded (band_fields n kind k) v.now (band_count n kind)) }
{
    let slot = FIRST_BAND + k * BAND_SIZE;
    put_i32(s, LETTERS, v, slot);
    put_i32(s, LETTERS + SAFETY_LEAST_AT, v, slot + SAFETY_LEAST);
    put_i32(s, LETTERS + SAFETY_GREATEST_AT, v, slot + SAFETY_GREATEST);
    write_law(s, BAND_HEAD, n, kind, v, slot + LAW);
    let rows = BAND_HEAD + law_bytes(kind, n);
    for i in 0..n.count() {
        write_row(
            s,
            rows + i * (I16 * n.count() + REST_BYTES),
            n,
            v,
            slot + FIRST_ROW + i * ROW_SIZE,
        );
    }
}

fn write_box(s: &mut [u8], n: Vars, v: &[i32; SLOTS], slot: usize)
    requires { (slot + box_size ≤ slots) × (letters + box_bytes n ≤ length s.old) }
    ensures { (h : ℕ) → s.new ≡ sets s.old letters (coded (box_fields h slot) v.now (box_count n)) }
{
    for i in 0..n.count() {
        put_i32(s, LETTERS + PAIR_BYTES * i, v, slot + i);
        put_i32(s, LETTERS + PAIR_BYTES * i + UPPER_AT, v, slot + i + N);
    }
}

// The numbers of a record.
fn write_numbers(s: &mut [u8], shape: Shape, record: Record, v: &[i32; SLOTS])
    requires small { Small shape × HasRoom «record» }
    requires record_in_bounds { record_length shape.vars «record» ≤ length s.old }
    ensures { s.new ≡ sets s.old letters (coded (fields shape.vars «record») v.now (field_count shape.vars «record»)) }
{
    let n = Vars { count: shape.vars };
    match record {
        Record::Head => write_caps(s, n, v),
        Record::Band(kind, k) => write_band(s, n, kind, v, k),
        Record::Unsafe(j) => write_box(s, n, v, FIRST_UNSAFE + j * BOX_SIZE),
        Record::Recovery => write_box(s, n, v, RECOVERY),
    }
}

// A record, at the start of the part that it gets.
pub fn write_record(s: &mut [u8], shape: Shape, record: Record, v: &[i32; SLOTS])
    requires small { Small shape × HasRoom «record» }
    requires record_in_bounds { record_length shape.vars «record» ≤ length s.old }
    ensures { s.new ≡ sets s.old 0 (record_bytes shape.vars «record» v.now) }
{
    s[..LETTERS].copy_from_slice(&mark_of(record));
    write_numbers(s, shape, record, v);
}
