// A sheet's value written to a buffer (document 01, "Sheet layout"): the tests of the value, the room, and then every record,
// each in the part of the buffer that starts at its place. `sheet::write` puts them together. The definitions are in
// sheet_spec/specs/Sheet.
#![tactic(auto)]

ghost use Rattle.std.specs.Prelude.{◌≡◌, ◌≤◌, length};
ghost use Rattle.std.proofs.lemmas.List.Edits.{sets};
ghost use Rattle.sheet_spec.specs.Refusals.{refusal_of};
ghost use Rattle.sheet_spec.specs.File.{Small, records, record_start, coded_all};
ghost use Rattle.sheet_spec.specs.Sheet.{value_refusal};
ghost use Rattle.sheet_spec.specs.Written.{Wrote, length_in};

pub mod record;

use crate::record::write_record;
use sheet_encoding::places::record_places;
use sheet_encoding::records::{file_length, shape_of};
use sheet_spec::Shape;
use sheet_spec::refusals::Refusal;
use sheet_spec::slots::SLOTS;
use sheet_validation::{bad_head, bad_values};

// Every record, each in the part that starts at its place.
fn write_records(s: &mut [u8], shape: Shape, v: &[i32; SLOTS])
    requires { Small shape × (record_start shape (records shape) ≤ length s.old) }
    ensures { s.new ≡ sets s.old 0 (coded_all shape v.now (records shape)) }
{
    for (record, at) in record_places(shape) {
        write_record(&mut s[at..], shape, record, v);
    }
}

// The refusal of the first number out of range.
#[tactic(auto, using(sheet_spec::proofs::Laws::refused, sheet_spec::proofs::Answers::value_head, crate::proofs::FileTurn::value_is))]
pub fn bad_sheet(v: &[i32; SLOTS]) -> Result<(), Refusal>
    ensures { refusal_of result ≡ value_refusal v.now }
{
    bad_head(v)?;
    bad_values(v, shape_of(v))
}

// Writes a sheet whose numbers are in range, if there is room, and gives its length.
pub fn write_valid(v: &[i32; SLOTS], buffer: &mut [u8], place: usize) -> Result<usize, Refusal>
    requires { 0 ≡ value_refusal v.now }
    ensures { Wrote v.now buffer.old place (refusal_of result) (length_in result) buffer.new }
{
    let shape = shape_of(v);
    let length = file_length(shape);
    // no sheet is empty, so a place past the end has too little room as well
    if buffer.len().saturating_sub(place) < length {
        return Err(Refusal::Room);
    }
    write_records(&mut buffer[place..], shape, v);
    Ok(length)
}
