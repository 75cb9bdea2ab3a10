// Reading and writing a sheet (document 01, "Sheet layout"). A sheet's value is an array of numbers at named slots (slots).
// `read` and `write` take any input: what they answer, and what they leave in a buffer, is equal to the definitions in
// sheet_spec/specs/Sheet.antt.
#![tactic(auto)]

ghost use Rattle.std.specs.Prelude.{◌≡◌, true, ◌&&◌, leb, length, IfOk, OnOk, OnErr};
ghost use Rattle.sheet_spec.specs.Slots.{head_size, vars};
ghost use Rattle.sheet_spec.specs.Refusals.{refusal_of};
ghost use Rattle.sheet_spec.specs.Fields.{bad};
ghost use Rattle.sheet_spec.specs.Sizes.{caps_at};
ghost use Rattle.sheet_spec.specs.Layout.{head_fields};
ghost use Rattle.sheet_spec.specs.declared.Record.TheVariants.{Head};
ghost use Rattle.sheet_spec.specs.File.{marked};
ghost use Rattle.sheet_spec.specs.Sheet.{zeros, head_of, kind_of, contents, refusal, values};
ghost use Rattle.sheet_spec.specs.Written.{Wrote, length_in};

use sheet_encoding::{marks, records};
use sheet_spec::refusals::Refusal;
use sheet_spec::slots::SLOTS;
use sheet_spec::{BandKind, Record, sizes};
pub use sheet_spec::{refusals, slots};

// What follows the head's numbers, once they were read and tested.
fn read_rest(f: &[u8], kind: BandKind, v: &mut [i32; SLOTS]) -> Result<(), Refusal>
    requires f_value { leb caps_at (length f.now) && marked f.now 0 Head ≡ true }
    requires v_value { (v.old ≡ head_of f.now) × ((0 ≡ bad head_fields v.old head_size) × (kind ≡ kind_of f.now (vars (head_of f.now)))) }
    ensures { (refusal_of result ≡ refusal f.now) × OnOk result (v.new ≡ contents f.now) }
{
    let shape = records::shape_with(v, kind);
    if f.len() != records::file_length(shape) {
        return Err(Refusal::Length);
    }
    sheet_reader::read_records(f, shape, v);
    sheet_reader::bad_file(f, shape, v)
}

// Reads a sheet into an array of zeros. If the sheet is refused, the numbers read so far are left there.
// The kind of the bands is looked up before the head's numbers are tested: so the compiler still knows in the loops of
// `read_rest` that the variables are few.
fn read_values(f: &[u8], v: &mut [i32; SLOTS]) -> Result<(), Refusal>
    requires { v.old ≡ zeros }
    ensures { (refusal_of result ≡ refusal f.now) × OnOk result (v.new ≡ contents f.now) }
{
    if f.len() < sizes::CAPS_AT || !marks::marked(f, 0, Record::Head) {
        return Err(Refusal::Head);
    }
    sheet_reader::read_head(f, 0, v);
    let kind = sheet_reader::kind_of(f);
    sheet_validation::bad_head(v)?;
    read_rest(f, kind, v)
}

// Reads a sheet into an array of zeros, for the crates above: it becomes the sheet's numbers, and stays zeros if the sheet is refused.
pub fn read_zeroed(f: &[u8], v: &mut [i32; SLOTS]) -> Result<(), Refusal>
    requires { v.old ≡ zeros }
    ensures { (refusal_of result ≡ refusal f.now) × (v.new ≡ values f.now) }
{
    let answer = read_values(f, v);
    if answer.is_err() {
        *v = [0; SLOTS];
    }
    answer
}

// Reads a sheet.
#[tactic(auto, using(sheet_spec::proofs::Valid::zeros_are))]
pub fn read(f: &[u8]) -> Result<[i32; SLOTS], Refusal>
    ensures { (refusal_of result ≡ refusal f.now) × IfOk result (λ value. value ≡ values f.now) }
{
    let mut value = [0; SLOTS];
    read_zeroed(f, &mut value)?;
    Ok(value)
}

// Reads a sheet into an array of any numbers; a refusal leaves the array as it was. `sheet_c` exports this to C.
#[tactic(auto, using(sheet_spec::proofs::Valid::zeros_are))]
pub fn read_into(f: &[u8], v: &mut [i32; SLOTS]) -> Result<(), Refusal>
    ensures value { refusal_of result ≡ refusal f.now }
    ensures v_after { OnOk result (v.new ≡ values f.now) × OnErr result (v.new ≡ v.old) }
{
    let mut numbers = [0; SLOTS];
    read_zeroed(f, &mut numbers)?;
    *v = numbers;
    Ok(())
}

// Writes a sheet to the buffer from a place on, and gives its length; a refusal leaves the buffer as it was.
pub fn write(v: &[i32; SLOTS], buffer: &mut [u8], place: usize) -> Result<usize, Refusal>
    ensures { Wrote v.now buffer.old place (refusal_of result) (length_in result) buffer.new }
{
    sheet_writer::bad_sheet(v)?;
    sheet_writer::write_valid(v, buffer, place)
}
