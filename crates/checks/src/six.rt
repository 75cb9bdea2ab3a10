// Checks on sheets of six variables (document 02, paper 9).

use crate::{answer, sheet_a, sheet_f, verdict};
use sheet::slots::*;

// The lengths of sheets with one band and one no-go box.
const FIXED: usize = 290;

const FEEDBACK: usize = 308;

// Gives a sheet of one variable five more, of which none changes; their sides are 0.
fn six(v: &mut [i32; SLOTS]) {
    v[VARS] = 6;
    for i in 1..6 {
        v[FIRST_CAP + i] = 1;
        v[FIRST_BAND + FIRST_ROW + i * ROW_SIZE + ROW_Q] = 1;
    }
}

// Writes a file's sheet with six variables to a buffer of just its length, and reads that. A file that is refused leaves zeros. The numbers
// have one array, which is changed in place: each copy would be 3 KiB of stack.
fn both_ways(to: &impl Print, label: &str, f: &[u8], buffer: &mut [u8]) {
    let mut v = [0; SLOTS];
    let _ = sheet::read_into(f, &mut v);
    six(&mut v);
    let written = sheet::write(&v, buffer, 0);
    answer(to, format_args!("write {label}"), &written);
    let whole = written == Ok(buffer.len());
    verdict(to, format_args!("length of {label}"), whole);
    answer(to, label, &sheet::read(buffer));
}

pub fn checks(to: &impl Print) {
    let fixed = &sheet_a::FILE[..sheet_a::LENGTH];
    both_ways(to, "six variables", fixed, &mut [0; FIXED]);
    let feedback = &sheet_f::FILE;
    both_ways(to, "BF of six variables", feedback, &mut [0; FEEDBACK]);
}
