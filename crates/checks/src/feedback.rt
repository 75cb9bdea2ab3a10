// Checks on a band whose plain law follows the state (document 02, paper 9).

use crate::sheet_f::*;
use crate::{answer, reading, verdict};
use sheet::slots::{FIRST_BAND, LAW, LAW_CONSTANT, LAW_DIVISOR};

fn lengths(to: &impl Print) {
    reading(to, "BF, 77 bytes", &FILE[..LENGTH - 1]);
    reading(to, "BF, 78 bytes", &FILE);
    let mut other = FILE;
    other[LETTER] = b'D';
    reading(to, "BD, 78 bytes", &other);
}

// The law's numbers, and a divisor of 0.
fn numbers(to: &impl Print) {
    let v = crate::numbers(&FILE);
    let law = FIRST_BAND + LAW;
    verdict(to, "law's coefficient -3", v[law] == -3);
    verdict(to, "law's constant 700", v[law + LAW_CONSTANT] == 700);
    verdict(to, "law's divisor 40", v[law + LAW_DIVISOR] == 40);
    let mut zero = FILE;
    zero[DIVISOR] = 0;
    reading(to, "law's divisor 0", &zero);
}

fn writing(to: &impl Print) {
    let mut buffer = [0; LENGTH];
    let written = sheet::write(&crate::numbers(&FILE), &mut buffer, 0);
    answer(to, "write BF", &written);
    verdict(to, "bytes of BF written", buffer == FILE);
}

pub fn checks(to: &impl Print) {
    lengths(to);
    numbers(to);
    writing(to);
}
