// Runs the checks of documents 01 and 02 on the reader and the writer of sheets that are run and not proved.
// Each writes a line: what is checked, and the answer.
#![tactic(auto)]

mod feedback;
mod sheet_a;
mod sheet_f;
mod six;

use sheet::refusals::Refusal;
use sheet::slots::SLOTS;
use sheet_a::*;
use std::fmt::Display;

// A buffer that sheet A is written to, from a place on.
const PLACE: usize = 5;

const END: usize = PLACE + LENGTH;

const BUFFER: usize = 80;

const FILLER: u8 = 7;

// A part of a line that cannot be written is left out, here and below, and the next part is tried.
fn answer<T>(to: &impl Print, label: impl Display + Drop, answered: &Result<T, Refusal>) {
    let _ = print!(to; "{label}");
    let Err(refusal) = answered else {
        let _ = print!(to; ": accepted\n");
        return;
    };
    let _ = print!(to; ": refused ");
    let _ = print!(to; "{}", u8::from(*refusal));
    let _ = print!(to; "\n");
}

fn verdict(to: &impl Print, label: impl Display + Drop, same: bool) {
    let _ = print!(to; "{label}");
    let _ = print!(to; "{}", if same { ": same\n" } else { ": other\n" });
}

// Reads a file.
fn reading(to: &impl Print, label: &str, f: &[u8]) {
    answer(to, label, &sheet::read(f));
}

// A file's numbers; zeros if it is refused, so that the checks on them say so.
fn numbers(f: &[u8]) -> [i32; SLOTS] {
    sheet::read(f).unwrap_or([0; SLOTS])
}

fn sums_of_ticks(to: &impl Print) {
    let mut f = FILE;
    f[ALPHA_FIRST] = 3;
    f[ALPHA] = 228;
    reading(to, "sum of ticks 1000", &f[..LENGTH]);
    f[ALPHA] = 229;
    reading(to, "sum of ticks 1001", &f[..LENGTH]);
}

fn lengths(to: &impl Print) {
    reading(to, "19 bytes", &FILE[..19]);
    reading(to, "69 bytes", &FILE[..LENGTH - 1]);
    reading(to, "70 bytes", &FILE[..LENGTH]);
    reading(to, "71 bytes", &FILE);
}

// Reads sheet A with one byte changed, once for each line.
fn changed(to: &impl Print) {
    for (label, at, byte) in [
        ("head's mark", HEAD_MARK, b'T'),
        ("variables 7", VARS, 7),
        ("delta 0", DELTA, 0),
        ("greatest command 65561", GREATEST_SECOND, 1),
        ("bands 2", BANDS, 2),
        ("cap 0", CAP, 0),
        ("band's mark", BAND_MARK, b'C'),
        ("edge -1999999", EDGE, 129),
        ("safety least 26", SAFETY_LEAST, 26),
        ("divisor 0", DIVISOR, 0),
        ("no-go upper side 2000001", UNSAFE_UPPER, 129),
    ] {
        let mut f = FILE;
        f[at] = byte;
        reading(to, label, &f[..LENGTH]);
    }
}

// Writes sheet A to a buffer that is a byte short, and to one with room, and looks at each byte of that.
fn writing(to: &impl Print) {
    let value = numbers(&FILE[..LENGTH]);
    let mut short = [FILLER; END - 1];
    let refused = sheet::write(&value, &mut short, PLACE);
    answer(to, "write at 5 of 74 bytes", &refused);
    let mut buffer = [FILLER; BUFFER];
    let written = sheet::write(&value, &mut buffer, PLACE);
    answer(to, "write at 5 of 80 bytes", &written);
    verdict(to, "length written", written == Ok(LENGTH));
    verdict(to, "bytes written", buffer[PLACE..END] == FILE[..LENGTH]);
    let filler = [FILLER; BUFFER];
    verdict(to, "bytes before", buffer[..PLACE] == filler[..PLACE]);
    verdict(to, "bytes after", buffer[END..] == filler[END..]);
}

fn main(rt: HostRuntime) {
    let to = rt.stdout();
    sums_of_ticks(&to);
    lengths(&to);
    changed(&to);
    writing(&to);
    feedback::checks(&to);
    six::checks(&to);
}
