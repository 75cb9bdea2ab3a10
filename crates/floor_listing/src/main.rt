// The floor listing (document 01): reads `sheet.bin` and `asks.bin` in the current folder and writes a line for the sheet
// and, where it passed, one for each question. The lines, which bytes a question has and where the listing ends are proved in
// `listing`; here bytes are only read and written.
#![tactic(auto)]

ghost use Rattle.std.specs.Prelude.{◌≡◌, ◌+◌, ◌-◌, ◌^◌, ◌≤◌, ◌<◌, IfOk, IfSome, length, drop, take};
ghost use Rattle.floor_listing.specs.Counts.{IsPrefixLen};
ghost use Rattle.listing.specs.Limits.{longest_sheet, longest_question};

use listing::{Listed, QUESTION, move_rest, question_step, sheet_step};
use listing_text::Line;
use std::fs::Files;
use std::io::{Print, Read};
use std::{fs, io};

// Room for the sheet's file: more than the longest sheet takes.
const BUFFER: usize = 4096;

// Reads until the buffer is full, the file ends or a read fails, and answers how many bytes it put at the start of the buffer. A full
// one is not read into again, which would be one more call of the system for each question. `read_to_end` needs a Vec, and `read_exact`
// does not say how many bytes a shorter file has.
fn read_full<F: Read>(file: &mut F, buffer: &mut [u8]) -> usize
    ensures { IsPrefixLen result buffer.new }
{
    let mut done = 0;
    while done < buffer.len() {
        match file.read(&mut buffer[done..]) {
            Ok(n @ 1..) => done += n,
            _ => break,
        }
    }
    done
}

// The bytes that were read of a file and not yet taken. They are in an array and not in a Vec, since nothing here allocates.
#[derive(Drop)]
struct Window<const N: usize> {
    bytes: [u8; N],
    held: usize,
    ghost in_room: { held ≤ N },
}

impl<const N: usize> Window<N> {
    fn new() -> Window<N>
        ensures { result.held ≡ 0 }
    {
        Window {
            bytes: [0; N],
            held: 0,
        }
    }

    fn bytes(&self) -> &[u8]
        ensures { result.now ≡ take self.now.held self.now.bytes }
    {
        &self.bytes[..self.held]
    }

    // Reads on, after the bytes that it holds, until the window is full, the file ends or a read fails.
    fn fill<F: Read>(&mut self, file: &mut F)
        ensures held { IsPrefixLen self.new.held self.new.bytes }
        ensures kept { take self.old.held self.new.bytes ≡ take self.old.held self.old.bytes }
    {
        let bytes = &mut self.bytes[..];
        self.held += read_full(file, &mut bytes[self.held..]);
    }

    // Lets the first bytes go.
    fn skip(&mut self, taken: usize)
        requires { taken ≤ self.old.held }
        ensures held { self.new.held ≡ self.old.held - taken }
        ensures bytes { take self.new.held self.new.bytes ≡ take self.new.held (drop taken self.old.bytes) }
    {
        self.held = move_rest(&mut self.bytes, self.held, taken);
    }
}

// Reads the sheet's file into a window, as much of it as there is room for. What cannot be opened or read has no bytes. With more room
// than the longest sheet takes, nothing more of the file counts.
fn load<const N: usize, R: Files>(files: &R, path: &str, window: &mut Window<N>)
    requires { longest_sheet < N }
    ensures { IsPrefixLen window.new.held window.new.bytes }
{
    if let Ok(mut file) = fs::open(files, path) {
        window.fill(&mut file);
    }
}

// Writes the line of the question with this number, and gives its step.
fn answer_next(
    to: &impl Print,
    sheet: &[u8],
    ordinal: u64,
    bytes: &[u8],
    line: &mut Line,
) -> io::Result<Listed>
    requires { ordinal + 1 < 2 ^ 64 }
    ensures taken { IfOk result (λ step. step.taken ≤ length bytes.now) }
    ensures next { IfOk result (λ step. IfSome step.next (λ i. i ≡ ordinal + 1)) }
{
    let step = question_step(sheet, Some(ordinal), bytes, line);
    to.write_all(line.text())?;
    Ok(step)
}

// Answers each question of an open file from a number on, until the questions end or a line cannot be written: a step says which number
// the next one has, if one may follow. Before a step the window holds as many bytes as the longest question has, or all that the file
// has left. A proved loop has to end, and nothing says that a file does: the ordinal is below 2^64.
fn answer_all<const N: usize, F: Read>(
    to: &impl Print,
    asks: &mut F,
    sheet: &[u8],
    first: u64,
    mut window: Window<N>,
) -> io::Result<()>
    requires { longest_question ≤ N }
{
    let mut line = Line::new();
    let mut next = Some(first);
    while let Some(ordinal @ ..u64::MAX) = next {
        window.fill(asks);
        let step = answer_next(to, sheet, ordinal, window.bytes(), &mut line)?;
        window.skip(step.taken);
        next = step.next;
    }
    Ok(())
}

// The whole listing, as far as it can be written. Where the questions cannot be opened, there are none.
fn list(rt: &(impl Files + Print)) -> io::Result<()> {
    let mut sheet: Window<BUFFER> = Window::new();
    load(rt, "sheet.bin", &mut sheet);
    let mut line = Line::new();
    let step = sheet_step(sheet.bytes(), &mut line);
    rt.write_all(line.text())?;
    let Some(first) = step.next else {
        return Ok(());
    };
    let mut asks = fs::open(rt, "asks.bin")?;
    let window: Window<QUESTION> = Window::new();
    answer_all(rt, &mut asks, sheet.bytes(), first, window)
}

// A listing that cannot be written ends there, and the program's status says nothing of it.
fn main(rt: HostRuntime) {
    let _ = list(&rt);
}
