// A line of text in fixed memory: words and numbers, put one after the other. The bytes of a number are its digits, equal to those of
// decision_spec/specs/Listing.antt. What is put begins at the line's end, and the bytes after it stay as they were. specs/Limits says
// how much room each takes.
#![tactic(auto)]

ghost use Rattle.std.specs.Prelude.{◌≡◌, [], ◌∷◌, ◌+◌, ◌≤◌, length, take};
ghost use Rattle.decision_spec.specs.Listing.{digits, space};
ghost use Rattle.listing_text.specs.Limits.{number_room, line_room};

// The most bytes of a number, a word, a reply (a word and two numbers, each after a space) and a line (an ordinal, a space,
// a reply and a newline), as in specs/Limits.antt.
const NUMBER: usize = 20;

const WORD: usize = 11;

const REPLY: usize = WORD + 2 * (1 + NUMBER);

pub const LINE: usize = NUMBER + 1 + REPLY + 1;

// A line's text is its first `end` bytes. They are in an array and not in a String, since nothing here allocates. It can be any array of
// the caller's.
#[derive(Drop)]
pub struct Line {
    pub bytes: [u8; LINE],
    pub end: usize,
    ghost in_room: { end ≤ line_room },
}

impl Line {
    ghost use Rattle.listing_text.specs.Line.{Adds, AddsWithin, Begins, HasRoom};

    // A line with no text.
    pub fn new() -> Line
        ensures { result.end ≡ 0 }
    {
        Line {
            bytes: [0; LINE],
            end: 0,
        }
    }

    // Begins the line again, with no text.
    pub fn clear(&mut self)
        ensures { Begins [] self.old self.new }
    {
        self.end = 0;
    }

    // The line's text.
    pub fn text(&self) -> &[u8]
        ensures { result.now ≡ take self.now.end self.now.bytes }
    {
        &self.bytes[..self.end]
    }

    // Puts a text at the line's end.
    pub fn put(&mut self, text: &[u8])
        requires { HasRoom (length text.now) self.old }
        ensures { Adds text.now self.old self.new }
    {
        let start = self.end;
        self.end += text.len();
        self.bytes[start..self.end].copy_from_slice(text);
    }

    // Puts a number's digits at the line's end.
    #[tactic(auto, using(crate::proofs::Puts::put_as, crate::proofs::Digits::digits_decimal))]
    pub fn put_decimal(&mut self, x: u64)
        requires { HasRoom number_room self.old }
        ensures { AddsWithin number_room (digits x) self.old self.new }
    {
        let mut spelled = itoa::Buffer::new();
        self.put(spelled.format(x).as_bytes());
    }

    // Puts a space and a number at the line's end.
    pub fn put_field(&mut self, x: u64)
        requires { HasRoom (1 + number_room) self.old }
        ensures { AddsWithin (1 + number_room) (space ∷ digits x) self.old self.new }
    {
        self.put(b" ");
        self.put_decimal(x);
    }
}
