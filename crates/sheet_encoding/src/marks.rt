// The marks of a file's records.
ghost use Rattle.std.specs.Prelude.{◌≡◌, ℕ, ◌+◌, ◌≤◌, [], ◌∷◌, length};
ghost use Rattle.sheet_spec.specs.Sizes.{letters};
ghost use Rattle.sheet_spec.specs.Layout.{mark};
ghost use Rattle.sheet_spec.specs.declared.Record.TheVariants.{Band};
ghost use Rattle.sheet_spec.specs.File.{marked};

use sheet_spec::sizes::LETTERS;
use sheet_spec::{BandKind, Record};

// The letters that a record starts with: those of a band tell its kind.
pub fn mark_of(record: Record) -> [u8; LETTERS]
    ensures { result ≡ (mark «record»).0 ∷ ((mark «record»).1 ∷ []) }
{
    match record {
        Record::Head => *b"SH",
        Record::Band(BandKind::Fixed, _) => *b"BD",
        Record::Band(BandKind::Feedback, _) => *b"BF",
        Record::Unsafe(_) => *b"NG",
        Record::Recovery => *b"RC",
    }
}

// The record's mark is at a place.
pub fn marked(f: &[u8], at: usize, record: Record) -> bool
    requires { at + letters ≤ length f.now }
    ensures { result ≡ marked f.now at «record» }
{
    &f[at..at + LETTERS] == mark_of(record).as_slice()
}
