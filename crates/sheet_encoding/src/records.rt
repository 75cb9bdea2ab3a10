// The records of a file: how many there are, which of them is where, and their lengths.
ghost use Rattle.std.specs.Prelude.{◌≡◌, ◌+◌, ◌*◌, ◌≤◌};
ghost use Rattle.sheet_spec.specs.Slots.{N, head_size, vars, bands, boxes, band_kind};
ghost use Rattle.sheet_spec.specs.Fields.{bad};
ghost use Rattle.sheet_spec.specs.Sizes.{law_bytes, row_bytes, band_head};
ghost use Rattle.sheet_spec.specs.Layout.{head_fields};
ghost use Rattle.sheet_spec.specs.File.{shape, Small, records, record_at, record_length, record_start};

use crate::count;
use sheet_spec::sizes::*;
use sheet_spec::slots::{BANDS, BOXES, FIRST_BAND, LAW, LAW_DIVISOR, SLOTS, VARS};
use sheet_spec::{BandKind, Record, Shape, Vars};

// The counts of a sheet whose head is in range, and a kind of bands.
pub fn shape_with(v: &[i32; SLOTS], kind: BandKind) -> Shape
    requires { 0 ≡ bad head_fields v.now head_size }
    ensures { (result ≡ record { vars = vars v.now; bands = bands v.now; boxes = boxes v.now; kind = kind }) × Small result }
{
    Shape {
        vars: count(v, VARS),
        bands: count(v, BANDS),
        boxes: count(v, BOXES),
        kind,
    }
}

// The kind of the bands of a value: the divisor of the first band's law tells.
pub fn band_kind(v: &[i32; SLOTS]) -> BandKind
    ensures { result ≡ band_kind v.now }
{
    match v[FIRST_BAND + LAW + LAW_DIVISOR] {
        0 => BandKind::Fixed,
        _ => BandKind::Feedback,
    }
}

// The shape of a value whose head is in range.
pub fn shape_of(v: &[i32; SLOTS]) -> Shape
    requires { 0 ≡ bad head_fields v.now head_size }
    ensures { (result ≡ shape v.now) × Small result }
{
    shape_with(v, band_kind(v))
}

// How many records a file has. `Small shape` is asked and is not the type's own: the definitions make the shape of any value (`shape` in
// sheet_spec/specs/File), and a loop that passes on a struct around a struct with a model is not covered yet.
pub fn record_count(shape: Shape) -> usize
    requires { Small shape }
    ensures { result ≡ records shape }
{
    shape.bands + shape.boxes + 2
}

// The r-th of them.
pub fn record_at(shape: Shape, r: usize) -> Record
    ensures { result ≡ record_at shape r }
{
    if r == 0 {
        return Record::Head;
    }
    let k = r - 1;
    let kind = shape.kind;
    if k < shape.bands {
        return Record::Band(kind, k);
    }
    let j = k - shape.bands;
    if j < shape.boxes {
        return Record::Unsafe(j);
    }
    Record::Recovery
}

// The bytes of the law of a band of a kind.
pub fn law_bytes(kind: BandKind, n: Vars) -> usize
    ensures { result ≡ law_bytes kind n }
{
    match kind {
        BandKind::Fixed => 0,
        BandKind::Feedback => I16 * n.count() + LAW_REST_BYTES,
    }
}

// The bytes of a band.
fn band_length(kind: BandKind, n: Vars) -> usize
    ensures { result ≡ band_head + law_bytes kind n + n * row_bytes n }
{
    BAND_HEAD + law_bytes(kind, n) + n.count() * (I16 * n.count() + REST_BYTES)
}

// The bytes of a record.
pub fn record_length(shape: Shape, record: Record) -> usize
    requires { Small shape }
    ensures { result ≡ record_length shape.vars «record» }
{
    let n = shape.vars;
    match record {
        Record::Head => CAPS_AT + U16 * n,
        Record::Band(kind, _) => band_length(kind, Vars { count: n }),
        Record::Unsafe(_) | Record::Recovery => LETTERS + PAIR_BYTES * n,
    }
}

// The bytes of a sheet.
pub fn file_length(shape: Shape) -> usize
    requires { Small shape }
    ensures { result ≡ record_start shape (records shape) }
{
    let n = shape.vars;
    let kind = shape.kind;
    CAPS_AT
        + U16 * n
        + shape.bands * band_length(kind, Vars { count: n })
        + (LETTERS + PAIR_BYTES * n) * (shape.boxes + 1)
}
