// Numbers in a lent buffer, as the C interface gives the sides of boxes: four bytes each, big-endian, in two's complement.
// `put_numbers` writes them, `put_sides` lines up a box's sides. The definitions are in decision_spec/specs/Numbers.
ghost use Rattle.std.specs.Prelude.{◌≡◌, ◌+◌, ◌*◌, ◌≤◌, length};
ghost use Rattle.std.proofs.lemmas.List.Edits.{sets};
ghost use Rattle.sheet_spec.specs.Fields.{i32, bytes_in};
ghost use Rattle.sheet_spec.specs.Slots as slots;
ghost use Rattle.machine_spec.specs.Box.{Near};
ghost use Rattle.boxes_spec.specs.Reach.{max_reached};
ghost use Rattle.decision_spec.specs.Numbers.{number_bytes, sides_of};

use sheet_encoding::bytes::put_i32;
use sheet_spec::sizes::I32;
use sheet_spec::slots::{BOX_SIZE, N, SLOTS};

// Writes the first `count` numbers of v.
pub fn put_numbers(out: &mut [u8], v: &[i32; SLOTS], count: usize)
    requires { (count ≤ slots.slots) × (bytes_in i32 * count ≤ length out.old) }
    ensures { out.new ≡ sets out.old 0 (number_bytes v.now count) }
{
    for k in 0..count {
        put_i32(out, I32 * k, v, k);
    }
}

// Puts the sides of a box's variables into v, from a slot on. A side of a reach fits 32 bits, so that `as` cuts nothing.
pub fn put_sides(v: &mut [i32; SLOTS], at: usize, n: usize, b: &[i64; BOX_SIZE])
    requires { (n ≤ slots.N) × ((at + 2 * n ≤ slots.slots) × Near n max_reached b.now) }
    ensures { v.new ≡ sets v.old at (sides_of n b.now) }
{
    for i in 0..n {
        let lower_at = at + 2 * i;
        let upper = i + N;
        v[lower_at] = b[i] as i32;
        v[lower_at + 1] = b[upper] as i32;
    }
}
