// Boxes of states: 2N numbers, variable i's lower side at i, its upper side at i + N, and 0 at places that no variable has. Here
// they are taken from a sheet or a caller, and compared: whether one lies in another, and which no-go box it meets. The
// definitions are in sheet_spec/specs/Box and machine_spec/specs/Box.
ghost use Rattle.std.specs.Prelude.{◌≡◌, ℕ, ◌+◌, ◌≤◌, ◌<◌, ℤ};
ghost use Rattle.sheet_spec.specs.Limits.{max_boxes};
ghost use Rattle.sheet_spec.specs.Slots as slots;
ghost use Rattle.sheet_spec.specs.Box.{lowest_met, meets};
ghost use Rattle.machine_spec.specs.Box.{box_of, trim, within};

use sheet_spec::slots::{BOX_SIZE, FIRST_UNSAFE, N, SLOTS};

// The box with the given side at each place, and 0 at places that no variable has.
fn box_of<F: Fn(usize) -> i64>(n: usize, side: F) -> [i64; BOX_SIZE]
    requires { (n ≤ slots.N) × ((place : ℕ) → place < slots.box_size → F.pre side place) }
    ensures { (f : ℕ → ℤ) → ((place : ℕ) → place < slots.box_size → (z : ℤ) → F.post side place z → z ≡ f place) → result ≡ box_of n f (λ i. f (i + slots.N)) }
{
    let mut sides = [0; BOX_SIZE];
    for i in 0..n {
        sides[i] = side(i);
        sides[i + N] = side(i + N);
    }
    sides
}

// The box, with what no variable has set to 0.
pub fn trim(n: usize, boxed: &[i64; BOX_SIZE]) -> [i64; BOX_SIZE]
    requires { n ≤ slots.N }
    ensures { result ≡ trim n boxed.now }
{
    box_of(n, |place| boxed[place])
}

// The box whose sides start at a slot of the sheet's value, with what no variable has set to 0.
pub fn box_at(n: usize, sheet: &[i32; SLOTS], slot: usize) -> [i64; BOX_SIZE]
    requires { (n ≤ slots.N) × (slot + slots.box_size ≤ slots.slots) }
    ensures { result ≡ trim n (slots.box_at sheet.now slot) }
{
    box_of(n, |place| i64::from(sheet[slot + place]))
}

// `inner` lies in `whole`.
pub fn within(n: usize, inner: &[i64; BOX_SIZE], whole: &[i64; BOX_SIZE]) -> bool
    requires { n ≤ slots.N }
    ensures { result ≡ within n inner.now whole.now }
{
    (0..n).all(|i| whole[i] <= inner[i] && inner[i + N] <= whole[i + N])
}

// The box shares a state with the one whose sides start at a slot of the sheet's value.
pub fn meets(n: usize, boxed: &[i64; BOX_SIZE], sheet: &[i32; SLOTS], slot: usize) -> bool
    requires { (n ≤ slots.N) × (slot + slots.box_size ≤ slots.slots) }
    ensures { result ≡ meets n boxed.now (slots.box_at sheet.now slot) }
{
    (0..n).all(|i| {
        boxed[i] <= i64::from(sheet[slot + i + N]) && i64::from(sheet[slot + i]) <= boxed[i + N]
    })
}

// The lowest number, from 0, of the first `count` no-go boxes that share a state with the box, or `count` if none does.
pub fn lowest_met(n: usize, boxed: &[i64; BOX_SIZE], sheet: &[i32; SLOTS], count: usize) -> usize
    requires { (n ≤ slots.N) × (count ≤ max_boxes) }
    ensures { result ≡ lowest_met n sheet.now count boxed.now }
{
    (0..count)
        .find(|tested| meets(n, boxed, sheet, FIRST_UNSAFE + *tested * BOX_SIZE))
        .unwrap_or(count)
}
