// Readings of the new drive (document 02, paper 1), as definitions: the exact value of a 32-bit float, its floor and ceiling, the box
// that readings give, and their tests; that the box holds every number that a reading allows. There is no function here: `readings`
// has the code.
#![tactic(auto)]

// A value with a tolerance, in either direction.
#[derive(Clone, Copy)]
pub struct Measurement {
    pub value: f32,
    pub tolerance: f32,
}

// What the drive reports of one variable: a point with its tolerance, a lower and an upper value, or no reading.
#[derive(Clone, Copy)]
pub enum Reading {
    Point(Measurement),
    Pair { lower: f32, upper: f32 },
    Missing,
}
