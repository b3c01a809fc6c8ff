mod number;

// Why no set of literals is made of some numbers. Each cause has the number of its refusal.
#[derive(Clone, Copy, Debug, PartialEq, Eq)]
pub enum MakeFault {
    // The magnitude of a number is not from 1 to 64.
    Magnitude = 2,
    // A point is named both ways.
    Opposed = 3,
}
