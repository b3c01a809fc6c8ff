mod filing;
mod opening;

// Why a case is not opened. Each cause has the number of its refusal.
#[derive(Clone, Copy, Debug, PartialEq, Eq)]
pub enum OpenFault {
    // The number of points is not from 1 to 64.
    Points = 1,
}

// Why a statement is not filed. Each cause has the number of its refusal.
#[derive(Clone, Copy, Debug, PartialEq, Eq)]
pub enum FileFault {
    // The statement names a point beyond those of the case.
    Beyond = 4,
    // No usable row of the filing table is left.
    Full = 5,
}
