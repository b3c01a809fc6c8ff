mod calls;
mod counts;

ghost use Rattle.std.specs.Prelude.{◌≤◌};

// An open case: how many points it has, how many statements are filed, and how many were when a supposition began. The statements
// stand in a table that is lent at each call, and not in a `Vec` here: no call on a case allocates. The number of points is held, and
// not the last `Point`, of which each clause would have to ask the number.
#[derive(Drop)]
pub struct OpenCase {
    points: u32,
    filed: usize,
    noted: Option<usize>,
    ghost some: { 1 ≤ points },
    ghost few: { points ≤ 64 },
    ghost room: { filed ≤ 65536 },
}
