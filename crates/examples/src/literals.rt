use points::{Assignment, Point, PointSet};
use statements::LiteralSet;
use std::test::Fail;

// The set of these points.
fn points(numbers: &[u32]) -> PointSet {
    numbers
        .iter()
        .filter_map(|number| Point::new(*number))
        .fold(PointSet::empty(), PointSet::with)
}

#[test]
fn asks_one_set(rt: HostRuntime) -> Result<(), Fail> {
    let a = LiteralSet::make(&[1, 2, -3])?;
    let two = LiteralSet::make(&[2])?;
    assert!(rt; a.named() == points(&[1, 2, 3]));
    assert!(rt; a.true_points(&Assignment::new(points(&[1, 3]))) == points(&[1]));
    assert!(rt; a.true_points(&Assignment::new(points(&[]))) == points(&[3]));
    assert!(rt; two.is_subset(a) && !a.is_subset(two));
    assert!(rt; !LiteralSet::make(&[-2])?.is_subset(a));
    Ok(())
}

#[test]
fn asks_two_sets(rt: HostRuntime) -> Result<(), Fail> {
    let a = LiteralSet::make(&[1, 2, -3])?;
    let b = LiteralSet::make(&[-1, 2, 4])?;
    assert!(rt; a.lacking_points(b) == points(&[1, 3]));
    assert!(rt; b.lacking_points(a) == points(&[1, 4]));
    assert!(rt; a.opposed_points(b) == points(&[1]));
    let rest = LiteralSet::make(&[2, -3, 4])?;
    assert!(rt; a.cancelled(b) == rest);
    assert!(rt; a.cancelled(b).is_subset(rest) && rest.is_subset(a.cancelled(b)));
    let one = Point::new(1).ok_or("no point 1")?;
    let resolvent = a.resolvent(b, one).ok_or("no resolvent")?;
    assert!(rt; resolvent == rest);
    assert!(rt; resolvent.is_subset(rest) && rest.is_subset(resolvent));
    let c = LiteralSet::make(&[1, 2])?;
    let d = LiteralSet::make(&[-1, -2])?;
    assert!(rt; c.opposed_points(d) == points(&[1, 2]));
    assert!(rt; c.resolvent(d, one).is_none());
    assert!(rt; c.cancelled(d).named() == points(&[]));
    Ok(())
}
