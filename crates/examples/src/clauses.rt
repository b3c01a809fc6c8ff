use points::{Assignment, Point, PointSet};
use statements::{Clause, MakeFault, Statement};
use std::test::Fail;

// The number of the refusal of these numbers, if they are refused. One line over another call than that of `filing`: no twin to join.
fn refusal(numbers: &[i32]) -> Option<u32> {
    Clause::make(numbers).err().map(MakeFault::number)
}

#[test]
fn makes(rt: HostRuntime) {
    assert_eq!(rt; refusal(&[]), None);
    assert_eq!(rt; refusal(&[64, -1, 64]), None);
    assert_eq!(rt; refusal(&[1, 0]), Some(2));
    assert_eq!(rt; refusal(&[-65]), Some(2));
    assert_eq!(rt; refusal(&[i32::MIN]), Some(2));
    assert_eq!(rt; refusal(&[5, -5]), Some(3));
    assert_eq!(rt; refusal(&[5, -5, 65]), Some(2));
}

#[test]
fn combines(rt: HostRuntime) -> Result<(), Fail> {
    let a = Clause::make(&[1, 2])?;
    let b = Clause::make(&[-1, 3])?;
    let c = Clause::make(&[2, 3])?;
    let one = Point::new(1).ok_or("no point 1")?;
    let two = Point::new(2).ok_or("no point 2")?;
    let resolvent = a.combine(&b, one).ok_or("no resolvent")?;
    assert!(rt; resolvent == c && a != c);
    assert!(rt; resolvent.covers(&c) && c.covers(&resolvent) && !a.covers(&c));
    assert!(rt; a.combine(&b, two).is_none());
    let yes = Assignment::new(PointSet::from(two));
    assert!(rt; a.holds(&yes) && b.holds(&yes) && resolvent.holds(&yes));
    Ok(())
}
