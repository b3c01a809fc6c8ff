use cases::{FileFault, OpenCase, OpenFault};
use statements::Clause;
use std::test::Fail;

// The number of the refusal to open a case of so many points, if it is refused. One line over another call than that of `clauses`.
fn refusal(points: u32) -> Option<u32> {
    OpenCase::open(points).err().map(OpenFault::number)
}

#[test]
fn opens(rt: HostRuntime) {
    assert_eq!(rt; refusal(0), Some(1));
    assert_eq!(rt; refusal(1), None);
    assert_eq!(rt; refusal(64), None);
    assert_eq!(rt; refusal(65), Some(1));
}

// The number that the clause gets, or that of the refusal.
fn filed(case: &mut OpenCase, table: &mut [Clause], clause: Clause) -> Result<usize, u32> {
    case.file(table, clause).map_err(FileFault::number)
}

#[test]
fn files(rt: HostRuntime) -> Result<(), Fail> {
    let low = Clause::make(&[-3])?;
    let high = Clause::make(&[4])?;
    let mut case = OpenCase::open(3)?;
    let mut table = [high; 2];
    assert_eq!(rt; filed(&mut case, &mut table, high), Err(4));
    assert_eq!(rt; filed(&mut case, &mut table, low), Ok(0));
    assert_eq!(rt; filed(&mut case, &mut table, low), Ok(1));
    assert_eq!(rt; filed(&mut case, &mut table, low), Err(5));
    assert_eq!(rt; case.filed(), 2);
    Ok(())
}
