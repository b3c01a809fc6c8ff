use cases::OpenCase;
use dimacs::{Cause, Fault, read};
use statements::{Clause, LiteralSet, Statement};
use std::alloc::{AllocError, Global};
use std::test::Fail;

const ROWS: usize = 512;

// What reading gives: how many clauses are filed, or a refusal's number and place.
fn outcome(res: Result<OpenCase, Fault>) -> Result<usize, (u32, usize)> {
    res.map(|case| case.filed())
        .map_err(|fault| (fault.cause.number(), fault.place))
}

fn read_text(text: &[u8]) -> Result<usize, (u32, usize)> {
    let mut table = [Clause::from(LiteralSet::empty()); ROWS];
    outcome(read(text, &mut table))
}

#[test]
fn accepted(rt: HostRuntime) {
    let texts: [(&str, usize); 11] = [
        ("p cnf 1 0", 0),
        ("p cnf 64 0\n", 0),
        ("p cnf 1 1\n0", 1),
        ("p cnf 3 2\n1 2 0\n-1 3 0\n", 2),
        ("c one\nc\ncnf\np cnf 2 1\n1 -2 0", 1),
        ("p\tcnf  00002 \t00001\n\n\n1\n\n0\n", 1),
        ("p cnf 2 2\n1 0 2 0", 2),
        ("p cnf 2 2\n1 2 0\r\n-1 -2 0\r\n", 2),
        ("p cnf 2 1\n\t1\r1 01 00001 00000 \n", 1),
        ("p cnf 64 1\n64 -63 0", 1),
        ("p cnf 2 3\n0 0 0", 3),
    ];
    for (text, clauses) in texts {
        assert_eq!(rt; read_text(text.as_bytes()), Ok(clauses), "{}", text);
    }
}

// The first of the texts that is not refused with its number, at its place.
fn misread<'a>(texts: &'a [(&'a str, u32, usize)]) -> Option<&'a str> {
    texts
        .iter()
        .find(|(text, number, place)| read_text(text.as_bytes()) != Err((*number, *place)))
        .map(|(text, _, _)| *text)
}

#[test]
fn refused_header(rt: HostRuntime) {
    let texts: [(&str, u32, usize); 16] = [
        ("", 21, 0),
        ("c", 21, 1),
        ("c\n", 21, 2),
        ("\np cnf 1 0", 21, 0),
        (" p cnf 1 0", 21, 0),
        ("p cnf 1 0 ", 21, 0),
        ("c x\np cnf 1 0\r\n", 21, 4),
        ("p cnf 1", 21, 0),
        ("p cnf 1 0 0", 21, 0),
        ("p cnf 1 -1", 21, 0),
        ("p cnf 000001 0", 21, 0),
        ("p dnf 1 0", 21, 0),
        ("p cnf 0 0", 1, 6),
        ("c\np  cnf\t65 0\n", 1, 9),
        ("p cnf 99999 99999", 1, 6),
        ("P cnf 1 0", 21, 0),
    ];
    assert_eq!(rt; misread(&texts), None);
}

#[test]
fn refused_tokens(rt: HostRuntime) {
    let texts: [(&str, u32, usize); 20] = [
        ("p cnf 1 1\nx", 22, 10),
        ("p cnf 1 1\n1 x 0", 22, 12),
        ("p cnf 1 1\n-0", 22, 10),
        ("p cnf 1 1\n1 -00 0", 22, 12),
        ("p cnf 1 1\n+1 0", 22, 10),
        ("p cnf 1 1\n000001 0", 22, 10),
        ("p cnf 1 1\nc no comment here\n1 0", 22, 10),
        ("p cnf 64 1\n65 0", 2, 11),
        ("p cnf 1 1\n1 -99999 0", 2, 12),
        ("p cnf 1 1\n2 0", 4, 10),
        ("p cnf 63 1\n1 -64 0", 4, 13),
        ("p cnf 1 1\n1 -1 0", 3, 12),
        ("p cnf 2 2\n1 0 2 1 -2 0", 3, 18),
        ("p cnf 1 0\n0", 23, 10),
        ("p cnf 1 1\n1 0 x", 23, 14),
        ("p cnf 1 1\n", 23, 10),
        ("p cnf 1 1", 23, 9),
        ("p cnf 1 1\n1", 23, 11),
        ("p cnf 1 2\n1 0", 23, 13),
        ("p cnf 1 99999\n1 0\n", 23, 18),
    ];
    assert_eq!(rt; misread(&texts), None);
}

// The text with as many spaces at its end as make it so long.
fn padded(heap: Global, text: &[u8], long: usize) -> Result<Vec<u8>, AllocError> {
    let mut bytes = Vec::from_slice(heap, text)?;
    bytes.resize(long, b' ')?;
    Ok(bytes)
}

#[test]
fn length_limit(rt: HostRuntime) -> Result<(), Fail> {
    let whole = padded(rt.alloc(), b"p cnf 1 1\n1 0\n", 16384)?;
    assert_eq!(rt; whole.len(), 16384);
    assert_eq!(rt; read_text(whole.as_slice()), Ok(1));
    let over = padded(rt.alloc(), b"p cnf 1 1\n1 0\n", 16385)?;
    assert_eq!(rt; over.len(), 16385);
    assert_eq!(rt; read_text(over.as_slice()), Err((20, 16384)));
    let wrong = padded(rt.alloc(), b"q", 16385)?;
    assert_eq!(rt; read_text(wrong.as_slice()), Err((20, 16384)));
    let last = padded(rt.alloc(), b"p cnf 1 2\n1 0\n", 16384)?;
    assert_eq!(rt; read_text(last.as_slice()), Err((23, 16384)));
    Ok(())
}

// The header, and then so many clauses of one literal.
fn many(heap: Global, header: &[u8], clauses: usize) -> Result<Vec<u8>, AllocError> {
    let mut bytes = Vec::from_slice(heap, header)?;
    bytes.extend_from_slice(b"1 0\n".as_slice().repeat(heap, clauses)?.as_slice())?;
    Ok(bytes)
}

#[test]
fn row_limit(rt: HostRuntime) -> Result<(), Fail> {
    let full = many(rt.alloc(), b"p cnf 1 512\n", 512)?;
    assert_eq!(rt; read_text(full.as_slice()), Ok(512));
    let over = many(rt.alloc(), b"p cnf 1 513\n", 513)?;
    assert_eq!(rt; read_text(over.as_slice()), Err((5, 2062)));
    let mut none: [Clause; 0] = [];
    assert_eq!(rt; outcome(read(b"p cnf 1 1\n0", &mut none)), Err((5, 10)));
    Ok(())
}

#[test]
fn rows_hold_the_clauses(rt: HostRuntime) -> Result<(), Fail> {
    let mut table = [Clause::from(LiteralSet::empty()); 3];
    assert_eq!(rt;
        outcome(read(b"p cnf 9 2\n-7 3 0\n9 x", &mut table)),
        Err((22, 19))
    );
    let [first, second, third] = table;
    assert_eq!(rt; (first.length(), first.last()), (2, 7));
    let made = Clause::make(&[3, -7])?;
    assert!(rt; first == made);
    assert!(rt; first.covers(&made) && made.covers(&first));
    assert!(rt; second.impossible() && third.impossible());
    Ok(())
}

#[test]
fn prints_a_refusal(rt: HostRuntime) -> Result<(), Fail> {
    let fault = Fault {
        cause: Cause::Token,
        place: 31,
    };
    let text = format!(in rt.alloc(); "{fault}")?;
    assert_eq!(rt; text.as_str(), "refused 22 at 31");
    Ok(())
}
