// A row made anew without a board.
use crate::cases::{Due, EXISTS, FULL, MISSING, is_turned, link};
use batch::{Anew, make_anew};
use keeper::{MEMORY, OUTPUT, Reason};
use order::Link;
use std::process::Abort;
use std::test::Fail;

// Makes a row anew in a memory that is full of one number, and sees that what comes is what is to come.
fn check_in(
    rt: &(impl Abort + AllocGlobal),
    number: u64,
    row: &[u64],
    links: &[Link],
    due: Due,
) -> Result<(), Fail> {
    let mut memory = vec![in rt.alloc(); number; MEMORY]?;
    let mut out = vec![in rt.alloc(); number; OUTPUT]?;
    let made = make_anew(memory.as_mut_slice(), row, links, out.as_mut_slice());
    match (made, due) {
        (Ok(Anew::Row(n)), Due::Row(row)) => {
            assert!(rt; out.get(..n as usize) == Some(row));
        }
        (Ok(Anew::Circle(n)), Due::Round(circle)) => {
            let shown = out.get(..n as usize).unwrap_or(&[]);
            assert!(rt; is_turned(shown, circle));
        }
        (Err(reason), Due::Refused(refusal)) => {
            assert_eq!(rt; reason, Reason::Board(refusal));
        }
        _ => return Err(Fail::new("not of the kind that is due")),
    }
    Ok(())
}

// The same in clean memory and in memory full of sevens.
fn check(
    rt: &(impl Abort + AllocGlobal),
    row: &[u64],
    links: &[Link],
    due: Due,
) -> Result<(), Fail> {
    check_in(rt, 0, row, links, due)?;
    check_in(rt, 7, row, links, due)
}

#[test]
fn small_rows(rt: HostRuntime) -> Result<(), Fail> {
    let row = [50, 10, 40, 20, 30];
    let cases: [(&[Link], Due); 10] = [
        (&[], Due::Row(&row)),
        (&[link(50, 10), link(10, 30)], Due::Row(&row)),
        // After 50 comes 40, since 10 waits for it, and then 10.
        (
            &[link(40, 10), link(50, 20)],
            Due::Row(&[50, 40, 10, 20, 30]),
        ),
        (
            &[link(40, 10), link(40, 10)],
            Due::Row(&[50, 40, 10, 20, 30]),
        ),
        // 10 waits for 30, and 50 for 10.
        (
            &[link(10, 50), link(30, 10)],
            Due::Row(&[40, 20, 30, 10, 50]),
        ),
        (
            &[link(10, 20), link(20, 40), link(40, 10), link(40, 30)],
            Due::Round(&[10, 20, 40]),
        ),
        (&[link(50, 20), link(20, 20)], Due::Round(&[20])),
        // Two circles go through 10: the newest link into it is followed.
        (
            &[link(40, 10), link(20, 10), link(10, 40), link(10, 20)],
            Due::Round(&[10, 20]),
        ),
        (&[link(50, 20), link(20, 60)], MISSING),
        (&[link(60, 20)], MISSING),
    ];
    for (links, due) in cases {
        check(&rt, &row, links, due)?;
    }
    check(&rt, &[50, 10, 50], &[], EXISTS)?;
    check(&rt, &[], &[], Due::Row(&[]))
}

#[test]
fn limits(rt: HostRuntime) -> Result<(), Fail> {
    let mut row: Vec<u64> = (0..8192).collect(rt.alloc())?;
    let mut links = vec![in rt.alloc(); link(1, 0); 65536]?;
    let due: Vec<u64> = [1, 0].into_iter().chain(2..8192).collect(rt.alloc())?;
    check(
        &rt,
        row.as_slice(),
        links.as_slice(),
        Due::Row(due.as_slice()),
    )?;
    links.push(link(1, 0))?;
    check(&rt, row.as_slice(), links.as_slice(), FULL)?;
    row.push(8192)?;
    check(&rt, row.as_slice(), &[], FULL)
}
