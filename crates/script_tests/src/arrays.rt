// Arrays that are too short, and buffers that are.

use crate::support::{EXAMPLE, book_of};
use book::{Lot, Person, Step};
use delegation::{Grant, Right};
use register::{MOST_GRANTS, MOST_RECORDS, Record, Register, check_arrays};
use script::{LineFault, Told, obey_line};
use std::process::Abort;
use std::test::Fail;
use strength::{Count, Marks, Reach};

/// What the lengths of two arrays are told, by number.
fn told(grants: usize, records: usize) -> Result<(), (u8, usize)> {
    check_arrays(grants, records).map_err(|fault| (fault.number(), fault.place))
}

#[test]
fn lengths_of_arrays(rt: HostRuntime) {
    assert_eq!(rt; told(512, 1024), Ok(()));
    assert_eq!(rt; told(513, 1025), Ok(()));
    assert_eq!(rt; told(511, 1024), Err((7, 0)));
    assert_eq!(rt; told(512, 1023), Err((7, 0)));
    assert_eq!(rt; told(1024, 512), Err((7, 0)));
    assert_eq!(rt; told(0, 0), Err((7, 0)));
}

/// Holds a line to the text that it has to leave at the front of the buffer.
fn check_obeyed(
    rt: &impl Abort,
    told: Result<Told, LineFault>,
    buffer: &[u8],
    expected: &str,
) -> Result<(), Fail> {
    let Ok(told) = told else {
        return Err(Fail::new("the buffer is refused"));
    };
    assert_eq!(rt; told.length, expected.len());
    assert!(rt; buffer.starts_with(expected.as_bytes()), "{expected:?}");
    Ok(())
}

/// Holds a line to the refusal of its buffer, which has to be blank as before.
fn check_short(
    rt: &impl Abort,
    told: Result<Told, LineFault>,
    line: usize,
    buffer: &[u8],
    blank: &[u8],
) -> Result<(), Fail> {
    let Err(told) = told else {
        return Err(Fail::new("the buffer is not refused"));
    };
    assert_eq!(rt; told.line, line);
    assert_eq!(rt; (told.fault.number(), told.fault.place()), (45, 0));
    assert!(rt; buffer == blank);
    Ok(())
}

/// What is asked with a short buffer is not done.
#[test]
fn short_buffers(rt: HostRuntime) -> Result<(), Fail> {
    let heap = rt.alloc();
    let Some(filler) = Reach::new(Count(0), Marks(0)) else {
        return Err(Fail::new("no reach"));
    };
    let book = book_of::<Reach>(heap, &EXAMPLE)?;
    let right = Right {
        step: Step(0),
        strength: filler,
    };
    let grant = Grant {
        giver: Person(0),
        receiver: Person(0),
        right,
        lot: Lot(0),
    };
    let mut grants = vec![in heap; grant; MOST_GRANTS]?;
    let mut records = vec![in heap; Record::default(); MOST_RECORDS]?;
    let mut register = Register::new(&book, &mut grants, &mut records);
    let mut buffer = [7u8; 1200];
    let mut short = [7u8; 1199];
    let blank = [7u8; 1199];
    let told = obey_line(&mut register, 5, b"o 7", &mut short);
    check_short(&rt, told, 5, &short, &blank)?;
    let told = obey_line(&mut register, 6, b"c 7", &mut buffer);
    check_obeyed(&rt, told, &buffer, "6 no 14 0\n")?;
    let told = obey_line(&mut register, 7, b"o 7", &mut buffer);
    check_obeyed(&rt, told, &buffer, "7 ok 0\n")?;
    let told = obey_line(&mut register, 8, b"g 0 1 0 0 7", &mut short);
    check_short(&rt, told, 8, &short, &blank)?;
    let told = obey_line(&mut register, 9, b"x", &mut short);
    check_short(&rt, told, 9, &short, &blank)?;
    let told = obey_line(&mut register, 10, b"c 7", &mut []);
    check_short(&rt, told, 10, &short, &blank)?;
    let told = obey_line(&mut register, 11, b"c 7", &mut buffer);
    check_obeyed(&rt, told, &buffer, "11 ok 0\n")
}
