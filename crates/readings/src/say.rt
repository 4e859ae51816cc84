// Readings as text on standard output, a line each, piece by piece. Each function fails where not all of it could be written.
use refusal::Refusal;
use speed::Quotient;
use std::fmt::Display;
use std::io;
use table::look::view;
use table::saving::save;

// A value, or the reason that there is none.
pub fn answer<T: Display + Drop>(
    rt: &impl Print,
    label: &str,
    answer: Result<T, Refusal>,
) -> io::Result<()> {
    rt.print(label)?;
    match answer {
        Ok(value) => rt.print(value)?,
        Err(e) => rt.print(e)?,
    }
    rt.print("\n")
}

// A speed with its remainder, or the reason.
pub fn speed(rt: &impl Print, label: &str, answer: Result<Quotient, Refusal>) -> io::Result<()> {
    rt.print(label)?;
    match answer {
        Ok(q) => {
            rt.print(q.number)?;
            rt.print(" remainder ")?;
            rt.print(q.remainder)?;
            rt.print(" over")?;
            word(rt, q.divisor)?;
        }
        Err(e) => rt.print(e)?,
    }
    rt.print("\n")
}

// The position of a table's axis and whether HOMED and RANGE are set, or the reason.
pub fn viewed(rt: &impl Print, label: &str, table: [u64; 4]) -> io::Result<()> {
    rt.print(label)?;
    match view(&table, 0) {
        Ok(v) => {
            rt.print(v.position)?;
            if v.homed {
                rt.print(" HOMED")?;
            }
            if v.range {
                rt.print(" RANGE")?;
            }
        }
        Err(e) => rt.print(e)?,
    }
    rt.print("\n")
}

// A word behind a space.
fn word(rt: &impl Print, w: u64) -> io::Result<()> {
    print!(rt; " {w}")
}

// The words of a table.
pub fn words(rt: &impl Print, label: &str, table: [u64; 4]) -> io::Result<()> {
    rt.print(label)?;
    for w in &table {
        word(rt, *w)?;
    }
    rt.print("\n")
}

// The record of a table's axis in a buffer, byte by byte in hexadecimal, or the reason.
pub fn saved(rt: &impl Print, label: &str, table: [u64; 4], buf: &mut [u8]) -> io::Result<()> {
    rt.print(label)?;
    match save(&table, 0, buf) {
        Ok(_) => {
            for byte in buf {
                print!(rt; " {byte:02x}")?;
            }
        }
        Err(e) => {
            rt.print(" ")?;
            rt.print(e)?;
        }
    }
    rt.print("\n")
}
