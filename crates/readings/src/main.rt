// Runs the readings of docs/RULES.md that are not marked P, through the public calls, and writes each on a line. A reading that
// cannot be written ends it with an error.
#![tactic(auto)]

mod failure; // failure.rt: why the readings end early
mod say; // say.rt: answers as text

use axis::kind::Kind;
use failure::Failure;
use reckon::widening::widen;
use speed::by_count;
use table::look::speed;
use table::reading::reading;
use table_change::change::{arm, preset};
use table_change::setup::{erase, setup};
use table_port::sample;

// A table of one axis.
type Table = [u64; 4];

// A table of one axis, set up.
fn made(kind: u8, depth: u64, width: u64, turn: u64) -> Result<Table, Failure> {
    let mut table = [0; 4];
    setup(&mut table, 0, u64::from(kind), depth, width, turn)?;
    Ok(table)
}

// Its axis at another position.
fn placed(mut table: Table, position: i64) -> Result<Table, Failure> {
    preset(&mut table, 0, position)?;
    Ok(table)
}

// One port word, so many times.
fn repeat(mut table: Table, port: u64, times: u64) -> Result<Table, Failure> {
    for _ in 0..times {
        sample(&mut table, port)?;
    }
    Ok(table)
}

// A narrow counter's reading past its width, in a table and without one.
fn narrow(rt: &impl Print) -> Result<(), Failure> {
    let mut table = placed(made(Kind::COUNTER, 0, 8, 0)?, 250)?;
    let answer = reading(&mut table, 0, 256);
    say::answer(rt, "counter of width 8 at 250, reading 256: ", answer)?;
    say::answer(
        rt,
        "widening of width 8 from 250, reading 256: ",
        widen(8, 250, 256),
    )?;
    Ok(())
}

// A step that would leave the range, and one back.
fn held(rt: &impl Print) -> Result<(), Failure> {
    let before = placed(made(Kind::X4, 1, 0, 0)?, 0x3fff_ffff_ffff_ffff)?;
    let after = repeat(repeat(before, 0, 1)?, 1, 1)?;
    say::viewed(rt, "x4 at 2^62 - 1, codes 0, 1: ", after)?;
    say::viewed(rt, "then code 0: ", repeat(after, 0, 1)?)?;
    Ok(())
}

// An x4 axis with four counts a turn, armed.
fn armed() -> Result<Table, Failure> {
    let mut table = made(Kind::X4, 1, 0, 4)?;
    arm(&mut table, 0)?;
    Ok(table)
}

// One edge, Z up from code 1 on, that homes from either side.
fn homed(rt: &impl Print) -> Result<(), Failure> {
    let forward = repeat(repeat(armed()?, 0, 1)?, 5, 1)?;
    let backward = repeat(repeat(armed()?, 5, 1)?, 0, 1)?;
    say::viewed(rt, "x4 armed, code 0, then code 1 with Z: ", forward)?;
    say::viewed(rt, "x4 armed, code 1 with Z, then code 0: ", backward)?;
    Ok(())
}

// Speeds by count.
fn counted(rt: &impl Print) -> Result<(), Failure> {
    say::speed(rt, "speed by count 1, T 2001, F 1: ", by_count(1, 2001, 1))?;
    say::speed(rt, "speed by count 1, T 0, F 1: ", by_count(1, 0, 1))?;
    Ok(())
}

// Forward steps five samples apart, and the speed by period then and twelve samples later.
fn paced(rt: &impl Print) -> Result<(), Failure> {
    let first = repeat(made(Kind::X4, 1, 0, 0)?, 0, 5)?;
    let then = repeat(repeat(repeat(first, 1, 5)?, 3, 5)?, 2, 1)?;
    let later = repeat(then, 2, 12)?;
    say::speed(
        rt,
        "x4 steps 5 samples apart, F 1000: ",
        speed(&then, 0, 1000),
    )?;
    say::speed(
        rt,
        "12 samples after the last, F 1000: ",
        speed(&later, 0, 1000),
    )?;
    Ok(())
}

// The words of a setup, and a setup past its limits.
fn set_up(rt: &impl Print) -> Result<(), Failure> {
    let mut empty = [0; 4];
    say::words(
        rt,
        "setup x4, depth 3, 4096 a turn:",
        made(Kind::X4, 3, 0, 4096)?,
    )?;
    let answer = setup(&mut empty, 0, u64::from(Kind::X4), 9, 0, 4096);
    say::answer(
        rt,
        "setup x4, depth 9, 4096 a turn: ",
        answer.map(|()| "done"),
    )?;
    Ok(())
}

// A table after an erase of its axis.
fn erased(mut table: Table) -> Result<Table, Failure> {
    erase(&mut table, 0)?;
    Ok(table)
}

// A setup over a live axis, which comes before its limits, and one after an erase.
fn set_up_twice(rt: &impl Print) -> Result<(), Failure> {
    let mut table = placed(made(Kind::X4, 3, 0, 4096)?, -2)?;
    let mut freed = erased(table)?;
    let over = setup(&mut table, 0, u64::from(Kind::X4), 9, 0, 4096);
    say::answer(
        rt,
        "setup x4, depth 9, over an x4 at -2: ",
        over.map(|()| "done"),
    )?;
    say::viewed(rt, "which leaves it at: ", table)?;
    let again = setup(&mut freed, 0, u64::from(Kind::X4), 1, 0, 0);
    say::answer(
        rt,
        "setup x4, depth 1, after an erase: ",
        again.map(|()| "done"),
    )?;
    Ok(())
}

// A record, and a buffer that is a byte too short for it.
fn saved(rt: &impl Print) -> Result<(), Failure> {
    let table = placed(made(Kind::X4, 3, 0, 4096)?, -2)?;
    let mut buf = [0; 34];
    let mut short = [0; 33];
    say::saved(
        rt,
        "x4, depth 3, 4096 a turn, at -2, saved:",
        table,
        &mut buf,
    )?;
    say::saved(rt, "saved in 33 bytes:", table, &mut short)?;
    Ok(())
}

// All of them, one after another.
fn readings(rt: &impl Print) -> Result<(), Failure> {
    narrow(rt)?;
    held(rt)?;
    homed(rt)?;
    counted(rt)?;
    paced(rt)?;
    set_up(rt)?;
    set_up_twice(rt)?;
    saved(rt)
}

fn main(rt: HostRuntime) {
    if let Err(e) = readings(&rt) {
        let _ = eprintln!(rt; "readings: {e}");
    }
}
