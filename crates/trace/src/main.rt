// Traces one x4 axis: standard input is its samples, a byte each, and what they came to goes to standard output.
#![tactic(auto)]

ghost use Rattle.std.specs.Prelude.{◌-◌, ◌<◌, ◌≡◌, min, length, Ok, IfOk, IfSome, OnOk};
ghost use Rattle.std.specs.Io.KnownBytes.{Appends, Consumes, IsAtEnd};
ghost use Rattle.text.specs.Text.{text_of};
ghost use Rattle.trace_axis.specs.Trace.{LIMIT, input_report};
ghost use Rattle.trace.specs.Input.{turn_of, found, ReadOnce, AllRead, Reported, ReportLines};

use std::io;
use std::io::{Read, Write};
use text::report::{ROOM, Report};
use trace_axis::trace::{LIMIT, Trace};

// How many bytes a read may take at once.
const SPACE: usize = 65536;

// How many bytes the next read may take: as many as are still looked at, and no more than the buffer holds.
fn room(samples: u64, held: usize) -> usize
    requires { samples < LIMIT }
    ensures { result ≡ min (LIMIT - samples) held }
{
    held.min((LIMIT - samples) as usize)
}

// One read more, of no byte that would not be looked at, whose bytes the trace is fed; answers how many they are, 0 at
// the end of the input.
fn read_once<R: Read>(reader: &mut R, trace: &mut Trace, buf: &mut [u8]) -> io::Result<usize>
    requires samples_bound { trace.old.samples < LIMIT }
    requires buf_nonzero { 0 < length buf.old }
    ensures read { ReadOnce trace.old buf.old buf.new (turn_of trace.new result) }
    ensures taken { Consumes (R.remaining reader.old) (R.remaining reader.new) (found result buf.new) }
    ensures end { result ≡ Ok 0 → IsAtEnd (R.remaining reader.new) }
{
    let room = room(trace.samples, buf.len());
    let n = reader.read(&mut buf[..room])?;
    *trace = trace.fed(&buf[..n]);
    Ok(n)
}

// The trace of the whole input: reads until it ends, a read fails or no further byte would be looked at.
fn read_all<R: Read>(reader: &mut R) -> io::Result<Trace>
    ensures { AllRead (R.remaining reader.old) (R.remaining reader.new) result }
{
    let mut buf = [0u8; SPACE];
    let mut trace = Trace::start();
    while trace.samples < LIMIT {
        if read_once(reader, &mut trace, &mut buf)? == 0 {
            break;
        }
    }
    Ok(trace)
}

// The report of the whole input, or the error where a read failed.
#[tactic(auto, using(crate::proofs::InputLaws::reported, crate::proofs::InputLaws::reported_whole))]
fn report_input<R: Read>(reader: &mut R) -> io::Result<Report>
    ensures reported { Reported result }
    ensures whole { IfOk result (λ r. IfSome (R.remaining reader.old) (λ xs. r ≡ input_report xs)) }
{
    Ok(read_all(reader)?.report())
}

// Writes the lines of the input's report, and nothing else.
#[tactic(auto, using(crate::proofs::InputLaws::writes_front))]
fn print_report<W: Write>(writer: &mut W, report: Report) -> io::Result<()>
    requires { ReportLines (text_of report) }
    ensures { OnOk result (Appends (W.contents writer.old) (W.contents writer.new) (text_of report)) }
{
    let mut lines = [0u8; ROOM];
    let n = report.write(&mut lines);
    writer.write_all(&lines[..n])
}

// Says which stream failed, and how.
fn tell(rt: &impl Eprint, stream: &str, error: io::Error) {
    let _ = eprintln!(rt; "trace: standard {stream}: {error}");
}

#[tactic(auto, using(crate::proofs::InputLaws::report_lines))]
fn main(rt: HostRuntime) {
    match report_input(&mut rt.stdin()) {
        Ok(report) => {
            if let Err(e) = print_report(&mut rt.stdout(), report) {
                tell(&rt, "output", e);
            }
        }
        Err(e) => tell(&rt, "input", e),
    }
}
