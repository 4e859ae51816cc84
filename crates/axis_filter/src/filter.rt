// The filter: one depth, and a run for each of the three lines.
ghost use Rattle.std.specs.Prelude.{◌≡◌, ◌<◌};
ghost use Rattle.axis_filter.specs.Filter.{filter_line, filter_lines, Short};

use crate::{Line, Lines, Raw};

// A line after a sample.
#[tactic(auto, unfolding(crate::specs::Filter::filter_line))]
fn filter_line(depth: u8, l: Line, raw: bool) -> Line
    requires { l.run < depth }
    ensures { result ≡ filter_line depth l raw }
{
    let run = l.run + 1;
    if raw == l.level {
        Line { run: 0, ..l }
    } else if run == depth {
        Line {
            level: !l.level,
            run: 0,
        }
    } else {
        Line { run, ..l }
    }
}

// The three lines after a sample.
pub fn filter(depth: u8, l: Lines, s: Raw) -> Lines
    requires { Short depth l }
    ensures { result ≡ filter_lines depth l s }
{
    Lines {
        a: filter_line(depth, l.a, s.a),
        b: filter_line(depth, l.b, s.b),
        z: filter_line(depth, l.z, s.z),
    }
}
