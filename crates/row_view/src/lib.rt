// View: what an axis shows.
#![tactic(auto)]

ghost use Rattle.std.specs.Prelude.{◌≡◌};
ghost use Rattle.row_view.specs.View.{view_of, view_row};

use crate::answer::View;
use axis::row::Row;
use refusal::Refusal;
use row_calls::in_use::{InUse, in_use};

pub mod answer; // answer.rt: what a view answers

// What an axis shows.
fn view_of(x: InUse) -> View
    ensures { result ≡ view_of x }
{
    let axis = x.axis;
    let flags = axis.flags;
    View {
        kind: axis.config.kind,
        position: x.position(),
        primed: flags.primed,
        armed: flags.armed,
        homed: flags.homed,
        range: flags.range,
        index: flags.index,
        doubles: axis.doubles,
    }
}

// View.
pub fn view(r: Row) -> Result<View, Refusal>
    ensures { result ≡ view_row r }
{
    Ok(view_of(in_use(r)?))
}
