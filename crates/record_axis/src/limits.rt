// The limits of what a record says: those of the configuration and those of the position, each from its own home.
ghost use Rattle.std.specs.Prelude.{◌≡◌};
ghost use Rattle.record_axis.specs.Limits.{within_limits};

use crate::saved::Saved;
use axis::config::Setting;

// Whether a configuration and a position are within their limits.
#[tactic(auto, unfolding(crate::specs::Limits::within_limits))]
pub fn is_within(saved: Saved) -> bool
    ensures { result ≡ within_limits saved }
{
    Setting::from(saved.config).is_good() & position::in_range(saved.position)
}
