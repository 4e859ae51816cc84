// What a record says of an axis.
use axis::config::Config;

// A configuration and a position.
#[derive(Clone, Copy)]
pub struct Saved {
    pub config: Config,
    pub position: i64,
}
