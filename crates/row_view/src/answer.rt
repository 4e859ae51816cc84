// The answer of view.

// What a view shows of an axis.
#[derive(Clone, Copy)]
pub struct View {
    pub kind: u8,
    pub position: i64,
    pub primed: bool,
    pub armed: bool,
    pub homed: bool,
    pub range: bool,
    pub index: bool,
    pub doubles: u16,
}
