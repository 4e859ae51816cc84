// What a trace has counted, and its three lines of text.
ghost use Rattle.text.specs.Text.{Writes};

use crate::put::put_line;

// The bytes of the longest report.
pub const ROOM: usize = 73;

// How many bytes were looked at, and the position and the doubles that they came to.
#[derive(Clone, Copy)]
pub struct Report {
    pub samples: u64,
    pub position: i64,
    pub doubles: u16,
}

impl Report {
    // The three lines at the front of a buffer; answers how many bytes they are.
    #[tactic(auto, using(crate::proofs::TextLaws::lines_fit))]
    pub fn write(self, out: &mut [u8; ROOM]) -> usize
        ensures { Writes self out.old out.new result }
    {
        let position_at = put_line(out, 0, b"samples ", self.samples);
        let doubles_at = put_line(out, position_at, b"position ", self.position);
        put_line(out, doubles_at, b"doubles ", self.doubles)
    }
}
