// One sampled axis by value, fed bytes: one byte is one port sample.
ghost use Rattle.std.specs.Prelude.{◌≡◌, [], ◌∷◌};
ghost use Rattle.trace_axis.specs.Trace.{started, fed_with, report_of};

use axis::kind::Kind;
use table::look::view;
use table_change::setup::setup;
use table_port::sample;
use text::report::Report;

// How many bytes are looked at in all.
pub const LIMIT: u64 = 0xffff_ffff;

// A table of one axis, and how many bytes were looked at.
#[derive(Clone, Copy)]
pub struct Trace {
    pub words: [u64; 4],
    pub samples: u64,
}

impl Trace {
    // One x4 axis at depth 1 with no counts per turn, before its first byte.
    #[tactic(auto, unfolding(crate::specs::Trace::started))]
    pub fn start() -> Trace
        ensures { result ≡ started }
    {
        let mut words = [0u64; 4];
        let _ = setup(&mut words, 0, u64::from(Kind::X4), 1, 0, 0);
        Trace { words, samples: 0 }
    }

    // The trace after one byte more; past the limit it is not looked at.
    #[tactic(auto, using(crate::proofs::TraceLaws::past_limit, crate::proofs::TraceLaws::fed_sample))]
    fn taken(mut self, byte: u8) -> Trace
        ensures { result ≡ fed_with self (byte ∷ []) }
    {
        if self.samples < LIMIT {
            let _ = sample(&mut self.words, u64::from(byte));
            self.samples += 1;
        }
        self
    }

    // The trace after bytes, oldest first; those past the limit are not looked at.
    pub fn fed(self, bytes: &[u8]) -> Trace
        ensures { result ≡ fed_with self bytes.now }
    {
        bytes.iter().fold(self, |trace, byte| trace.taken(*byte))
    }

    // How many bytes were looked at, and the axis's position and doubles.
    #[tactic(auto, unfolding(crate::specs::Trace::report_of))]
    pub fn report(self) -> Report
        ensures { result ≡ report_of self }
    {
        let (position, doubles) = match view(&self.words, 0) {
            Ok(v) => (v.position, v.doubles),
            Err(_) => (0, 0),
        };
        Report {
            samples: self.samples,
            position,
            doubles,
        }
    }
}
