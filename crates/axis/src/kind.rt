// The kinds of axis. Their numbers have their one home here.
ghost use Rattle.std.specs.Prelude.{◌≡◌};
ghost use Rattle.axis.specs.Kind.{sampled_kind, counter_kind};

#[derive(Clone, Copy, Debug, PartialEq, Eq)]
pub struct Kind {
    pub number: u8,
}

impl Kind {
    pub const X1: u8 = 1;

    pub const X2: u8 = 2;

    pub const X4: u8 = 4;

    pub const COUNTER: u8 = 8;

    // Whether a number is that of a sampled axis.
    pub fn is_sampled(number: u64) -> bool
        ensures { result ≡ sampled_kind number }
    {
        [Kind::X1, Kind::X2, Kind::X4]
            .map(u64::from)
            .contains(&number)
    }

    // Whether a number is that of a narrow counter.
    pub fn is_counter(number: u64) -> bool
        ensures { result ≡ counter_kind number }
    {
        number == u64::from(Kind::COUNTER)
    }
}
