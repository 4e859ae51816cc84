// What an axis is set up as.
ghost use Rattle.std.specs.Prelude.{◌≡◌};
ghost use Rattle.axis.specs.Config.{sampled_config, counter_config, good_config, setting_of, configured};

use crate::kind::Kind;

// Kind, depth, width and counts per turn, as the fields of a row hold them.
#[derive(Clone, Copy, Debug, PartialEq, Eq, Default)]
pub struct Config {
    pub kind: u8,
    pub depth: u8,
    pub width: u8,
    pub turn: u32,
}

// Counts per turn are below this number, and so is the word of a row that holds them.
pub const TURN_END: u64 = 0x1_0000_0000;

// Kind, depth, width and counts per turn as plain numbers, whatever their limits.
#[derive(Clone, Copy, Debug, PartialEq, Eq, Default)]
pub struct Setting {
    pub kind: u64,
    pub depth: u64,
    pub width: u64,
    pub turn: u64,
}

// A setting that is no configuration.
#[derive(Clone, Copy, Debug, PartialEq, Eq)]
pub struct OutsideLimits;

impl Setting {
    // Whether this is a sampled axis's configuration.
    pub fn is_sampled(self) -> bool
        ensures { result ≡ sampled_config self.kind self.depth self.width self.turn }
    {
        Kind::is_sampled(self.kind)
            & (1..=8).contains(&self.depth)
            & (self.width == 0)
            & (self.turn < TURN_END)
    }

    // Whether this is a narrow counter's configuration.
    pub fn is_counter(self) -> bool
        ensures { result ≡ counter_config self.kind self.depth self.width self.turn }
    {
        Kind::is_counter(self.kind)
            & (2..=32).contains(&self.width)
            & (self.depth == 0)
            & (self.turn == 0)
    }

    // Whether this is a configuration.
    #[tactic(auto, unfolding(crate::specs::Config::good_config))]
    pub fn is_good(self) -> bool
        ensures { result ≡ good_config self.kind self.depth self.width self.turn }
    {
        self.is_sampled() | self.is_counter()
    }
}

// The four numbers of a configuration.
impl From<Config> for Setting {
    ghost from_gives = { λ c s. s ≡ setting_of c };

    fn from(config: Config) -> Setting {
        Setting {
            kind: u64::from(config.kind),
            depth: u64::from(config.depth),
            width: u64::from(config.width),
            turn: u64::from(config.turn),
        }
    }
}

// A setting within the limits, as a configuration.
impl TryFrom<Setting> for Config {
    type Error = OutsideLimits;

    ghost try_from_gives = { λ s r. r ≡ configured s };

    #[tactic(auto, using(crate::proofs::ConfigLaws::fitting))]
    fn try_from(setting: Setting) -> Result<Config, OutsideLimits> {
        if !setting.is_good() {
            return Err(OutsideLimits);
        }
        Ok(Config {
            kind: setting.kind as u8,
            depth: setting.depth as u8,
            width: setting.width as u8,
            turn: setting.turn as u32,
        })
    }
}
