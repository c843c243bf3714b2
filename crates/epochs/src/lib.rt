// Epochs and phases of a trace, and what a reduction keeps of them: definitions, their English and the laws. The code is what a mode's number is.
#![tactic(auto)]

ghost use Rattle.std.specs.Prelude.{◌≡◌};
ghost use Rattle.epochs.specs.Modes.{number_of, asked};

use trace::Reason;

// FastSlim, or FastSlim-Demand.
#[derive(Clone, Copy, PartialEq, Eq)]
pub enum Mode {
    FastSlim,
    Demand,
}

// A mode's number is the kind that it writes.
impl From<Mode> for u64 {
    ghost from_gives = { λ mode n. n ≡ number_of mode };

    fn from(mode: Mode) -> u64 {
        match mode {
            Mode::FastSlim => 1,
            Mode::Demand => 2,
        }
    }
}

// No other number asks for a mode.
impl TryFrom<u64> for Mode {
    type Error = Reason;

    ghost try_from_gives = { λ n r. r ≡ asked n };

    fn try_from(n: u64) -> Result<Mode, Reason> {
        match n {
            1 => Ok(Mode::FastSlim),
            2 => Ok(Mode::Demand),
            _ => Err(Reason::BadSetting),
        }
    }
}
