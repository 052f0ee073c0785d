//! Why a stream wasn't decoded to its end.
ghost use Rattle.std.specs.Prelude.{◌≡◌};

use ac_io::Unread;
use ac_record::FrameFault;
use ac_world::Broken;

/// Why a stream wasn't decoded to its end.
#[derive(Clone, Copy, Debug, PartialEq, Eq)]
pub enum Halt {
    /// A frame is refused.
    Stream {
        /// Its number, from 0 on.
        frame: u64,
        /// Why.
        fault: FrameFault,
    },
    /// A read failed, or the input goes on past the limit.
    Input(Unread),
    /// A sink failed.
    Sink(Broken),
}

impl From<Unread> for Halt {
    ghost use Rattle.ac_decode.specs.declared.halt.Halt.TheVariants.{Input};

    ghost from_gives = { λ why e. e ≡ Input why };

    fn from(why: Unread) -> Halt {
        Halt::Input(why)
    }
}

impl From<Broken> for Halt {
    ghost use Rattle.ac_decode.specs.declared.halt.Halt.TheVariants.{Sink};

    ghost from_gives = { λ broken e. e ≡ Sink broken };

    fn from(broken: Broken) -> Halt {
        Halt::Sink(broken)
    }
}
