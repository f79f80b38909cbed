ghost use Rattle.std.specs.Prelude.{◌≡◌, ◌++◌};
ghost use Rattle.session_spec.specs.Texts.{line_feed};
ghost use Rattle.chia_sim.specs.Stops.{status_of, words_of, stop_of_input, stop_of_words};
ghost use Rattle.chia_sim.specs.declared.stop.Stop.TheVariants as because;

use coin_facts::OutOfMemory;
use ports_io::InputFault;
use tool_words::WordsFault;

/// Why the program does no command.
#[derive(Clone, Copy, Debug, PartialEq, Eq)]
pub(crate) enum Stop {
    /// The words aren't a command.
    Words,
    ReadFault,
    OutOfMemory,
    /// The input has more than 67,108,864 bytes.
    TooLong,
}

impl Stop {
    /// The status that the program ends with.
    pub(crate) fn status(self) -> u8
        ensures { result ≡ status_of self }
    {
        match self {
            Stop::Words => 2,
            Stop::ReadFault => 3,
            Stop::OutOfMemory => 5,
            Stop::TooLong => 7,
        }
    }

    /// The line that the program writes.
    pub(crate) fn line(self) -> &'static str
        ensures { result.now ≡ words_of self ++ line_feed }
    {
        match self {
            Stop::Words => "words\n",
            Stop::ReadFault => "read fault\n",
            Stop::OutOfMemory => "memory\n",
            Stop::TooLong => "too long\n",
        }
    }
}

impl From<InputFault> for Stop {
    ghost from_gives = { λ fault stop. stop ≡ stop_of_input fault };

    fn from(fault: InputFault) -> Stop {
        match fault {
            InputFault::Fault => Stop::ReadFault,
            InputFault::TooLong => Stop::TooLong,
            InputFault::OutOfMemory => Stop::OutOfMemory,
        }
    }
}

impl From<OutOfMemory> for Stop {
    ghost from_gives = { λ _ stop. stop ≡ because.OutOfMemory };

    fn from(_: OutOfMemory) -> Stop {
        Stop::OutOfMemory
    }
}

impl From<WordsFault> for Stop {
    ghost from_gives = { λ fault stop. stop ≡ stop_of_words fault };

    fn from(fault: WordsFault) -> Stop {
        match fault {
            WordsFault::Words => Stop::Words,
            WordsFault::OutOfMemory => Stop::OutOfMemory,
        }
    }
}
