// Why words have no meaning.
ghost use Rattle.std.specs.Prelude.{◌≡◌};

use std::alloc::AllocError;
use thiserror::Error;

/// Why words give no command or no options.
#[derive(Clone, Copy, Debug, PartialEq, Eq, Error)]
pub enum WordsRefusal {
    #[error("the words have no reading")]
    NoReading,
    #[error("memory ran out")]
    NoMemory,
}

impl From<AllocError> for WordsRefusal {
    ghost use Rattle.tb_options.specs.declared.refusal.WordsRefusal.TheVariants.{NoMemory};

    ghost from_gives = { λ _ refusal. refusal ≡ NoMemory };

    fn from(_: AllocError) -> WordsRefusal {
        WordsRefusal::NoMemory
    }
}
