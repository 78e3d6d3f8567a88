//! Why a reader gives no value.
ghost use Rattle.std.specs.Prelude.{◌≡◌};

use tp_types::NoMemory;

/// Why a text is read no further.
#[derive(Clone, Copy)]
pub enum Stop {
    /// A parenthesis stands within too many others.
    Deep,
    /// No text of the grammar goes on so.
    Syntax,
    /// The reader's fuel is spent.
    Spent,
}

/// Why a reader gives no value: the text, or the want of memory.
pub enum Halt {
    Stopped(Stop),
    NoMemory,
}

impl From<NoMemory> for Halt {
    ghost use Rattle.tp_policy_text.specs.declared.halt.Halt.{Halt};

    ghost from_gives = { λ _ halt. halt ≡ Halt.NoMemory };

    fn from(_error: NoMemory) -> Halt {
        Halt::NoMemory
    }
}
