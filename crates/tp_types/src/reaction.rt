//! The reactions that most rows give.
ghost use Rattle.std.specs.Prelude.{◌≡◌, Some, None, [], ◌∷◌, IfOk};

use crate::list::{List, NoMemory};
use crate::mail::{Letter, Reaction};
use crate::records::Record;
use crate::spare::Spare;
use std::alloc::Global;

/// Nothing is logged or sent.
pub fn nothing(alloc: Global) -> Reaction
    ensures { result ≡ record { append = None; letters = [] } }
{
    Reaction {
        append: None,
        letters: List::new(alloc),
    }
}

/// The mail is ignored: nothing is logged or sent.
pub fn ignored(alloc: Global) -> Reaction
    ensures { result ≡ record { append = None; letters = [] } }
{
    nothing(alloc)
}

/// One letter is sent.
pub fn sent_alone(spare: &mut Spare<Letter>, letter: Letter) -> Result<Reaction, NoMemory>
    ensures { IfOk result (λ reaction. reaction ≡ record { append = None; letters = letter ∷ [] }) }
{
    let letters = spare.list_of(letter)?;
    Ok(Reaction {
        append: None,
        letters,
    })
}

/// A record is forced, and then one letter is sent.
pub fn forced_and_sent(
    spare: &mut Spare<Letter>,
    forced: Record,
    letter: Letter,
) -> Result<Reaction, NoMemory>
    ensures { IfOk result (λ reaction.
        reaction ≡ record { append = Some forced; letters = letter ∷ [] }) }
{
    Ok(Reaction {
        append: Some(forced),
        letters: spare.list_of(letter)?,
    })
}
