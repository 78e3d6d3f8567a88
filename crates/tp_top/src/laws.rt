//! What holds of the text of every step.
ghost use Rattle.tp_top.specs.Laws.{ListsAreReadBack, StepsAreReadBack};

/// In a valid scenario whose names are spelled as names, the text of a step that names what exists, and whose numbers
/// are in their ranges, says this step and no other one; a mail's number has at most 15 digits there. And of at most
/// 100,000 such texts, where the scenario lists steps, these steps are read in their order. So the steps of a trace can
/// be listed, which are told by these texts.
///
/// Its body is empty: a law that only a definition states could stay unproved.
pub fn steps_are_read_back()
    ensures steps { StepsAreReadBack }
    ensures lists { ListsAreReadBack }
{}
