//! Names that were declared so far.
//! The keys are the texts of the JSON itself, so no name is copied but into the scenario. A name is declared
//! where the walk comes to it; if a later fault ends the walk, the index goes with it.
ghost use Rattle.std.specs.Prelude.{◌≡◌, ◌<◌, [], length, IfOk, IfSome, OnOk};
ghost use Rattle.tp_scenario.specs.Names.{is_new, place_of, with_name};

use indexmap::IndexSet;
use std::alloc::Global;
use std::marker::Model;
use tp_types::NoMemory;

/// The names of one kind in their order, each with its place. They are the texts of the JSON that declares them.
#[derive(Drop)]
pub(crate) struct Names<'a> {
    names: IndexSet<&'a [u8]>,
}

impl<'a> Model for Names<'a> {
    ghost use Rattle.std.specs.Prelude.{◌<◌, ◌^◌, length};
    ghost use Rattle.tp_scenario.specs.Names.{Names as Seen};
    ghost use Rattle.tp_scenario.specs.mirrors.Texts.{texts};

    ghost Value = { Seen };

    ghost view = { λ n. texts n.names.keys };

    ghost invariant = { λ n. length n.names.keys < 2 ^ 32 };
}

impl<'a> Names<'a> {
    pub fn new(alloc: Global) -> Names<'a>
        ensures { result ≡ [] }
    {
        Names {
            names: IndexSet::new(alloc),
        }
    }

    /// How many names there are.
    pub fn count(&self) -> u32
        ensures { result ≡ length self.now }
    {
        self.names.len() as u32
    }

    /// The place of a name among them.
    #[tactic(auto, using(crate::proofs::NameLemmas::place_found))]
    pub fn place_of(&self, name: &[u8]) -> Option<u32>
        ensures value { result ≡ place_of name.now self.now }
        ensures within { IfSome result (λ at. at < length self.now) }
    {
        match self.names.get_index_of(name) {
            None => None,
            Some(at) => Some(at as u32),
        }
    }

    /// Adds a name at the end where it is new, and tells whether it is. More than four thousand million find no room.
    #[tactic(auto, using(crate::proofs::NameLemmas::name_added, crate::proofs::NameLemmas::name_found))]
    pub fn declare(&mut self, name: &'a [u8]) -> Result<bool, NoMemory>
        ensures new { IfOk result (λ new. new ≡ is_new name.now self.old) }
        ensures names { OnOk result (self.new ≡ with_name name.now self.old) }
    {
        if self.names.len() >= u32::MAX as usize {
            return Err(NoMemory);
        }
        Ok(self.names.insert(name)?)
    }
}

/// The names of all kinds.
#[derive(Drop)]
pub(crate) struct Declared<'a> {
    pub admins: Names<'a>,
    pub creds: Names<'a>,
    pub servers: Names<'a>,
    pub items: Names<'a>,
    pub txns: Names<'a>,
}
