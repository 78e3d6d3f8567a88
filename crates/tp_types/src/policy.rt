//! Policies: rules over what a subject's credentials say.
ghost use Rattle.std.specs.Prelude.{◌≡◌, IfOk};

use crate::list::{List, NoMemory, TryClone};
use crate::name::Name;
use crate::results::both;
use std::alloc::Global;

/// What a query does to an item.
#[derive(Clone, Copy, Debug, PartialEq)]
pub enum Action {
    Read,
    Write,
}

impl TryClone for Action {
    fn try_clone(&self, _alloc: Global) -> Result<Self, NoMemory> {
        Ok(*self)
    }
}

/// A value that a credential has. A number never equals a word.
#[derive(Drop)]
pub enum Value {
    Number(i64),
    Word(Name),
}

impl TryClone for Value {
    fn try_clone(&self, alloc: Global) -> Result<Self, NoMemory> {
        match self {
            Value::Number(number) => Ok(Value::Number(*number)),
            Value::Word(word) => Ok(Value::Word(word.try_clone(alloc)?)),
        }
    }
}

/// How an atom compares. Words are compared by `Equal` alone.
#[derive(Clone, Copy)]
pub enum Op {
    Equal,
    AtLeast,
    AtMost,
}

impl TryClone for Op {
    fn try_clone(&self, _alloc: Global) -> Result<Self, NoMemory> {
        Ok(*self)
    }
}

/// A condition. The lists of `And` and `Or` have at least two members.
#[derive(Drop)]
pub enum Cond {
    True,
    Atom {
        issuer: Name,
        attr: Name,
        op: Op,
        value: Value,
    },
    And(List<Cond>),
    Or(List<Cond>),
}

impl TryClone for Cond {
    #[cycle(cloning)]
    fn try_clone(&self, alloc: Global) -> Result<Self, NoMemory> {
        match self {
            Cond::True => Ok(Cond::True),
            Cond::Atom {
                issuer,
                attr,
                op,
                value,
            } => {
                let names = both(issuer.try_clone(alloc), attr.try_clone(alloc));
                let ((issuer, attr), value) = both(names, value.try_clone(alloc))?;
                Ok(Cond::Atom {
                    issuer,
                    attr,
                    op: *op,
                    value,
                })
            }
            Cond::And(members) => Ok(Cond::And(cloned(alloc, members.as_slice())?)),
            Cond::Or(members) => Ok(Cond::Or(cloned(alloc, members.as_slice())?)),
        }
    }
}

#[cycle(cloning)]
fn cloned(alloc: Global, members: &[Cond]) -> Result<List<Cond>, NoMemory>
    ensures { IfOk result (λ made. made ≡ members.now) }
{
    let mut made = List::new(alloc);
    for member in members {
        made.push(member.try_clone(alloc)?)?;
    }
    Ok(made)
}

/// Which items a rule is about: all, one by name, or those whose name begins so.
#[derive(Drop)]
pub enum Pattern {
    All,
    Exact(Name),
    Prefix(Name),
}

impl TryClone for Pattern {
    fn try_clone(&self, alloc: Global) -> Result<Self, NoMemory> {
        match self {
            Pattern::All => Ok(Pattern::All),
            Pattern::Exact(name) => Ok(Pattern::Exact(name.try_clone(alloc)?)),
            Pattern::Prefix(name) => Ok(Pattern::Prefix(name.try_clone(alloc)?)),
        }
    }
}

/// One rule of a policy; without an action it is about any.
#[derive(Drop)]
pub struct Rule {
    pub action: Option<Action>,
    pub pattern: Pattern,
    pub cond: Cond,
}

impl TryClone for Rule {
    fn try_clone(&self, alloc: Global) -> Result<Self, NoMemory> {
        let (pattern, cond) = both(self.pattern.try_clone(alloc), self.cond.try_clone(alloc))?;
        Ok(Rule {
            action: self.action,
            pattern,
            cond,
        })
    }
}

/// A policy. It allows what one of its rules allows, so without rules it denies all.
#[derive(Drop)]
pub struct Policy {
    pub rules: List<Rule>,
}

impl TryClone for Policy {
    fn try_clone(&self, alloc: Global) -> Result<Self, NoMemory> {
        Ok(Policy {
            rules: self.rules.try_clone(alloc)?,
        })
    }
}
