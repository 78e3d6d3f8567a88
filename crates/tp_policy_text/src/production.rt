//! The productions of the grammar, each of which is read exactly.
ghost use Rattle.std.specs.Prelude.{◌≡◌, codes};
ghost use Rattle.tp_policy_text.specs.mirrors.Gives.{Gives};
ghost use Rattle.tp_policy_text.specs.Grammar as grammar;
ghost use Rattle.tp_policy_text.specs.mirrors.Readers as readers;

use crate::halt::{Halt, Stop};
use crate::reader::Reader;
use tp_types::{Action, Cond, List, Pattern, Policy, Rule};

/// The first byte of each rule.
const RULE_FIRST: u8 = b'a';

/// The And of the members; one member is itself.
fn and_of(mut members: List<Cond>) -> Cond
    ensures { result ≡ grammar.and_of members }
{
    if members.len() != 1 {
        return Cond::And(members);
    }
    match members.pop() {
        None => unreachable!(),
        Some(member) => member,
    }
}

/// The Or of the members; one member is itself.
fn or_of(mut members: List<Cond>) -> Cond
    ensures { result ≡ grammar.or_of members }
{
    if members.len() != 1 {
        return Cond::Or(members);
    }
    match members.pop() {
        None => unreachable!(),
        Some(member) => member,
    }
}

/// What a rule says behind its `on`.
#[derive(Drop)]
struct Permitted {
    pattern: Pattern,
    cond: Cond,
}

impl<'a> Reader<'a> {
    /// A condition, in which so many parentheses may stand within one another.
    #[cycle(reading)]
    fn cond(&mut self, fuel: usize, depth: usize) -> Result<Cond, Halt>
        ensures { Gives result self.new.rest.now (readers.cond_at fuel depth self.old.rest.now) }
    {
        Ok(or_of(self.conjs(fuel, depth)?))
    }

    /// Conjunctions, with `or` between two of them.
    #[cycle(reading)]
    fn conjs(&mut self, fuel: usize, depth: usize) -> Result<List<Cond>, Halt>
        ensures { Gives result self.new.rest.now
            (readers.joined_at fuel 111 (codes "or")
            (readers.conj_at fuel depth (readers.inner_at fuel depth)) self.old.rest.now) }
    {
        let mut members = List::new(self.alloc);
        for _turn in 0..fuel {
            members.push(self.conj(fuel, depth)?)?;
            if !self.comes(b'o') {
                return Ok(members);
            }
            self.token(b"or", true, ())?;
        }
        Err(Halt::Stopped(Stop::Spent))
    }

    /// Parts joined by `and`.
    #[cycle(reading)]
    fn conj(&mut self, fuel: usize, depth: usize) -> Result<Cond, Halt>
        ensures { Gives result self.new.rest.now
            (readers.conj_at fuel depth (readers.inner_at fuel depth) self.old.rest.now) }
    {
        Ok(and_of(self.parts(fuel, depth)?))
    }

    /// Parts, with `and` between two of them.
    #[cycle(reading)]
    fn parts(&mut self, fuel: usize, depth: usize) -> Result<List<Cond>, Halt>
        ensures { Gives result self.new.rest.now
            (readers.joined_at fuel 97 (codes "and")
            (readers.part_at depth (readers.inner_at fuel depth)) self.old.rest.now) }
    {
        let mut members = List::new(self.alloc);
        for _turn in 0..fuel {
            members.push(self.part(fuel, depth)?)?;
            if !self.comes(b'a') {
                return Ok(members);
            }
            self.token(b"and", true, ())?;
        }
        Err(Halt::Stopped(Stop::Spent))
    }

    /// A condition in parentheses, or an atom.
    #[cycle(reading)]
    fn part(&mut self, fuel: usize, depth: usize) -> Result<Cond, Halt>
        ensures { Gives result self.new.rest.now
            (readers.part_at depth (readers.inner_at fuel depth) self.old.rest.now) }
    {
        if !self.comes(b'(') {
            return self.atom();
        }
        if depth == 0 {
            return Err(Halt::Stopped(Stop::Deep));
        }
        self.token(b"(", false, ())?;
        let inner = self.cond(fuel, depth - 1)?;
        self.token(b")", false, ())?;
        Ok(inner)
    }

    /// What a rule is about.
    fn action(&mut self) -> Result<Option<Action>, Halt>
        ensures { Gives result self.new.rest.now (readers.action_at self.old.rest.now) }
    {
        if self.comes(b'r') {
            return self.token(b"read", true, Some(Action::Read));
        }
        if self.comes(b'w') {
            return self.token(b"write", true, Some(Action::Write));
        }
        self.token(b"any", true, None)
    }

    /// Which items a rule is about.
    fn pattern(&mut self) -> Result<Pattern, Halt>
        ensures { Gives result self.new.rest.now (readers.pattern_at self.old.rest.now) }
    {
        if self.comes(b'*') {
            return self.token(b"*", false, Pattern::All);
        }
        self.starred()
    }

    /// What a rule says behind its `on`.
    fn permitted(&mut self, fuel: usize, depth: usize) -> Result<Permitted, Halt>
        ensures { Gives result self.new.rest.now
            (readers.permitted_at fuel depth self.old.rest.now) }
    {
        let pattern = self.pattern()?;
        self.token(b"if", true, ())?;
        let cond = self.cond(fuel, depth)?;
        self.token(b";", false, ())?;
        Ok(Permitted { pattern, cond })
    }

    /// A rule.
    fn rule(&mut self, fuel: usize, depth: usize) -> Result<Rule, Halt>
        ensures { Gives result self.new.rest.now (readers.rule_at fuel depth self.old.rest.now) }
    {
        self.token(b"allow", true, ())?;
        let action = self.action()?;
        self.token(b"on", true, ())?;
        let permitted = self.permitted(fuel, depth)?;
        Ok(Rule {
            action,
            pattern: permitted.pattern,
            cond: permitted.cond,
        })
    }

    /// One rule or more, with so much fuel.
    fn rules(&mut self, fuel: usize, depth: usize) -> Result<List<Rule>, Halt>
        ensures { Gives result self.new.rest.now
            (readers.rules_at fuel fuel depth self.old.rest.now) }
    {
        let mut rules = List::new(self.alloc);
        for _turn in 0..fuel {
            rules.push(self.rule(fuel, depth)?)?;
            if !self.comes(RULE_FIRST) {
                return Ok(rules);
            }
        }
        Err(Halt::Stopped(Stop::Spent))
    }

    /// Rules up to the end of the text.
    fn some_rules(&mut self, fuel: usize, depth: usize) -> Result<Policy, Halt>
        ensures { Gives result self.new.rest.now
            (readers.rules_only fuel depth self.old.rest.now) }
    {
        let rules = self.rules(fuel, depth)?;
        if !self.rest.is_empty() {
            return Err(Halt::Stopped(Stop::Syntax));
        }
        Ok(Policy { rules })
    }

    /// A whole text.
    pub(crate) fn policy(&mut self, fuel: usize, depth: usize) -> Result<Policy, Halt>
        ensures { Gives result self.new.rest.now (readers.policy_at fuel depth self.old.rest.now) }
    {
        self.skip_blanks();
        if self.rest.is_empty() {
            return Ok(Policy {
                rules: List::new(self.alloc),
            });
        }
        self.some_rules(fuel, depth)
    }
}
