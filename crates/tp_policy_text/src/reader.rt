//! A text that is being read, token by token.
ghost use Rattle.std.specs.Prelude.{◌≡◌, ◌==◌, ◌&&◌, not, drop, codes};
ghost use Rattle.tp_types.specs.Spelling.{IsName};
ghost use Rattle.tp_policy_text.specs.Lexis as lexis;
ghost use Rattle.tp_policy_text.specs.mirrors.Gives.{Gives};
ghost use Rattle.tp_policy_text.specs.mirrors.Readers as readers;
ghost use Rattle.tp_policy_text.specs.mirrors.Readings.{mapped};
ghost use Rattle.tp_policy_text.specs.mirrors.Scans as scans;

use crate::halt::{Halt, Stop};
use crate::scan::{after_blanks, digit_reach, name_reach, number_of};
use std::alloc::Global;
use tp_types::{Cond, Name, Op, Pattern, Value, is_digit, is_name_byte};

/// A text that is being read. A token is taken with the blanks behind it.
#[derive(Drop)]
pub(crate) struct Reader<'a> {
    pub(crate) alloc: Global,
    /// What is left of the text.
    pub(crate) rest: &'a [u8],
}

#[tactic(auto, using(crate::proofs::Scans::same_bytes))]
fn is_word_true(word: &[u8]) -> bool
    ensures { result ≡ readers.same_text word.now (codes "true") }
{
    word == b"true".as_slice()
}

/// The name that the bytes spell.
fn named(bytes: &[u8]) -> Name
    requires { IsName bytes.now }
    ensures { result ≡ bytes.now }
{
    match Name::of(bytes) {
        None => unreachable!(),
        Some(name) => name,
    }
}

/// What an atom compares: an attribute that an issuer says.
#[derive(Drop)]
struct Claim {
    issuer: Name,
    attr: Name,
}

impl<'a> Reader<'a> {
    /// The byte comes next.
    pub(crate) fn comes(&self, byte: u8) -> bool
        ensures { result ≡ readers.comes byte (lexis.first self.now.rest.now) }
    {
        match self.rest.split_first() {
            None => false,
            Some((next, _)) => *next == byte,
        }
    }

    /// A letter, a digit or `_` comes next.
    fn is_in_word(&self) -> bool
        ensures { result ≡ lexis.in_word (lexis.first self.now.rest.now) }
    {
        match self.rest.split_first() {
            None => false,
            Some((next, _)) => is_name_byte(*next),
        }
    }

    /// A token that is apart is touched by what comes next.
    fn touches(&self, apart: bool) -> bool
        ensures { result ≡ (apart && lexis.in_word (lexis.first self.now.rest.now)) }
    {
        apart && self.is_in_word()
    }

    /// Passes the next byte, where there is one.
    fn forward(&mut self)
        ensures { self.new.rest.now ≡ drop 1 self.old.rest.now }
    {
        if let Some((_, others)) = self.rest.split_first() {
            self.rest = others;
        }
    }

    pub(crate) fn skip_blanks(&mut self)
        ensures { self.new.rest.now ≡ lexis.skip self.old.rest.now }
    {
        self.rest = after_blanks(self.rest);
    }

    /// Takes a token and gives the value. One that is apart ends before no letter, digit or `_`.
    pub(crate) fn token<A: Drop>(&mut self, token: &[u8], apart: bool, value: A) -> Result<A, Halt>
        ensures { Gives result self.new.rest.now
            (readers.token_at apart token.now value self.old.rest.now) }
    {
        for byte in token {
            if !self.comes(*byte) {
                return Err(Halt::Stopped(Stop::Syntax));
            }
            self.forward();
        }
        if self.touches(apart) {
            return Err(Halt::Stopped(Stop::Syntax));
        }
        self.skip_blanks();
        Ok(value)
    }

    /// A word that was taken ends here.
    fn ends(&self, word: &[u8]) -> bool
        ensures { result
            ≡ (readers.is_some_text word.now
            && not (lexis.in_word (lexis.first self.now.rest.now))) }
    {
        !word.is_empty() && !self.is_in_word()
    }

    /// The byte comes next, behind some word.
    fn comes_behind(&self, byte: u8, word: &[u8]) -> bool
        ensures { result
            ≡ (readers.comes byte (lexis.first self.now.rest.now)
            && readers.is_some_text word.now) }
    {
        self.comes(byte) && !word.is_empty()
    }

    /// The word true was taken, and ends here.
    fn is_true(&self, word: &[u8]) -> bool
        ensures { result
            ≡ (readers.same_text word.now (codes "true")
            && not (lexis.in_word (lexis.first self.now.rest.now))) }
    {
        is_word_true(word) && !self.is_in_word()
    }

    /// Takes the bytes of a name.
    fn name_bytes(&mut self) -> &'a [u8]
        ensures front { result.now ≡ scans.name_front self.old.rest.now }
        ensures rest { self.new.rest.now ≡ scans.name_rest self.old.rest.now }
    {
        let (front, rest) = self.rest.split_at(name_reach(self.rest));
        self.rest = rest;
        front
    }

    /// Takes a name.
    #[tactic(auto, using(crate::proofs::Scans::name_reads, crate::proofs::Scans::front_is_name))]
    fn name(&mut self) -> Result<Name, Halt>
        ensures { Gives result self.new.rest.now (readers.name_at self.old.rest.now) }
    {
        let bytes = self.name_bytes();
        if !self.ends(bytes) {
            return Err(Halt::Stopped(Stop::Syntax));
        }
        self.skip_blanks();
        Ok(named(bytes))
    }

    /// Takes the digits of an integer, behind its sign.
    #[tactic(auto, using(crate::proofs::Scans::front_digits, crate::proofs::Scans::front_short))]
    fn digits(&mut self, negative: bool) -> Result<i64, Halt>
        ensures { Gives result self.new.rest.now (scans.digits_at negative self.old.rest.now) }
    {
        let (digits, rest) = self.rest.split_at(digit_reach(negative, self.rest));
        self.rest = rest;
        if !self.ends(digits) {
            return Err(Halt::Stopped(Stop::Syntax));
        }
        self.skip_blanks();
        let number = number_of(digits);
        Ok(if negative { -number } else { number })
    }

    /// Takes an integer.
    #[tactic(auto, using(crate::proofs::Scans::int_plain, crate::proofs::Scans::int_signed))]
    pub(crate) fn int(&mut self) -> Result<i64, Halt>
        ensures { Gives result self.new.rest.now (readers.int_at self.old.rest.now) }
    {
        if !self.comes(b'-') {
            return self.digits(false);
        }
        self.forward();
        self.digits(true)
    }

    /// Takes a pattern other than `*`.
    #[tactic(auto, using(crate::proofs::Scans::starred_reads, crate::proofs::Scans::front_is_name))]
    pub(crate) fn starred(&mut self) -> Result<Pattern, Halt>
        ensures { Gives result self.new.rest.now (readers.starred_at self.old.rest.now) }
    {
        let name = self.name_bytes();
        if self.comes_behind(b'*', name) {
            self.forward();
            self.skip_blanks();
            return Ok(Pattern::Prefix(named(name)));
        }
        if !self.ends(name) {
            return Err(Halt::Stopped(Stop::Syntax));
        }
        self.skip_blanks();
        Ok(Pattern::Exact(named(name)))
    }

    /// Takes an attribute, behind its issuer and the dot.
    #[tactic(auto, using(crate::proofs::Scans::front_is_name))]
    fn attribute(&mut self, issuer: &[u8]) -> Result<Option<Claim>, Halt>
        requires { IsName issuer.now }
        ensures { Gives result self.new.rest.now
            (mapped scans.claim_of (scans.attr_at issuer.now self.old.rest.now)) }
    {
        let attr = self.name_bytes();
        if !self.ends(attr) {
            return Err(Halt::Stopped(Stop::Syntax));
        }
        self.skip_blanks();
        Ok(Some(Claim {
            issuer: named(issuer),
            attr: named(attr),
        }))
    }

    /// Takes the word true, for which there is None, or an issuer and an attribute.
    #[tactic(auto, using(crate::proofs::Scans::head_reads, crate::proofs::Scans::front_is_name))]
    fn head(&mut self) -> Result<Option<Claim>, Halt>
        ensures { Gives result self.new.rest.now
            (mapped scans.claim_of (readers.head_at self.old.rest.now)) }
    {
        let issuer = self.name_bytes();
        if self.comes_behind(b'.', issuer) {
            self.forward();
            return self.attribute(issuer);
        }
        if !self.is_true(issuer) {
            return Err(Halt::Stopped(Stop::Syntax));
        }
        self.skip_blanks();
        Ok(None)
    }

    /// An integer comes next.
    fn is_at_int(&self) -> bool
        ensures { result ≡ readers.begins_int (lexis.first self.now.rest.now) }
    {
        match self.rest.split_first() {
            None => false,
            Some((next, _)) => is_digit(*next) || *next == b'-',
        }
    }

    /// Takes an integer or a name.
    fn value(&mut self) -> Result<Value, Halt>
        ensures { Gives result self.new.rest.now (readers.value_at self.old.rest.now) }
    {
        if self.is_at_int() {
            Ok(Value::Number(self.int()?))
        } else {
            Ok(Value::Word(self.name()?))
        }
    }

    /// Takes `=` and what is compared to.
    fn equal_to(&mut self, claim: Claim) -> Result<Cond, Halt>
        ensures { Gives result self.new.rest.now
            (mapped (scans.compared_to claim) (readers.equal_at self.old.rest.now)) }
    {
        let op = self.token(b"=", false, Op::Equal)?;
        let value = self.value()?;
        Ok(Cond::Atom {
            issuer: claim.issuer,
            attr: claim.attr,
            op,
            value,
        })
    }

    /// Takes the sign of a bound and the integer that is the bound.
    fn bounded_by(&mut self, claim: Claim, sign: &[u8], op: Op) -> Result<Cond, Halt>
        ensures { Gives result self.new.rest.now
            (mapped (scans.compared_to claim) (readers.bound_at sign.now op self.old.rest.now)) }
    {
        let op = self.token(sign, false, op)?;
        let bound = self.int()?;
        Ok(Cond::Atom {
            issuer: claim.issuer,
            attr: claim.attr,
            op,
            value: Value::Number(bound),
        })
    }

    /// Takes a comparison of what an issuer says.
    fn comparison(&mut self, claim: Claim) -> Result<Cond, Halt>
        ensures { Gives result self.new.rest.now
            (mapped (scans.compared_to claim) (readers.compared_at self.old.rest.now)) }
    {
        if self.comes(b'=') {
            return self.equal_to(claim);
        }
        if self.comes(b'>') {
            return self.bounded_by(claim, b">=", Op::AtLeast);
        }
        self.bounded_by(claim, b"<=", Op::AtMost)
    }

    /// Takes the word true, or a comparison.
    #[tactic(auto, using(crate::proofs::Scans::atom_reads))]
    pub(crate) fn atom(&mut self) -> Result<Cond, Halt>
        ensures { Gives result self.new.rest.now (readers.atom_at self.old.rest.now) }
    {
        match self.head()? {
            None => Ok(Cond::True),
            Some(claim) => self.comparison(claim),
        }
    }
}
