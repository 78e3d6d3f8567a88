//! The words of a text, one after another.
ghost use Rattle.std.specs.Prelude.{◌≡◌, ◌≤◌, ◌∷◌, [], length, option_map, IfSome, IfNone};
ghost use Rattle.tp_model.specs.Limits.{is_empty};
ghost use Rattle.tp_model.specs.Queries.{only};
ghost use Rattle.tp_scenario.specs.Words as words;
ghost use Rattle.tp_scenario.specs.mirrors.Texts.{words_left};

use std::marker::Model;

/// The words that are left of a text. Contracts see them as a list.
#[derive(Drop)]
pub(crate) struct Words<'a> {
    /// What stands behind the words that were taken, and behind the spaces after them.
    rest: Option<&'a [u8]>,
}

impl<'a> Model for Words<'a> {
    ghost use Rattle.std.specs.Prelude.{ℕ, List};
    ghost use Rattle.tp_scenario.specs.mirrors.Texts.{words_left};

    ghost Value = { List (List ℕ) };

    ghost view = { λ w. words_left w.rest };
}

/// How many bytes stand before the first space.
fn reach(text: &[u8]) -> usize
    ensures value { result ≡ words.reach text.now }
    ensures within { result ≤ length text.now }
{
    for (count, byte) in text.iter().enumerate() {
        if *byte == b' ' {
            return count;
        }
    }
    text.len()
}

/// What stands behind the spaces in front.
fn behind_spaces(text: &[u8]) -> &[u8]
    ensures { result.now ≡ words.skip_spaces text.now }
{
    for (count, byte) in text.iter().enumerate() {
        if *byte != b' ' {
            return text.split_at(count).1;
        }
    }
    &[]
}

/// What stands behind a word and the spaces after it, where there are some.
fn behind_word(text: &[u8]) -> Option<&[u8]>
    ensures { option_map (λ t. t.now) result ≡ words.behind_word text.now }
{
    if text.is_empty() {
        None
    } else {
        Some(behind_spaces(text))
    }
}

impl<'a> Words<'a> {
    pub fn of(text: &'a [u8]) -> Words<'a>
        ensures { result ≡ words.words_of text.now }
    {
        Words { rest: Some(text) }
    }

    /// Takes the next word.
    #[tactic(auto, using(crate::proofs::WordLemmas::word_taken))]
    pub fn next(&mut self) -> Option<&'a [u8]>
        ensures some { IfSome result (λ word. self.old ≡ word.now ∷ self.new) }
        ensures none { IfNone result ((self.old ≡ []) × (self.new ≡ [])) }
    {
        let text = self.rest?;
        let (word, behind) = text.split_at(reach(text));
        self.rest = behind_word(behind);
        Some(word)
    }

    /// No word is left.
    #[tactic(auto, using(crate::proofs::WordLemmas::some_left))]
    pub fn is_at_end(&self) -> bool
        ensures { result ≡ is_empty self.now }
    {
        self.rest.is_none()
    }

    /// What is left of the text, with its spaces, where a word is left.
    pub fn left(self) -> Option<&'a [u8]>
        ensures { words_left result ≡ self.entry }
    {
        self.rest
    }

    /// The one word that is left.
    pub fn only(&mut self) -> Option<&'a [u8]>
        ensures { option_map (λ word. word.now) result ≡ only self.old }
    {
        let word = self.next()?;
        if self.is_at_end() { Some(word) } else { None }
    }
}
