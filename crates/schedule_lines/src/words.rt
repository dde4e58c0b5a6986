//! The words of a line, one after another.
ghost use Rattle.std.specs.Prelude.{◌≡◌, ◌↔◌, ◌==◌, ◌^◌, [], ◌∷◌, IsTrue, position};
ghost use Rattle.std.specs.Option.{option_copied};
ghost use Rattle.std.specs.List.{slice_split};
ghost use Rattle.schedule_lines.specs.Reading.{Gives, words_left, word_at, number_at, byte_at, name_at, end_at};

use crate::number::{byte, number32, number64, rewind};
use crate::refusal::Refusal;
use pool_model::Name;
use std::alloc::Global;
use std::marker::Model;

/// The words of a line that are left: one space stands between two of them.
#[derive(Drop)]
pub(crate) struct Words<'a> {
    /// What stands behind the space behind the last word that was taken. Nothing does behind the last word of the line.
    rest: Option<&'a [u8]>,
}

impl<'a> Model for Words<'a> {
    ghost use Rattle.std.specs.Prelude.{ℕ, List};
    ghost use Rattle.std.specs.Option.{option_copied};
    ghost use Rattle.schedule_lines.specs.Reading.{words_left};

    ghost Value = { List (List ℕ) };

    ghost view = { λ w. words_left (option_copied w.rest) };
}

fn first_space(bytes: &[u8]) -> Option<usize>
    ensures { result ≡ position (λ b. b == 32) bytes.now }
{
    bytes.iter().position(|b| *b == b' ')
}

/// The bytes before the first space, and those behind it if there is one.
fn first_word(bytes: &[u8]) -> (&[u8], Option<&[u8]>)
    ensures { slice_split (λ b. b == 32) bytes.now ≡ result.0.now ∷ words_left
        (option_copied result.1) }
{
    match first_space(bytes) {
        Some(end) => (&bytes[..end], Some(&bytes[end + 1..])),
        None => (bytes, None),
    }
}

impl<'a> Words<'a> {
    pub(crate) fn new(line: &'a [u8]) -> Words<'a>
        ensures { result ≡ slice_split (λ b. b == 32) line.now }
    {
        Words { rest: Some(line) }
    }

    pub(crate) fn word(&mut self) -> Result<&'a [u8], Refusal>
        ensures { Gives (λ w. (w.now, self.new)) result (word_at self.old) }
    {
        let Some(rest) = self.rest else {
            return Err(Refusal::Fault);
        };
        let (word, rest) = first_word(rest);
        self.rest = rest;
        Ok(word)
    }

    #[tactic(auto, unfolding(crate::specs::Reading::number_at))]
    pub(crate) fn number32(&mut self) -> Result<u32, Refusal>
        ensures { Gives (λ n. (n, self.new)) result (number_at (2 ^ 32) self.old) }
    {
        number32(self.word()?).ok_or(Refusal::Fault)
    }

    #[tactic(auto, unfolding(crate::specs::Reading::number_at))]
    pub(crate) fn number64(&mut self) -> Result<u64, Refusal>
        ensures { Gives (λ n. (n, self.new)) result (number_at (2 ^ 64) self.old) }
    {
        number64(self.word()?).ok_or(Refusal::Fault)
    }

    /// How many groups an open goes back.
    #[tactic(auto, unfolding(crate::specs::Reading::number_at))]
    pub(crate) fn rewind(&mut self) -> Result<u64, Refusal>
        ensures { Gives (λ n. (n, self.new)) result (number_at 3 self.old) }
    {
        rewind(self.word()?).ok_or(Refusal::Fault)
    }

    #[tactic(auto, unfolding(crate::specs::Reading::byte_at))]
    pub(crate) fn byte(&mut self) -> Result<u8, Refusal>
        ensures { Gives (λ b. (b, self.new)) result (byte_at self.old) }
    {
        byte(self.word()?).ok_or(Refusal::Fault)
    }

    /// A name, which need not be a good one.
    #[tactic(auto, unfolding(crate::specs::Reading::name_at))]
    pub(crate) fn name(&mut self, alloc: Global) -> Result<Name, Refusal>
        ensures { Gives (λ name. (name, self.new)) result (name_at self.old) }
    {
        let word = self.word()?;
        if word.is_empty() {
            return Err(Refusal::Fault);
        }
        Ok(Name::new(Vec::from_slice(alloc, word)?))
    }

    /// Whether no word is left.
    pub(crate) fn is_done(&self) -> bool
        ensures { IsTrue result ↔ (self.now ≡ []) }
    {
        self.rest.is_none()
    }

    /// The end of the line.
    pub(crate) fn end(&self) -> Result<(), Refusal>
        ensures { Gives (λ x. x) result (end_at self.now) }
    {
        match self.rest {
            Some(_) => Err(Refusal::Fault),
            None => Ok(()),
        }
    }
}
