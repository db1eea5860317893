//! From a text to its problem: each item is read, resolved and let go before the tokens of the next are read.

ghost use Rattle.std.specs.Prelude.{◌≡◌, ◌≤◌, ◌<◌, ◌+◌, length, OnOk, IfErr, Ok, Err};
ghost use Rattle.fzn_item.specs.declared.item.Item.{Item};
ghost use Rattle.fzn_item.specs.Lent.{StandsFor};
ghost use Rattle.fzn_scope.specs.Checks.{Gives};
ghost use Rattle.fzn_model.specs.Items.{start};
ghost use Rattle.fzn_model.specs.Models.{longest_text, AnswersOrLacks};
ghost use Rattle.fzn_model.specs.Reading.{gave, then_item, problem_given, IsSoundGiven, prints, AreAllTaken, LeavesUnread, IsSomeItem};

use crate::resolver::Resolver;
use dcsp_common::Memory;
use dcsp_problem::{Problem, ProblemBuilder};
use fzn_item::{LentItem, next_constraint, next_lent};
use fzn_token::{ModelError, Refusal, TokenReader};
use std::alloc::Global;

/// The problem of a text of at most 16,777,216 bytes, or its first refusal.
///
/// The text is let go before the index of the problem is made, so the two never stand in memory together.
pub fn problem_of(alloc: Global, text: Vec<u8>) -> Result<Problem, ModelError>
    requires { length text.items ≤ longest_text }
    ensures { AnswersOrLacks text.items result }
{
    let built = builder_of(alloc, &text)?;
    drop(text);
    Ok(built.finish()?)
}

/// What the items of the text build, or its first refusal.
///
/// The tokens up to the next `;` are read into one buffer, and their item is resolved and let go before the next.
fn builder_of(alloc: Global, text: &[u8]) -> Result<ProblemBuilder, ModelError>
    requires { length text.now ≤ longest_text }
    ensures { AnswersOrLacks text.now result }
{
    let mut taken = Taken::new(alloc);
    taken.take_all(alloc, text)?;
    taken.finish()
}

/// Why a text is refused whose next item is read by no production.
///
/// A refusal of a token comes before all that items are refused for, so the tokens behind are read on.
fn unread(mut reader: TokenReader<'_>, error: ModelError) -> ModelError
    ensures { LeavesUnread reader.entry error result }
{
    match reader.check_rest() {
        Ok(()) => error,
        Err(refused) => refused,
    }
}

/// What the items so far gave, or the first refusal among them.
#[derive(Drop)]
struct Taken<'t> {
    resolver: Resolver<'t>,
    refused: Option<Refusal>,
}

impl<'t> Taken<'t> {
    /// Before the first item.
    fn new(alloc: Global) -> Taken<'t>
        ensures { gave result ≡ Ok start }
    {
        Taken {
            resolver: Resolver::new(alloc),
            refused: None,
        }
    }

    /// All items of a text.
    fn take_all(&mut self, alloc: Global, text: &'t [u8]) -> Result<(), ModelError>
        requires short { length text.now ≤ longest_text }
        requires fresh { gave self.old ≡ Ok start }
        ensures ok { OnOk result (AreAllTaken text.now (gave self.new)) }
        ensures err { IfErr result (λ e. AnswersOrLacks text.now (Err e)) }
    {
        let mut reader = TokenReader::new(text);
        let mut piece = Vec::new(alloc);
        'items: loop {
            reader.next_piece(&mut piece)?;
            match next_constraint(alloc, text, &piece) {
                Ok(Some(constraint)) => self.take(text, &LentItem::Constraint(constraint))?,
                Ok(None) => match next_lent(alloc, text, &piece) {
                    Ok(Some((lent, _behind))) => {
                        let done = self.take(text, &lent);
                        drop(lent);
                        done?;
                    }
                    Ok(None) => return Ok(()),
                    Err(error) => return Err(unread(reader, error)),
                },
                Err(error) => return Err(unread(reader, error)),
            }
        }
    }

    /// One item more, which changes nothing after a refusal. It is inlined where the item is known to be a constraint.
    #[inline(always)]
    fn take(&mut self, text: &'t [u8], lent: &LentItem<'_>) -> Result<(), Memory>
        requires stands { IsSomeItem lent.now }
        requires sound { IsSoundGiven (gave self.old) }
        requires room { prints (gave self.old) < longest_text }
        ensures is { OnOk result ((item : Item) → StandsFor lent.now item → gave self.new ≡ then_item text.now (gave self.old) item) }
        ensures sound { OnOk result (IsSoundGiven (gave self.new)) }
        ensures prints { OnOk result (prints (gave self.new) ≤ prints (gave self.old) + 1) }
    {
        if self.refused.is_some() {
            return Ok(());
        }
        match self.resolver.take(text, lent) {
            Ok(()) => Ok(()),
            Err(ModelError::Memory) => Err(Memory),
            Err(ModelError::Refused(refusal)) => {
                self.refused = Some(refusal);
                Ok(())
            }
        }
    }

    /// What the items build.
    fn finish(self) -> Result<ProblemBuilder, ModelError>
        ensures { Gives result (problem_given (gave self.entry)) }
    {
        match self.refused {
            Some(refusal) => Err(ModelError::Refused(refusal)),
            None => self.resolver.finish(),
        }
    }
}
