ghost use Rattle.std.specs.Prelude.{◌≡◌, IfOk, None};
ghost use Rattle.vk_model.specs.Rules.Table.{first_fault};
ghost use Rattle.vk_validate.specs.Verdicts.{reported, IsAbout};

use crate::refusals::refusal_of;
use std::alloc::{AllocError, Global};
use std::marker::Model;
use vk_model::{At, Entry, Rule};
use vk_queues::reference_order;

/// The entries of a trace that breaks no rule. Only `validate` makes one. Contracts see the
/// entries.
#[derive(Drop)]
pub struct Accepted<'a> {
    entries: &'a [Entry],
}

impl<'a> Model for Accepted<'a> {
    ghost use Rattle.std.specs.Prelude.{◌≡◌, List, None};
    ghost use Rattle.vk_model.specs.declared.entry.Entry.{Entry as Each};
    ghost use Rattle.vk_model.specs.Rules.Table.{first_fault};

    ghost Value = { List Each };

    ghost view = { λ a. a.entries.now };

    ghost invariant = { λ a. first_fault a.entries.now ≡ None };
}

impl<'a> Accepted<'a> {
    /// The entries.
    pub fn entries(&self) -> &'a [Entry]
        ensures same { result.now ≡ self.now }
        ensures faultless { first_fault self.now ≡ None }
    {
        self.entries
    }
}

/// What is reported of a trace.
#[derive(Drop)]
pub enum Verdict<'a> {
    /// It breaks no rule.
    Accepted(Accepted<'a>),
    /// The first point that breaks a rule, and the first in the order of `Rule` that it breaks.
    Refused(At, Rule),
}

/// Says whether a trace breaks a rule, and which it breaks first. It fails only for want of memory.
///
/// The points of a trace are its entries, in order, and the waits, the commands and the signals of
/// the batches of its submits, each batch where its waits are met.
pub fn validate<'a>(alloc: Global, entries: &'a [Entry]) -> Result<Verdict<'a>, AllocError>
    ensures exact { IfOk result (λ v. reported v ≡ first_fault entries.now) }
    ensures same { IfOk result (IsAbout entries.now) }
{
    let points = reference_order(alloc, entries)?;
    match refusal_of(alloc, points.as_slice())? {
        Some(refusal) => Ok(Verdict::Refused(refusal.at, refusal.rule)),
        None => Ok(Verdict::Accepted(Accepted { entries })),
    }
}
