//! The first mention of each variable.
ghost use Rattle.std.specs.Prelude.{◌≡◌, IfOk};
ghost use Rattle.std.specs.Option.{option_to_list};
ghost use Rattle.sw_isolation_rules.specs.Captures.{mentioned, own_mentions};

use crate::listed::Listed;
use std::alloc::{AllocError, Global};
use std::marker::Model;
use sw_isolation_rules::{Mention, Note};
use sw_list::ListOf;

/// The first mentions of variables, in order. Contracts see them as their list.
#[derive(Drop)]
pub struct Firsts {
    mentions: ListOf<Mention>,
    seen: Listed,
}

impl Model for Firsts {
    ghost use Rattle.std.specs.Prelude.{◌≡◌, List};
    ghost use Rattle.std.specs.Coded.{coded_list};
    ghost use Rattle.sw_isolation_rules.specs.Captures.{variables};
    ghost use Rattle.sw_isolation_rules.specs.contracts.note.Mention as mention;
    ghost use Rattle.sw_isolation_rules.specs.declared.note.Mention.{Mention};

    ghost Value = { List Mention };

    ghost coded = { coded_list mention.the_row.coded };

    ghost view = { λ s. s.mentions };

    ghost invariant = { λ s. s.seen ≡ variables s.mentions };
}

impl Firsts {
    ghost use Rattle.std.specs.Prelude.{◌≡◌, ◌++◌, ◌∷◌, [], length, OnOk};
    ghost use Rattle.std.specs.Option.{option_to_list};
    ghost use Rattle.sw_isolation_rules.specs.Captures.{firsts_from, outer};

    /// No mention.
    fn new(alloc: Global) -> Firsts
        ensures { result ≡ [] }
    {
        Firsts {
            mentions: ListOf::new(alloc),
            seen: Listed::new(alloc),
        }
    }

    /// How many there are.
    pub fn len(&self) -> usize
        ensures { result ≡ length self.now }
    {
        self.mentions.len()
    }

    /// Lends them in order.
    pub fn as_slice(&self) -> &[Mention]
        ensures { result.now ≡ self.now }
    {
        self.mentions.as_slice()
    }

    /// Adds a mention at the end.
    fn push(&mut self, mention: Mention) -> Result<(), AllocError>
        ensures { OnOk result (self.new ≡ self.old ++ mention ∷ []) }
    {
        self.mentions.push(mention)?;
        match self.seen.push(mention.variable) {
            Ok(()) => Ok(()),
            Err(error) => {
                let _ = self.mentions.pop();
                Err(error)
            }
        }
    }

    /// Adds a mention, if it is the first of its variable.
    fn add(&mut self, mention: Mention) -> Result<(), AllocError>
        ensures { OnOk result (self.new ≡ firsts_from self.old (mention ∷ [])) }
    {
        if self.seen.contains(mention.variable) {
            Ok(())
        } else {
            self.push(mention)
        }
    }

    /// Adds a mention in a closure, if there is one, and if it is the first of a variable that is
    /// declared before the closure.
    pub fn add_outer(&mut self, closure: u32, mention: Option<Mention>) -> Result<(), AllocError>
        ensures { OnOk result (self.new
            ≡ firsts_from self.old (outer closure (option_to_list mention))) }
    {
        match mention {
            None => Ok(()),
            Some(mention) => {
                if mention.variable < closure {
                    self.add(mention)
                } else {
                    Ok(())
                }
            }
        }
    }
}

/// The mention that is noted, if it is one.
fn mention_in(note: Note) -> Option<Mention>
    ensures { option_to_list result ≡ mentioned note }
{
    match note {
        Note::Mentioned(mention) => Some(mention),
        Note::Body(_)
        | Note::Kind(_)
        | Note::Refused(_)
        | Note::Race(_)
        | Note::Var(_)
        | Note::Captures(_) => None,
    }
}

/// The first mentions of the outer variables among what is noted in a closure.
pub fn own_mentions(alloc: Global, closure: u32, inner: &[Note]) -> Result<Firsts, AllocError>
    ensures { IfOk result (λ firsts. firsts ≡ own_mentions closure inner.now) }
{
    let mut firsts = Firsts::new(alloc);
    for note in inner {
        firsts.add_outer(closure, mention_in(*note))?;
    }
    Ok(firsts)
}
