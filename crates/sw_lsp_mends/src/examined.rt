//! A document in which breaches were found, and what mends them.
ghost use Rattle.std.specs.Prelude.{◌≡◌, ◌≤◌, IfOk, filter, length, map, option_map};
ghost use Rattle.sw_lsp_mends.specs.Offers.{AreMends, IsFirstSite, IsOffered, IsOfferedAt};
ghost use Rattle.sw_lsp_mends.specs.Offers.{IsTried, action_of, is_touched, seen_action};
ghost use Rattle.sw_lsp_places.specs.Ranges.{AreTokensIn};
ghost use Rattle.sw_verdict.specs.Phases.{all_phases};
ghost use Rattle.sw_verdict.specs.Verdict.{Breaches};

use crate::sites::sites;
use crate::trial::{Gap, edited, is_mended};
use crate::words::{Mend, mend_for, put_in, title_of};
use std::alloc::{AllocError, Global};
use std::marker::Model;
use sw_breach::Breach;
use sw_list::ListOf;
use sw_lsp_findings::{Setting, breaches_of, diagnostic_of, is_over};
use sw_lsp_places::RangeTable;
use sw_lsp_text::{Action, Edit, Range};
use sw_text::MAX_LENGTH;

/// A document: how it is judged and shown, its address, its text with the tokens, and the breaches
/// that were found in it. Contracts see all of it.
#[derive(Drop)]
pub struct Examined<'a> {
    setting: &'a Setting,
    uri: &'a str,
    text: &'a [u8],
    table: RangeTable<'a>,
    breaches: ListOf<Breach>,
}

impl<'a> Model for Examined<'a> {
    ghost use Rattle.std.specs.Prelude.{◌≡◌};
    ghost use Rattle.sw_lsp_mends.specs.Offers.{Document};

    ghost Value = { Document };

    ghost view = { λ e. record {
      setting = e.setting.now;
      uri = e.uri.now;
      table = e.table;
      breaches = e.breaches;
    } };

    ghost invariant = { λ e. e.table.text ≡ e.text.now };
}

impl<'a> Examined<'a> {
    /// Finds the tokens and the breaches of a text.
    pub fn new(
        alloc: Global,
        setting: &'a Setting,
        uri: &'a str,
        text: &'a [u8],
    ) -> Result<Examined<'a>, AllocError>
        requires { length text.now ≤ MAX_LENGTH }
        ensures setting { IfOk result (λ e. e.setting ≡ setting.now) }
        ensures uri { IfOk result (λ e. e.uri ≡ uri.now) }
        ensures text { IfOk result (λ e. e.table.text ≡ text.now) }
        ensures tokens { IfOk result (λ e. AreTokensIn text.now e.table.tokens) }
        ensures breaches { IfOk result
            (λ e. Breaches setting.now.default all_phases text.now e.breaches) }
    {
        let breaches = breaches_of(alloc, setting.default(), text)?;
        let table = RangeTable::new(alloc, text)?;
        Ok(Examined {
            setting,
            uri,
            text,
            table,
            breaches,
        })
    }

    /// Whether a piece mends a breach, if it is put in at the position `site`, a byte offset.
    fn tries(
        &self,
        alloc: Global,
        breach: &Breach,
        piece: &str,
        site: u32,
    ) -> Result<bool, AllocError>
        ensures { IfOk result (IsTried self.now breach.now piece.now site) }
    {
        let made = edited(alloc, self.text, site, piece.as_bytes())?;
        if made.len() > MAX_LENGTH {
            return Ok(false);
        }
        let after = breaches_of(alloc, self.setting.default(), made.as_slice())?;
        let gap = Gap {
            at: site,
            len: piece.len() as u32,
        };
        let mended = is_mended(gap, breach, self.breaches.as_slice(), after.as_slice());
        Ok(mended)
    }

    /// The first position at which a piece mends a breach.
    fn first_site(
        &self,
        alloc: Global,
        breach: &Breach,
        piece: &str,
        sites: &[u32],
    ) -> Result<Option<u32>, AllocError>
        ensures { IfOk result (IsFirstSite self.now breach.now piece.now sites.now) }
    {
        for site in sites {
            if self.tries(alloc, breach, piece, *site)? {
                return Ok(Some(*site));
            }
        }
        Ok(None)
    }

    /// The words of a mend put in at a position, for a breach that stands at this word.
    fn action_of(
        &self,
        alloc: Global,
        breach: &Breach,
        mend: Mend,
        word: &str,
        site: u32,
    ) -> Result<Action, AllocError>
        ensures { IfOk result
            (λ action. seen_action action ≡ action_of self.now breach.now mend word.now site) }
    {
        let place = self.table.place_of(site as usize);
        Ok(Action {
            title: title_of(alloc, mend, word)?,
            edit: Edit {
                range: Range {
                    start: place,
                    end: place,
                },
                text: put_in(alloc, mend, word)?,
            },
            mends: diagnostic_of(alloc, self.setting, self.uri, &self.table, breach)?,
        })
    }

    /// What is offered for a breach at this word, if anything is.
    fn offer_at(
        &self,
        alloc: Global,
        breach: &Breach,
        mend: Mend,
        word: &str,
    ) -> Result<Option<Action>, AllocError>
        ensures { IfOk result (λ offered.
            IsOfferedAt self.now breach.now mend word.now (option_map seen_action offered)) }
    {
        let number = self.table.number_at(breach.at);
        let piece = put_in(alloc, mend, word)?;
        let sites = sites(alloc, &self.table, mend, number, word)?;
        match self.first_site(alloc, breach, &piece, sites.as_slice())? {
            Some(site) => {
                let action = self.action_of(alloc, breach, mend, word, site)?;
                Ok(Some(action))
            }
            None => Ok(None),
        }
    }

    /// What is offered for a breach, if anything is.
    fn offer(&self, alloc: Global, breach: &Breach) -> Result<Option<Action>, AllocError>
        ensures { IfOk result (λ offered.
            IsOffered self.now breach.now (option_map seen_action offered)) }
    {
        let Some(mend) = mend_for(breach.code) else {
            return Ok(None);
        };
        match self.table.text_at(self.table.number_at(breach.at)) {
            Some(word) => self.offer_at(alloc, breach, mend, word),
            None => Ok(None),
        }
    }

    /// What is offered for breaches, in order.
    pub fn mends(&self, alloc: Global, breaches: &[Breach]) -> Result<Vec<Action>, AllocError>
        ensures { IfOk result (λ found. AreMends self.now breaches.now (map seen_action found.items)) }
    {
        let mut found = Vec::new(alloc);
        for breach in breaches {
            match self.offer(alloc, breach)? {
                Some(action) => found.push(action)?,
                None => {}
            }
        }
        Ok(found)
    }

    /// Whether the range of a breach and a range have a place in common.
    #[tactic(auto, unfolding(crate::specs::Offers::is_touched))]
    fn is_touched(&self, range: Range, breach: &Breach) -> bool
        ensures { result ≡ is_touched self.now.table range breach.now }
    {
        let other = self.table.range_of(breach.at);
        is_over(range.start, other) || is_over(other.start, range)
    }

    /// The breaches whose ranges have a place in common with a range.
    pub fn touched(&self, alloc: Global, range: Range) -> Result<Vec<Breach>, AllocError>
        ensures { IfOk result
            (λ found. found.items ≡ filter (is_touched self.now.table range) self.now.breaches) }
    {
        self.breaches
            .as_slice()
            .iter()
            .filter(|breach| self.is_touched(range, breach))
            .copied()
            .collect(alloc)
    }
}
