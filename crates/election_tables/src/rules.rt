//! The rules from 4 on, over the typed lists of a document (docs/FORMATS.md, "Election tables").
ghost use Rattle.std.specs.Prelude.{◌≡◌, IfOk};
ghost use Rattle.election_tables.specs.Rules.{first_broken, typed_rules};

mod candidates;
mod distinct;
mod federations;
mod fields;
mod offices;
mod ranges;

use crate::document::Document;
use federations::all_members;
pub use fields::{first_two, has_digits};
use std::alloc::{AllocError, Global};

impl Document {
    /// The number of the first of the rules from 4 on that doesn't hold. Each rule is tested over the whole document
    /// before the next, so the lists are short where rules 9, 10 and 16 look through them.
    #[tactic(auto, unfolding(crate::specs::Rules::typed_rules))]
    pub(crate) fn broken_rule(&self, alloc: Global) -> Result<Option<u8>, AllocError>
        ensures { IfOk result (λ k. k ≡ first_broken 4 (typed_rules self.now)) }
    {
        if !self.keeps_rule_4() {
            return Ok(Some(4));
        }
        if !self.keeps_rule_5(alloc)? {
            return Ok(Some(5));
        }
        if !self.keeps_rule_6() {
            return Ok(Some(6));
        }
        if !self.keeps_rule_7() {
            return Ok(Some(7));
        }
        if !self.keeps_rule_8(alloc)? {
            return Ok(Some(8));
        }
        if !self.keeps_rule_9() {
            return Ok(Some(9));
        }
        if !self.keeps_rule_10() {
            return Ok(Some(10));
        }
        if !self.keeps_rule_11(alloc)? {
            return Ok(Some(11));
        }
        if !self.keeps_rule_12() {
            return Ok(Some(12));
        }
        if !self.keeps_rule_13(alloc)? {
            return Ok(Some(13));
        }
        if !self.keeps_rule_14() {
            return Ok(Some(14));
        }
        if !self.keeps_rule_15() {
            return Ok(Some(15));
        }
        let members = all_members(alloc, &self.federations)?;
        if !self.keeps_rule_16(&members) {
            return Ok(Some(16));
        }
        if !self.keeps_rule_17(members) {
            return Ok(Some(17));
        }
        Ok(None)
    }
}
