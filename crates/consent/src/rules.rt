//! The holder's rules.

ghost use Rattle.std.specs.Prelude.{◌≡◌, ℕ, List, option_copied};
ghost use Rattle.consent.specs.Grammar.{ReadsLines};
ghost use Rattle.consent.specs.Rules.{approved, rules_of};
ghost use Rattle.consent.specs.Wish.{wanted};

use crate::rule_line::read_rule;
use crate::{Rule, RuleFault, Wish};
use mdoc_outside::{Octets, lines_of};
use std::alloc::Global;
use std::marker::Model;

/// The holder's rules, in order, which a contract sees as the list of them.
#[derive(Drop)]
pub struct Rules {
    rules: Vec<Rule>,
}

impl Model for Rules {
    ghost use Rattle.std.specs.Prelude.{List};
    ghost use Rattle.consent.specs.declared.rule.Rule.{Rule};

    ghost Value = { List Rule };

    ghost view = { λ r. r.rules.items };
}

impl Rules {
    /// The rules that a text spells, one a line, else its first line outside the grammar.
    pub fn read(alloc: Global, text: &[u8]) -> Result<Rules, RuleFault>
        ensures { ReadsLines result (rules_of text.now) }
    {
        let mut rules = Vec::new(alloc);
        for line in lines_of(text) {
            rules.push(read_rule(alloc, &line)?)?;
        }
        Ok(Rules { rules })
    }

    /// Whether the rules allow the wish of a reader, which is unknown where it has no name: the first
    /// rule that matches decides, and none denies.
    pub fn allows(&self, wish: &Wish<'_>, reader: Option<&str>) -> bool
        ensures { result ≡ approved self.now (option_copied reader.entry) (wanted wish.now) }
    {
        for rule in &self.rules {
            if rule.is_match(wish, reader) {
                return rule.allow;
            }
        }
        false
    }
}
