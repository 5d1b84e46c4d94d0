//! The line of a rules file: ACTION READER TYPE NAMESPACE ELEMENT RETAIN.

ghost use Rattle.std.specs.Prelude.{◌≡◌, ℕ, List, IfOk, map};
ghost use Rattle.std.specs.Borrow.{Bor};
ghost use Rattle.mdoc_outside.specs.FileLine.{line};
ghost use Rattle.consent.specs.Grammar.{ReadsLines, line_of};
ghost use Rattle.consent.specs.Rule.{action_of, readers_of, texts_of, read_flag, intent_of, rule_of};

use crate::{ReaderPattern, Rule, RuleFault, TextPattern};
use mdoc_outside::{FileLine, Memory, Octets, is_name};
use std::alloc::Global;

// `allow` or `deny`.
fn action_of(word: &[u8]) -> Option<bool>
    ensures { result ≡ action_of word.now }
{
    match word {
        b"allow" => Some(true),
        b"deny" => Some(false),
        _ => None,
    }
}

/// The flag that a word of a line file says: `0` or `1`, and no other word.
pub fn read_flag(word: &[u8]) -> Option<bool>
    ensures { result ≡ read_flag word.now }
{
    match word {
        b"0" => Some(false),
        b"1" => Some(true),
        _ => None,
    }
}

// `*`, `0` or `1`.
fn intent_of(word: &[u8]) -> Option<Option<bool>>
    ensures { result ≡ intent_of word.now }
{
    match word {
        b"*" => Some(None),
        _ => read_flag(word).map(Some),
    }
}

// `*`, `+`, or a reader's name.
fn readers_of(alloc: Global, word: &[u8]) -> Result<Option<ReaderPattern>, Memory>
    ensures { IfOk result (λ pattern. pattern ≡ readers_of word.now) }
{
    match word {
        b"*" => Ok(Some(ReaderPattern::Any)),
        b"+" => Ok(Some(ReaderPattern::Known)),
        name if is_name(name) => Ok(Some(ReaderPattern::Named(Octets::copy_of(alloc, name)?))),
        _ => Ok(None),
    }
}

// `*`, or the text itself.
fn texts_of(alloc: Global, word: &[u8]) -> Result<Option<TextPattern>, Memory>
    ensures { IfOk result (λ pattern. pattern ≡ texts_of word.now) }
{
    match word {
        b"*" => Ok(Some(TextPattern::Any)),
        name if is_name(name) => Ok(Some(TextPattern::Exactly(Octets::copy_of(alloc, name)?))),
        _ => Ok(None),
    }
}

// The rule that the words say, if they say one.
fn rule_of(alloc: Global, words: &[&[u8]]) -> Result<Option<Rule>, Memory>
    ensures { IfOk result (λ rule. rule ≡ rule_of (map (λ (word : Bor (List ℕ)). word.now) words.now)) }
{
    let [action, reader, doc_type, ns, element, retain] = words else {
        return Ok(None);
    };
    let Some(allow) = action_of(action) else {
        return Ok(None);
    };
    let Some(reader) = readers_of(alloc, reader)? else {
        return Ok(None);
    };
    let Some(doc_type) = texts_of(alloc, doc_type)? else {
        return Ok(None);
    };
    let Some(ns) = texts_of(alloc, ns)? else {
        return Ok(None);
    };
    let Some(element) = texts_of(alloc, element)? else {
        return Ok(None);
    };
    let Some(retain) = intent_of(retain) else {
        return Ok(None);
    };
    Ok(Some(Rule {
        allow,
        reader,
        doc_type,
        ns,
        element,
        retain,
    }))
}

/// The rule of a line, or the line's number where it says none.
pub(crate) fn read_rule(alloc: Global, file_line: &FileLine<'_>) -> Result<Rule, RuleFault>
    ensures { ReadsLines result (line_of rule_of (line file_line.now)) }
{
    let words: Vec<&[u8]> = file_line.words().collect(alloc)?;
    match rule_of(alloc, &words)? {
        Some(rule) => Ok(rule),
        None => Err(RuleFault::Line(file_line.number())),
    }
}
