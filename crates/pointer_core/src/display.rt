//! Texts of rules, pointers and refusals, written without taking memory.
ghost use Rattle.std.specs.Prelude.{◌≡◌, Some, encode_utf8};
ghost use Rattle.std.specs.Fmt.{WritesOnOk};
ghost use Rattle.pointer_core.specs.Path.{escaped, printed};
ghost use Rattle.pointer_core.specs.Rule.{rule_name, schema_rule_name};
ghost use Rattle.pointer_core.specs.Text.{refusal_text};

use crate::pointer::Pointer;
use crate::refusal::{Refusal, Rule};
use crate::schema_rule::SchemaRule;
use std::fmt;

/// The rule's name.
impl fmt::Display for Rule {
    ghost output = { λ rule. Some (rule_name rule) };

    fn fmt<W: fmt::Write>(&self, f: &mut fmt::Formatter<W>) -> fmt::Result {
        let name = self.name();
        write!(f, "{name}")
    }
}

/// The rule's name.
impl fmt::Display for SchemaRule {
    ghost output = { λ rule. Some (schema_rule_name rule) };

    fn fmt<W: fmt::Write>(&self, f: &mut fmt::Formatter<W>) -> fmt::Result {
        let name = self.name();
        write!(f, "{name}")
    }
}

/// The rule, and where it isn't met.
impl fmt::Display for Refusal {
    ghost output = { λ refusal. Some (refusal_text refusal) };

    fn fmt<W: fmt::Write>(&self, f: &mut fmt::Formatter<W>) -> fmt::Result {
        let rule = &self.rule;
        let path = &self.path;
        if path.is_root() {
            write!(f, "{rule} at the root")
        } else {
            write!(f, "{rule} at {path}")
        }
    }
}

/// The pointer's text, as RFC 6901 spells it.
impl fmt::Display for Pointer {
    ghost output = { λ pointer. Some (printed pointer) };

    fn fmt<W: fmt::Write>(&self, f: &mut fmt::Formatter<W>) -> fmt::Result {
        for token in self.tokens() {
            let escaped = Escaped(token.text());
            write!(f, "/{escaped}")?;
        }
        Ok(())
    }
}

/// A token in a pointer's text.
#[derive(Clone, Copy)]
struct Escaped<'a>(&'a str);

impl fmt::Display for Escaped<'_> {
    ghost output = { λ shown. Some (escaped shown.0.now) };

    fn fmt<W: fmt::Write>(&self, f: &mut fmt::Formatter<W>) -> fmt::Result {
        for c in self.0.chars() {
            write_escaped(f, c)?;
        }
        Ok(())
    }
}

#[tactic(auto, using(crate::proofs::Escapes::character_kept))]
fn write_escaped<W: fmt::Write>(f: &mut fmt::Formatter<W>, c: char) -> fmt::Result
    ensures { WritesOnOk W.write_str_gives f.old result (escaped (encode_utf8 c)) f.new }
{
    match c {
        '~' => write!(f, "~0"),
        '/' => write!(f, "~1"),
        _ => write!(f, "{c}"),
    }
}
