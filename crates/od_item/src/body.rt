//! The bodies of rules.
ghost use Rattle.std.specs.Prelude.{◌≡◌, ◌^◌, ◌<◌, length};
ghost use Rattle.od_rule_text.specs.Grammars.{body_of};
ghost use Rattle.od_rule_text.specs.Items.{basic, event};
ghost use Rattle.od_item.specs.Answers.{TellsPattern};
ghost use Rattle.od_grammars.specs.Grammars.{patterns};
ghost use Rattle.od_item.specs.Shown.{shown_type};

use crate::fields::RuleType;
use od_event_text::parse_event;
use od_hop::parse_hop;
use od_language::pattern_fault::PatternFault;
use od_pattern::rule::Body;
use std::alloc::Global;

/// A hop as a body.
fn basic_body(alloc: Global, text: &str) -> Result<Body, PatternFault>
    requires { length text.now < 2 ^ 32 }
    ensures { TellsPattern result (body_of patterns basic text.now) }
{
    match parse_hop(alloc, text) {
        Ok(hop) => Ok(Body::Basic(hop)),
        Err(fault) => Err(fault),
    }
}

/// An event pattern as a body.
fn event_body(alloc: Global, text: &str) -> Result<Body, PatternFault>
    requires { length text.now < 2 ^ 32 }
    ensures { TellsPattern result (body_of patterns event text.now) }
{
    match parse_event(alloc, text) {
        Ok(event) => Ok(Body::Event(event)),
        Err(fault) => Err(fault),
    }
}

/// The body that a text is in a rule of this type, or its first fault, with its place in bytes
/// from 0.
pub(crate) fn body_of(alloc: Global, rule_type: RuleType, text: &str) -> Result<Body, PatternFault>
    requires { length text.now < 2 ^ 32 }
    ensures { TellsPattern result (body_of patterns (shown_type rule_type) text.now) }
{
    match rule_type {
        RuleType::Basic => basic_body(alloc, text),
        RuleType::Event => event_body(alloc, text),
    }
}
