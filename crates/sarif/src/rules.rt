//! The rule of a result, and the texts of its messages.
ghost use Rattle.std.specs.Prelude.{◌≡◌, map, length, IfOk};
ghost use Rattle.sarif_log.specs.Log.{component_view, message_view, named_message_view};
ghost use Rattle.sarif_log.specs.Log.{rule_ref_view, rule_view, text_view, tool_view};
ghost use Rattle.sarif.specs.Rules.{component_of as component_named, is_text};
ghost use Rattle.sarif.specs.Rules.{message_named as last_named};
ghost use Rattle.sarif.specs.Rules.{rule_before as rule_of_beginning};
ghost use Rattle.sarif.specs.Rules.{rule_in as rule_meant};
ghost use Rattle.sarif.specs.Rules.{rule_message as message_of_rule};
ghost use Rattle.sarif.specs.Rules.{rule_with as rule_of_same_id};
ghost use Rattle.sarif.specs.Rules.{some_text as some_text_in, text_named as text_of_id};
ghost use Rattle.sarif.specs.Rules.{text_of as text_meant, text_or as text_given};
ghost use Rattle.sarif.specs.Seen.{borrowed, component_seen, message_seen, rule_seen};
ghost use Rattle.sarif.specs.Seen.{strings_view};

use crate::fill::filled;
use sarif_log::{Component, Message, NamedMessage, Rule, RuleRef, Tool};
use std::alloc::{AllocError, Global};

/// Where messages are looked up by their ids.
#[derive(Clone, Copy)]
pub(crate) struct Strings<'l> {
    pub(crate) rule: Option<&'l Rule>,
    pub(crate) component: Option<&'l Component>,
}

/// The component that a reference names: one of the extensions, or the driver where it names none.
#[tactic(auto, unfolding(crate::specs::Rules::component_of, crate::proofs::Opened::tool))]
pub(crate) fn component_of<'l>(tool: &'l Tool, rule: &RuleRef) -> Option<&'l Component>
    ensures { component_seen result ≡ component_named (tool_view tool.now)
        (rule_ref_view rule.now) }
{
    match rule.extension {
        Some(at) => tool.extensions.get(at),
        None => Some(&tool.driver),
    }
}

/// The rule of a component by its number, else by an id: the one with this id, else with its
/// longest prefix before a slash.
#[tactic(auto, unfolding(crate::specs::Rules::rule_in, crate::proofs::Opened::rules))]
pub(crate) fn rule_in<'l>(
    component: Option<&'l Component>,
    at: Option<usize>,
    id: Option<&str>,
) -> Option<&'l Rule>
    ensures { rule_seen result ≡ rule_meant (component_seen component.entry) at
        (borrowed id.entry) }
{
    let rules = &component?.rules;
    if let Some(at) = at {
        return rules.get(at);
    }
    let id = some_text(id)?;
    match rule_with(rules, id.as_bytes()) {
        Some(rule) => Some(rule),
        None => rule_before(rules, id.as_bytes()),
    }
}

#[tactic(auto, using(crate::proofs::RuleLemmas::before_rules))]
fn rule_before<'l>(rules: &'l [Rule], id: &[u8]) -> Option<&'l Rule>
    ensures { rule_seen result ≡ rule_of_beginning (map rule_view rules.now) id.now
        (length id.now) }
{
    let mut end = id.len();
    while end > 0 {
        end -= 1;
        if id[end] == b'/' {
            if let Some(rule) = rule_with(rules, &id[..end]) {
                return Some(rule);
            }
        }
    }
    None
}

/// The first rule with this id.
#[tactic(auto, unfolding(crate::specs::Rules::rule_with, sarif_log::specs::Log::rule_view))]
fn rule_with<'l>(rules: &'l [Rule], id: &[u8]) -> Option<&'l Rule>
    ensures { rule_seen result ≡ rule_of_same_id (map rule_view rules.now) id.now }
{
    for rule in rules {
        match &rule.id {
            Some(text) if text.as_bytes() == id => return Some(rule),
            _ => {}
        }
    }
    None
}

/// A text, if it isn't empty.
pub(crate) fn some_text(text: Option<&str>) -> Option<&str>
    ensures { borrowed result ≡ some_text_in (borrowed text.entry) }
{
    match text {
        Some(text) if !text.is_empty() => Some(text),
        _ => None,
    }
}

/// The text of a message, with its arguments.
#[tactic(auto, unfolding(crate::specs::Rules::text_of, sarif_log::specs::Log::message_view))]
pub(crate) fn text_of(
    alloc: Global,
    strings: Strings<'_>,
    message: &Message,
) -> Result<Option<String>, AllocError>
    ensures { IfOk result (λ text. text_view text ≡ text_meant (strings_view strings.entry)
        (message_view message.now)) }
{
    let Some(text) = text_or(strings, message) else {
        return Ok(None);
    };
    match &message.arguments {
        Some(arguments) => Ok(Some(filled(alloc, text, arguments)?)),
        None => Ok(Some(String::from_str(alloc, text)?)),
    }
}

/// The text of a message: its own, else that of its id in the rule's messages, else in the
/// component's.
#[tactic(auto, unfolding(crate::specs::Rules::text_named, crate::proofs::Opened::messages))]
fn text_or<'l>(strings: Strings<'l>, message: &'l Message) -> Option<&'l str>
    ensures { borrowed result ≡ text_given (strings_view strings.entry)
        (message_view message.now).text (message_view message.now).id }
{
    if let Some(text) = &message.text {
        return Some(text.as_str());
    }
    let id = message.id.as_deref()?;
    match rule_message(strings.rule, id) {
        Some(named) => named.text.as_deref(),
        None => message_named(&strings.component?.messages, id)?
            .text
            .as_deref(),
    }
}

#[tactic(auto, unfolding(sarif_log::specs::Log::rule_view))]
fn rule_message<'l>(rule: Option<&'l Rule>, id: &str) -> Option<&'l Message>
    ensures { message_seen result ≡ message_of_rule (rule_seen rule.entry) id.now }
{
    message_named(&rule?.messages, id)
}

/// The message of a name: the last one counts.
#[tactic(auto, using(crate::proofs::RuleLemmas::option_or_assoc), unfolding(crate::proofs::Opened::message))]
fn message_named<'l>(messages: &'l [NamedMessage], name: &str) -> Option<&'l Message>
    ensures { message_seen result ≡ last_named (map named_message_view messages.now) name.now }
{
    let mut found = None;
    for message in messages {
        if message.name.as_str() == name {
            found = Some(&message.message);
        }
    }
    found
}
