//! What a log says, read from its JSON value. A key that is left out says nothing.
ghost use Rattle.std.specs.Prelude.{◌≡◌, [], map, option_map, string_bytes, unwrap_or, Some, IfOk};
ghost use Rattle.json.specs.Find.{as_str};
ghost use Rattle.json.specs.Value.{value_view};
ghost use Rattle.sarif_log.specs.Log.{artifact_of, artifact_view, artifacts_of};
ghost use Rattle.sarif_log.specs.Log.{baseline_state_at as baseline_state_there};
ghost use Rattle.sarif_log.specs.Log.{baseline_state_named as baseline_state_of_name, change_of};
ghost use Rattle.sarif_log.specs.Log.{change_view, changes_of, column_kind_at as column_kind_there};
ghost use Rattle.sarif_log.specs.Log.{column_kind_named as column_kind_of_name, component_of};
ghost use Rattle.sarif_log.specs.Log.{component_view, components_of, counting_of, counting_view};
ghost use Rattle.sarif_log.specs.Log.{log_result_of, log_result_view, log_results_of, fix_of};
ghost use Rattle.sarif_log.specs.Log.{fix_view, fixes_of, invocation_of, invocation_view};
ghost use Rattle.sarif_log.specs.Log.{invocations_of, items_of as items_there};
ghost use Rattle.sarif_log.specs.Log.{level_at as level_there, level_named as level_of_name};
ghost use Rattle.sarif_log.specs.Log.{list_at as list_there, location_of, location_view};
ghost use Rattle.sarif_log.specs.Log.{locations_of, log_of, log_view, member_view};
ghost use Rattle.sarif_log.specs.Log.{members_at as members_there, members_of as members_in};
ghost use Rattle.sarif_log.specs.Log.{message_of, message_view, named_message_of};
ghost use Rattle.sarif_log.specs.Log.{named_message_view, named_messages_of, uri_base_of};
ghost use Rattle.sarif_log.specs.Log.{uri_base_view, uri_bases_of, names_of, names_view};
ghost use Rattle.sarif_log.specs.Log.{notification_of, notification_view, notifications_of};
ghost use Rattle.sarif_log.specs.Log.{artifact_location_of, artifact_location_view, region_of};
ghost use Rattle.sarif_log.specs.Log.{replacement_of, replacement_view, replacements_of};
ghost use Rattle.sarif_log.specs.Log.{result_kind_at as result_kind_there};
ghost use Rattle.sarif_log.specs.Log.{result_kind_named as result_kind_of_name, rule_of};
ghost use Rattle.sarif_log.specs.Log.{rule_ref_of, rule_ref_view, rule_view, rules_of, run_of};
ghost use Rattle.sarif_log.specs.Log.{run_view, runs_of, seen, status_at as status_there};
ghost use Rattle.sarif_log.specs.Log.{status_named as status_of_name, suppression_of};
ghost use Rattle.sarif_log.specs.Log.{suppression_view, suppressions_of, text_at as text_there};
ghost use Rattle.sarif_log.specs.Log.{text_view, texts_at as texts_there, texts_of, tool_of};
ghost use Rattle.sarif_log.specs.Log.{tool_view, under as value_there, whole_at as whole_there};

use crate::log::{
    Artifact, ArtifactLocation, BaselineState, Change, ColumnKind, Component, Counting, Fix,
    Invocation, Level, Location, Log, LogResult, Message, NamedMessage, Names, Notification,
    Region, Replacement, ResultKind, Rule, RuleRef, Run, Status, Suppression, Tool, UriBase,
};
use json::Value;
use numerals::number_of;
use std::alloc::{AllocError, Global};

/// The value under a key.
fn under<'v, 'd>(it: Option<&'v Value<'d>>, key: &str) -> Option<&'v Value<'d>>
    ensures { seen result ≡ value_there key.now (seen it.entry) }
{
    it?.get(key)
}

/// The text under a key.
#[tactic(auto, unfolding(crate::specs::Log::text_at))]
fn text_at(alloc: Global, it: Option<&Value<'_>>, key: &str) -> Result<Option<String>, AllocError>
    ensures { IfOk result (λ text. text_view text ≡ text_there key.now (seen it.entry)) }
{
    match under(it, key).and_then(Value::as_str) {
        Some(text) => Ok(Some(String::from_str(alloc, text)?)),
        None => Ok(None),
    }
}

/// The whole number under a key.
#[tactic(auto, unfolding(crate::specs::Log::whole_at))]
fn whole_at(it: Option<&Value<'_>>, key: &str) -> Option<usize>
    ensures { result ≡ whole_there key.now (seen it.entry) }
{
    under(it, key)
        .and_then(Value::as_number)
        .and_then(number_of)
}

/// The items of a list.
fn items_of<'v, 'd>(value: &'v Value<'d>) -> &'v [Value<'d>]
    ensures { map value_view result.now ≡ items_there (value_view value.now) }
{
    match value {
        Value::Array(items) => items.as_slice(),
        _ => &[],
    }
}

/// The list under a key, or an empty one.
#[tactic(auto, unfolding(crate::specs::Log::list_at))]
fn list_at<'v, 'd>(it: Option<&'v Value<'d>>, key: &str) -> &'v [Value<'d>]
    ensures { map value_view result.now ≡ list_there key.now (seen it.entry) }
{
    match under(it, key) {
        Some(value) => items_of(value),
        None => no_items(),
    }
}

fn no_items<'v, 'd>() -> &'v [Value<'d>]
    ensures { result.now ≡ [] }
{
    &[]
}

/// The list of texts under a key, if it is there.
#[tactic(auto, unfolding(crate::specs::Log::texts_at))]
fn texts_at(
    alloc: Global,
    it: Option<&Value<'_>>,
    key: &str,
) -> Result<Option<Vec<String>>, AllocError>
    ensures { IfOk result (λ found. option_map (λ list. map string_bytes list.items) found
        ≡ texts_there key.now (seen it.entry)) }
{
    match under(it, key) {
        Some(value) => Ok(Some(texts(alloc, items_of(value))?)),
        None => Ok(None),
    }
}

#[tactic(auto, unfolding(crate::specs::Log::texts_of))]
fn texts(alloc: Global, values: &[Value<'_>]) -> Result<Vec<String>, AllocError>
    ensures { IfOk result (λ found. map string_bytes found.items
        ≡ texts_of (map value_view values.now)) }
{
    let mut found = Vec::with_capacity(alloc, values.len())?;
    for value in values {
        found.push(text(alloc, value)?)?;
    }
    Ok(found)
}

fn text(alloc: Global, value: &Value<'_>) -> Result<String, AllocError>
    ensures { IfOk result (λ found. string_bytes found ≡ unwrap_or (as_str (value_view value.now))
        []) }
{
    match value.as_str() {
        Some(text) => String::from_str(alloc, text),
        None => Ok(String::new(alloc)),
    }
}

#[tactic(auto, unfolding(crate::specs::Log::level_at))]
fn level_at(it: Option<&Value<'_>>, key: &str) -> Option<Level>
    ensures { result ≡ level_there key.now (seen it.entry) }
{
    under(it, key).and_then(Value::as_str).and_then(level_named)
}

fn level_named(name: &str) -> Option<Level>
    ensures { result ≡ level_of_name name.now }
{
    match name {
        "none" => Some(Level::None),
        "note" => Some(Level::Note),
        "warning" => Some(Level::Warning),
        "error" => Some(Level::Error),
        _ => None,
    }
}

#[tactic(auto, unfolding(crate::specs::Log::column_kind_at))]
fn column_kind_at(it: Option<&Value<'_>>, key: &str) -> Option<ColumnKind>
    ensures { result ≡ column_kind_there key.now (seen it.entry) }
{
    under(it, key)
        .and_then(Value::as_str)
        .and_then(column_kind_named)
}

fn column_kind_named(name: &str) -> Option<ColumnKind>
    ensures { result ≡ column_kind_of_name name.now }
{
    match name {
        "utf16CodeUnits" => Some(ColumnKind::Utf16),
        "unicodeCodePoints" => Some(ColumnKind::Characters),
        _ => None,
    }
}

#[tactic(auto, unfolding(crate::specs::Log::result_kind_at))]
fn result_kind_at(it: Option<&Value<'_>>, key: &str) -> Option<ResultKind>
    ensures { result ≡ result_kind_there key.now (seen it.entry) }
{
    under(it, key)
        .and_then(Value::as_str)
        .and_then(result_kind_named)
}

fn result_kind_named(name: &str) -> Option<ResultKind>
    ensures { result ≡ result_kind_of_name name.now }
{
    match name {
        "notApplicable" => Some(ResultKind::NotApplicable),
        "pass" => Some(ResultKind::Pass),
        "fail" => Some(ResultKind::Fail),
        "review" => Some(ResultKind::Review),
        "open" => Some(ResultKind::Open),
        "informational" => Some(ResultKind::Informational),
        _ => None,
    }
}

#[tactic(auto, unfolding(crate::specs::Log::baseline_state_at))]
fn baseline_state_at(it: Option<&Value<'_>>, key: &str) -> Option<BaselineState>
    ensures { result ≡ baseline_state_there key.now (seen it.entry) }
{
    under(it, key)
        .and_then(Value::as_str)
        .and_then(baseline_state_named)
}

fn baseline_state_named(name: &str) -> Option<BaselineState>
    ensures { result ≡ baseline_state_of_name name.now }
{
    match name {
        "new" => Some(BaselineState::New),
        "unchanged" => Some(BaselineState::Unchanged),
        "updated" => Some(BaselineState::Updated),
        "absent" => Some(BaselineState::Absent),
        _ => None,
    }
}

#[tactic(auto, unfolding(crate::specs::Log::status_at))]
fn status_at(it: Option<&Value<'_>>, key: &str) -> Option<Status>
    ensures { result ≡ status_there key.now (seen it.entry) }
{
    under(it, key)
        .and_then(Value::as_str)
        .and_then(status_named)
}

fn status_named(name: &str) -> Option<Status>
    ensures { result ≡ status_of_name name.now }
{
    match name {
        "accepted" => Some(Status::Accepted),
        "underReview" => Some(Status::UnderReview),
        "rejected" => Some(Status::Rejected),
        _ => None,
    }
}

#[tactic(auto, unfolding(crate::specs::Log::message_of, crate::specs::Log::message_view))]
fn message(alloc: Global, it: Option<&Value<'_>>) -> Result<Message, AllocError>
    ensures { IfOk result (λ found. message_view found ≡ message_of (seen it.entry)) }
{
    Ok(Message {
        text: text_at(alloc, it, "text")?,
        id: text_at(alloc, it, "id")?,
        arguments: texts_at(alloc, it, "arguments")?,
    })
}

#[tactic(auto, unfolding(crate::specs::Log::artifact_location_of, crate::specs::Log::artifact_location_view))]
fn artifact_location(alloc: Global, it: Option<&Value<'_>>) -> Result<ArtifactLocation, AllocError>
    ensures { IfOk result (λ found. artifact_location_view found
        ≡ artifact_location_of (seen it.entry)) }
{
    Ok(ArtifactLocation {
        uri: text_at(alloc, it, "uri")?,
        base: text_at(alloc, it, "uriBaseId")?,
        index: whole_at(it, "index"),
    })
}

#[tactic(auto, unfolding(crate::specs::Log::region_of))]
fn region(it: Option<&Value<'_>>) -> Option<Region>
    ensures { result ≡ region_of (seen it.entry) }
{
    let there = Some(it?);
    Some(Region {
        start_line: whole_at(there, "startLine"),
        start_column: whole_at(there, "startColumn"),
        end_line: whole_at(there, "endLine"),
        end_column: whole_at(there, "endColumn"),
        char_offset: whole_at(there, "charOffset"),
        char_length: whole_at(there, "charLength"),
        byte_offset: whole_at(there, "byteOffset"),
        byte_length: whole_at(there, "byteLength"),
    })
}

#[tactic(auto, unfolding(crate::specs::Log::location_of, crate::specs::Log::location_view))]
fn location(alloc: Global, it: Option<&Value<'_>>) -> Result<Location, AllocError>
    ensures { IfOk result (λ found. location_view found ≡ location_of (seen it.entry)) }
{
    Ok(Location {
        artifact: artifact_location(
            alloc,
            under(under(it, "physicalLocation"), "artifactLocation"),
        )?,
        region: region(under(under(it, "physicalLocation"), "region")),
        message: message(alloc, under(it, "message"))?,
    })
}

#[tactic(auto, unfolding(crate::specs::Log::locations_of))]
fn locations(alloc: Global, values: &[Value<'_>]) -> Result<Vec<Location>, AllocError>
    ensures { IfOk result (λ found. map location_view found.items
        ≡ locations_of (map value_view values.now)) }
{
    let mut found = Vec::with_capacity(alloc, values.len())?;
    for value in values {
        found.push(location(alloc, Some(value))?)?;
    }
    Ok(found)
}

#[tactic(auto, unfolding(crate::specs::Log::rule_ref_of, crate::specs::Log::rule_ref_view))]
fn rule_ref(alloc: Global, it: Option<&Value<'_>>) -> Result<RuleRef, AllocError>
    ensures { IfOk result (λ found. rule_ref_view found ≡ rule_ref_of (seen it.entry)) }
{
    Ok(RuleRef {
        id: text_at(alloc, it, "id")?,
        index: whole_at(it, "index"),
        extension: whole_at(under(it, "toolComponent"), "index"),
    })
}

#[tactic(auto, unfolding(crate::specs::Log::named_message_of, crate::specs::Log::named_message_view))]
fn named_message(alloc: Global, member: &(&str, Value<'_>)) -> Result<NamedMessage, AllocError>
    ensures { IfOk result (λ found. named_message_view found
        ≡ named_message_of (member_view member.now)) }
{
    Ok(NamedMessage {
        name: String::from_str(alloc, member.0)?,
        message: message(alloc, Some(&member.1))?,
    })
}

#[tactic(auto, unfolding(crate::specs::Log::named_messages_of))]
fn named_messages(
    alloc: Global,
    members: &Vec<(&str, Value<'_>)>,
) -> Result<Vec<NamedMessage>, AllocError>
    ensures { IfOk result (λ found. map named_message_view found.items
        ≡ named_messages_of (map member_view members.now.items)) }
{
    let mut found = Vec::with_capacity(alloc, members.len())?;
    for member in members {
        found.push(named_message(alloc, member)?)?;
    }
    Ok(found)
}

#[tactic(auto, unfolding(crate::specs::Log::named_messages_of))]
fn named_messages_in(alloc: Global, value: &Value<'_>) -> Result<Vec<NamedMessage>, AllocError>
    ensures { IfOk result (λ found. map named_message_view found.items
        ≡ named_messages_of (members_in (value_view value.now))) }
{
    match value {
        Value::Object(members) => named_messages(alloc, members),
        _ => Ok(Vec::new(alloc)),
    }
}

#[tactic(auto, unfolding(crate::specs::Log::members_at, crate::specs::Log::named_messages_of))]
fn named_messages_at(
    alloc: Global,
    it: Option<&Value<'_>>,
    key: &str,
) -> Result<Vec<NamedMessage>, AllocError>
    ensures { IfOk result (λ found. map named_message_view found.items
        ≡ named_messages_of (members_there key.now (seen it.entry))) }
{
    match under(it, key) {
        Some(value) => named_messages_in(alloc, value),
        None => Ok(Vec::new(alloc)),
    }
}

#[tactic(auto, unfolding(crate::specs::Log::uri_base_of, crate::specs::Log::uri_base_view))]
fn uri_base(alloc: Global, member: &(&str, Value<'_>)) -> Result<UriBase, AllocError>
    ensures { IfOk result (λ found. uri_base_view found ≡ uri_base_of (member_view member.now)) }
{
    Ok(UriBase {
        name: String::from_str(alloc, member.0)?,
        location: artifact_location(alloc, Some(&member.1))?,
    })
}

#[tactic(auto, unfolding(crate::specs::Log::uri_bases_of))]
fn uri_bases(alloc: Global, members: &Vec<(&str, Value<'_>)>) -> Result<Vec<UriBase>, AllocError>
    ensures { IfOk result (λ found. map uri_base_view found.items
        ≡ uri_bases_of (map member_view members.now.items)) }
{
    let mut found = Vec::with_capacity(alloc, members.len())?;
    for member in members {
        found.push(uri_base(alloc, member)?)?;
    }
    Ok(found)
}

#[tactic(auto, unfolding(crate::specs::Log::uri_bases_of))]
fn uri_bases_in(alloc: Global, value: &Value<'_>) -> Result<Vec<UriBase>, AllocError>
    ensures { IfOk result (λ found. map uri_base_view found.items
        ≡ uri_bases_of (members_in (value_view value.now))) }
{
    match value {
        Value::Object(members) => uri_bases(alloc, members),
        _ => Ok(Vec::new(alloc)),
    }
}

#[tactic(auto, unfolding(crate::specs::Log::members_at, crate::specs::Log::uri_bases_of))]
fn uri_bases_at(
    alloc: Global,
    it: Option<&Value<'_>>,
    key: &str,
) -> Result<Vec<UriBase>, AllocError>
    ensures { IfOk result (λ found. map uri_base_view found.items
        ≡ uri_bases_of (members_there key.now (seen it.entry))) }
{
    match under(it, key) {
        Some(value) => uri_bases_in(alloc, value),
        None => Ok(Vec::new(alloc)),
    }
}

#[tactic(auto, unfolding(crate::specs::Log::rule_of, crate::specs::Log::rule_view))]
fn rule(alloc: Global, it: Option<&Value<'_>>) -> Result<Rule, AllocError>
    ensures { IfOk result (λ found. rule_view found ≡ rule_of (seen it.entry)) }
{
    Ok(Rule {
        id: text_at(alloc, it, "id")?,
        help_uri: text_at(alloc, it, "helpUri")?,
        level: level_at(under(it, "defaultConfiguration"), "level"),
        messages: named_messages_at(alloc, it, "messageStrings")?,
    })
}

#[tactic(auto, unfolding(crate::specs::Log::rules_of))]
fn rules(alloc: Global, values: &[Value<'_>]) -> Result<Vec<Rule>, AllocError>
    ensures { IfOk result (λ found. map rule_view found.items
        ≡ rules_of (map value_view values.now)) }
{
    let mut found = Vec::with_capacity(alloc, values.len())?;
    for value in values {
        found.push(rule(alloc, Some(value))?)?;
    }
    Ok(found)
}

#[tactic(auto, unfolding(crate::specs::Log::component_of, crate::specs::Log::component_view))]
fn component(alloc: Global, it: Option<&Value<'_>>) -> Result<Component, AllocError>
    ensures { IfOk result (λ found. component_view found ≡ component_of (seen it.entry)) }
{
    Ok(Component {
        name: text_at(alloc, it, "name")?,
        rules: rules(alloc, list_at(it, "rules"))?,
        messages: named_messages_at(alloc, it, "globalMessageStrings")?,
    })
}

#[tactic(auto, unfolding(crate::specs::Log::components_of))]
fn components(alloc: Global, values: &[Value<'_>]) -> Result<Vec<Component>, AllocError>
    ensures { IfOk result (λ found. map component_view found.items
        ≡ components_of (map value_view values.now)) }
{
    let mut found = Vec::with_capacity(alloc, values.len())?;
    for value in values {
        found.push(component(alloc, Some(value))?)?;
    }
    Ok(found)
}

#[tactic(auto, unfolding(crate::specs::Log::suppression_of))]
fn suppression(_alloc: Global, it: Option<&Value<'_>>) -> Result<Suppression, AllocError>
    ensures { IfOk result (λ found. found ≡ suppression_of (seen it.entry)) }
{
    Ok(Suppression {
        status: status_at(it, "status"),
    })
}

#[tactic(auto, unfolding(crate::specs::Log::suppressions_of))]
fn suppressions(alloc: Global, values: &[Value<'_>]) -> Result<Vec<Suppression>, AllocError>
    ensures { IfOk result (λ found. map suppression_view found.items
        ≡ suppressions_of (map value_view values.now)) }
{
    let mut found = Vec::with_capacity(alloc, values.len())?;
    for value in values {
        found.push(suppression(alloc, Some(value))?)?;
    }
    Ok(found)
}

#[tactic(auto, unfolding(crate::specs::Log::replacement_of, crate::specs::Log::replacement_view))]
fn replacement(alloc: Global, it: Option<&Value<'_>>) -> Result<Replacement, AllocError>
    ensures { IfOk result (λ found. replacement_view found ≡ replacement_of (seen it.entry)) }
{
    Ok(Replacement {
        deleted: region(under(it, "deletedRegion")),
        inserted: text_at(alloc, under(it, "insertedContent"), "text")?,
    })
}

#[tactic(auto, unfolding(crate::specs::Log::replacements_of))]
fn replacements(alloc: Global, values: &[Value<'_>]) -> Result<Vec<Replacement>, AllocError>
    ensures { IfOk result (λ found. map replacement_view found.items
        ≡ replacements_of (map value_view values.now)) }
{
    let mut found = Vec::with_capacity(alloc, values.len())?;
    for value in values {
        found.push(replacement(alloc, Some(value))?)?;
    }
    Ok(found)
}

#[tactic(auto, unfolding(crate::specs::Log::change_of, crate::specs::Log::change_view))]
fn change(alloc: Global, it: Option<&Value<'_>>) -> Result<Change, AllocError>
    ensures { IfOk result (λ found. change_view found ≡ change_of (seen it.entry)) }
{
    Ok(Change {
        artifact: artifact_location(alloc, under(it, "artifactLocation"))?,
        replacements: replacements(alloc, list_at(it, "replacements"))?,
    })
}

#[tactic(auto, unfolding(crate::specs::Log::changes_of))]
fn changes(alloc: Global, values: &[Value<'_>]) -> Result<Vec<Change>, AllocError>
    ensures { IfOk result (λ found. map change_view found.items
        ≡ changes_of (map value_view values.now)) }
{
    let mut found = Vec::with_capacity(alloc, values.len())?;
    for value in values {
        found.push(change(alloc, Some(value))?)?;
    }
    Ok(found)
}

#[tactic(auto, unfolding(crate::specs::Log::fix_of, crate::specs::Log::fix_view))]
fn fix(alloc: Global, it: Option<&Value<'_>>) -> Result<Fix, AllocError>
    ensures { IfOk result (λ found. fix_view found ≡ fix_of (seen it.entry)) }
{
    Ok(Fix {
        changes: changes(alloc, list_at(it, "artifactChanges"))?,
    })
}

#[tactic(auto, unfolding(crate::specs::Log::fixes_of))]
fn fixes(alloc: Global, values: &[Value<'_>]) -> Result<Vec<Fix>, AllocError>
    ensures { IfOk result (λ found. map fix_view found.items
        ≡ fixes_of (map value_view values.now)) }
{
    let mut found = Vec::with_capacity(alloc, values.len())?;
    for value in values {
        found.push(fix(alloc, Some(value))?)?;
    }
    Ok(found)
}

#[tactic(auto, unfolding(crate::specs::Log::log_result_of, crate::specs::Log::log_result_view))]
fn log_result(alloc: Global, it: Option<&Value<'_>>) -> Result<LogResult, AllocError>
    ensures { IfOk result (λ found. log_result_view found ≡ log_result_of (seen it.entry)) }
{
    Ok(LogResult {
        rule_id: text_at(alloc, it, "ruleId")?,
        rule_index: whole_at(it, "ruleIndex"),
        rule: rule_ref(alloc, under(it, "rule"))?,
        level: level_at(it, "level"),
        kind: result_kind_at(it, "kind"),
        message: message(alloc, under(it, "message"))?,
        locations: locations(alloc, list_at(it, "locations"))?,
        related: locations(alloc, list_at(it, "relatedLocations"))?,
        suppressions: suppressions(alloc, list_at(it, "suppressions"))?,
        baseline: baseline_state_at(it, "baselineState"),
        fixes: fixes(alloc, list_at(it, "fixes"))?,
    })
}

#[tactic(auto, unfolding(crate::specs::Log::log_results_of))]
fn log_results(alloc: Global, values: &[Value<'_>]) -> Result<Vec<LogResult>, AllocError>
    ensures { IfOk result (λ found. map log_result_view found.items
        ≡ log_results_of (map value_view values.now)) }
{
    let mut found = Vec::with_capacity(alloc, values.len())?;
    for value in values {
        found.push(log_result(alloc, Some(value))?)?;
    }
    Ok(found)
}

#[tactic(auto, unfolding(crate::specs::Log::notification_of, crate::specs::Log::notification_view))]
fn notification(alloc: Global, it: Option<&Value<'_>>) -> Result<Notification, AllocError>
    ensures { IfOk result (λ found. notification_view found ≡ notification_of (seen it.entry)) }
{
    Ok(Notification {
        descriptor: rule_ref(alloc, under(it, "descriptor"))?,
        level: level_at(it, "level"),
        message: message(alloc, under(it, "message"))?,
        locations: locations(alloc, list_at(it, "locations"))?,
    })
}

#[tactic(auto, unfolding(crate::specs::Log::notifications_of))]
fn notifications(alloc: Global, values: &[Value<'_>]) -> Result<Vec<Notification>, AllocError>
    ensures { IfOk result (λ found. map notification_view found.items
        ≡ notifications_of (map value_view values.now)) }
{
    let mut found = Vec::with_capacity(alloc, values.len())?;
    for value in values {
        found.push(notification(alloc, Some(value))?)?;
    }
    Ok(found)
}

#[tactic(auto, unfolding(crate::specs::Log::invocation_of, crate::specs::Log::invocation_view))]
fn invocation(alloc: Global, it: Option<&Value<'_>>) -> Result<Invocation, AllocError>
    ensures { IfOk result (λ found. invocation_view found ≡ invocation_of (seen it.entry)) }
{
    Ok(Invocation {
        configuration: notifications(alloc, list_at(it, "toolConfigurationNotifications"))?,
        execution: notifications(alloc, list_at(it, "toolExecutionNotifications"))?,
    })
}

#[tactic(auto, unfolding(crate::specs::Log::invocations_of))]
fn invocations(alloc: Global, values: &[Value<'_>]) -> Result<Vec<Invocation>, AllocError>
    ensures { IfOk result (λ found. map invocation_view found.items
        ≡ invocations_of (map value_view values.now)) }
{
    let mut found = Vec::with_capacity(alloc, values.len())?;
    for value in values {
        found.push(invocation(alloc, Some(value))?)?;
    }
    Ok(found)
}

#[tactic(auto, unfolding(crate::specs::Log::artifact_of, crate::specs::Log::artifact_view))]
fn artifact(alloc: Global, it: Option<&Value<'_>>) -> Result<Artifact, AllocError>
    ensures { IfOk result (λ found. artifact_view found ≡ artifact_of (seen it.entry)) }
{
    Ok(Artifact {
        location: artifact_location(alloc, under(it, "location"))?,
        contents: text_at(alloc, under(it, "contents"), "text")?,
    })
}

#[tactic(auto, unfolding(crate::specs::Log::artifacts_of))]
fn artifacts(alloc: Global, values: &[Value<'_>]) -> Result<Vec<Artifact>, AllocError>
    ensures { IfOk result (λ found. map artifact_view found.items
        ≡ artifacts_of (map value_view values.now)) }
{
    let mut found = Vec::with_capacity(alloc, values.len())?;
    for value in values {
        found.push(artifact(alloc, Some(value))?)?;
    }
    Ok(found)
}

#[tactic(auto, unfolding(crate::specs::Log::tool_of, crate::specs::Log::tool_view))]
fn tool(alloc: Global, it: Option<&Value<'_>>) -> Result<Tool, AllocError>
    ensures { IfOk result (λ found. tool_view found ≡ tool_of (seen it.entry)) }
{
    Ok(Tool {
        driver: component(alloc, under(it, "driver"))?,
        extensions: components(alloc, list_at(it, "extensions"))?,
    })
}

#[tactic(auto, unfolding(crate::specs::Log::counting_of, crate::specs::Log::counting_view))]
fn counting(alloc: Global, it: Option<&Value<'_>>) -> Result<Counting, AllocError>
    ensures { IfOk result (λ found. counting_view found ≡ counting_of (seen it.entry)) }
{
    Ok(Counting {
        newline_sequences: texts_at(alloc, it, "newlineSequences")?,
        columns: column_kind_at(it, "columnKind"),
    })
}

#[tactic(auto, unfolding(crate::specs::Log::names_of, crate::specs::Log::names_view))]
fn names(alloc: Global, it: Option<&Value<'_>>) -> Result<Names, AllocError>
    ensures { IfOk result (λ found. names_view found ≡ names_of (seen it.entry)) }
{
    Ok(Names {
        bases: uri_bases_at(alloc, it, "originalUriBaseIds")?,
        artifacts: artifacts(alloc, list_at(it, "artifacts"))?,
    })
}

#[tactic(auto, unfolding(crate::specs::Log::run_of, crate::specs::Log::run_view))]
fn run(alloc: Global, it: Option<&Value<'_>>) -> Result<Run, AllocError>
    ensures { IfOk result (λ found. run_view found ≡ run_of (seen it.entry)) }
{
    Ok(Run {
        tool: tool(alloc, under(it, "tool"))?,
        counting: counting(alloc, it)?,
        names: names(alloc, it)?,
        invocations: invocations(alloc, list_at(it, "invocations"))?,
        results: log_results(alloc, list_at(it, "results"))?,
    })
}

#[tactic(auto, unfolding(crate::specs::Log::runs_of))]
fn runs(alloc: Global, values: &[Value<'_>]) -> Result<Vec<Run>, AllocError>
    ensures { IfOk result (λ found. map run_view found.items
        ≡ runs_of (map value_view values.now)) }
{
    let mut found = Vec::with_capacity(alloc, values.len())?;
    for value in values {
        found.push(run(alloc, Some(value))?)?;
    }
    Ok(found)
}

/// What the log says.
#[tactic(auto, unfolding(crate::specs::Log::log_of, crate::specs::Log::log_view))]
pub(crate) fn log(alloc: Global, value: &Value<'_>) -> Result<Log, AllocError>
    ensures { IfOk result (λ found. log_view found ≡ log_of (value_view value.now)) }
{
    Ok(Log {
        runs: runs(alloc, list_at(Some(value), "runs"))?,
    })
}
