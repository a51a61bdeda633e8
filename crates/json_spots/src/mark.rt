//! Marks: which values are there, and of which kinds.
ghost use Rattle.std.specs.Prelude.{◌≡◌, option_map};
ghost use Rattle.json.specs.Value.{items_view, members_view, value_view};
ghost use Rattle.json_spots.specs.Mark.{some_found, some_item, some_member};
ghost use Rattle.json_spots.specs.Mark.{has as has_mark, holds as row_holds};
ghost use Rattle.json_spots.specs.Mark.{leads as leads_somewhere, leads_to as leads_there};
ghost use Rattle.json_spots.specs.Mark.{takes as takes_kind};

use crate::step::Step;
use json::Value;

/// Kinds of values.
#[derive(Clone, Copy)]
pub struct Kinds {
    pub text: bool,
    pub number: bool,
    pub array: bool,
    pub object: bool,
    pub boolean: bool,
    pub null: bool,
    /// No value at all.
    pub nothing: bool,
}

/// All kinds of values.
const ANY: Kinds = Kinds {
    text: true,
    number: true,
    array: true,
    object: true,
    boolean: true,
    null: true,
    nothing: false,
};

/// All kinds but null.
const SOME: Kinds = Kinds {
    text: true,
    number: true,
    array: true,
    object: true,
    boolean: true,
    null: false,
    nothing: false,
};

/// A row of a mark: some value to which the steps lead is of one of these kinds; or there is none,
/// if the kinds have nothing.
#[derive(Drop)]
pub struct MarkRow<'t> {
    pub steps: Vec<Step<'t>>,
    pub kinds: Kinds,
}

fn takes(kinds: Kinds, value: &Value<'_>) -> bool
    ensures { result ≡ takes_kind kinds (value_view value.now) }
{
    match value {
        Value::Null => kinds.null,
        Value::Bool(_) => kinds.boolean,
        Value::Number(_) => kinds.number,
        Value::String(_) => kinds.text,
        Value::Array(_) => kinds.array,
        Value::Object(_) => kinds.object,
    }
}

/// Whether some value to which steps lead is of one of these kinds.
#[cycle(leads)]
#[tactic(auto, unfolding(crate::specs::Mark::leads_to))]
fn leads_to(kinds: Kinds, steps: &[Step<'_>], value: &Value<'_>) -> bool
    ensures { result ≡ leads_there kinds steps.now (value_view value.now) }
{
    let Some((step, rest)) = steps.split_first() else {
        return takes(kinds, value);
    };
    match (*step, value) {
        (Step::Key(name), _) => found_leads(kinds, rest, value.get(name)),
        (Step::Nth(at), _) => found_leads(kinds, rest, value.at(at)),
        (Step::Each, Value::Array(items)) => item_leads(kinds, rest, items),
        (Step::Member, Value::Object(members)) => member_leads(kinds, rest, members),
        _ => false,
    }
}

#[cycle(leads)]
fn found_leads(kinds: Kinds, steps: &[Step<'_>], value: Option<&Value<'_>>) -> bool
    ensures { result ≡ some_found (leads_there kinds steps.now)
        (option_map (λ v. value_view v.now) value.entry) }
{
    match value {
        Some(value) => leads_to(kinds, steps, value),
        None => false,
    }
}

#[cycle(leads)]
fn item_leads(kinds: Kinds, steps: &[Step<'_>], items: &Vec<Value<'_>>) -> bool
    ensures { result ≡ some_item (leads_there kinds steps.now) (items_view items.now.items) }
{
    for item in items {
        if leads_to(kinds, steps, item) {
            return true;
        }
    }
    false
}

#[cycle(leads)]
fn member_leads(kinds: Kinds, steps: &[Step<'_>], members: &Vec<(&str, Value<'_>)>) -> bool
    ensures { result ≡ some_member (leads_there kinds steps.now) (members_view members.now.items) }
{
    for member in members {
        if leads_to(kinds, steps, &member.1) {
            return true;
        }
    }
    false
}

/// Whether steps lead to some value that isn't null.
#[tactic(auto, unfolding(crate::specs::Mark::leads))]
pub fn leads(steps: &[Step<'_>], value: &Value<'_>) -> bool
    ensures { result ≡ leads_somewhere steps.now (value_view value.now) }
{
    leads_to(SOME, steps, value)
}

/// Whether a row of a mark holds of a value.
#[tactic(auto, unfolding(crate::specs::Mark::holds))]
pub fn holds(row: &MarkRow<'_>, value: &Value<'_>) -> bool
    ensures { result ≡ row_holds row.now (value_view value.now) }
{
    if leads_to(row.kinds, &row.steps, value) {
        return true;
    }
    row.kinds.nothing && !leads_to(ANY, &row.steps, value)
}

/// Whether a value has a mark: whether each row holds.
#[tactic(auto, unfolding(crate::specs::Mark::has))]
pub fn has(mark: &[MarkRow<'_>], value: &Value<'_>) -> bool
    ensures { result ≡ has_mark mark.now (value_view value.now) }
{
    for row in mark {
        if !holds(row, value) {
            return false;
        }
    }
    true
}
