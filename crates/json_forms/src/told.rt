//! The form of a value.
ghost use Rattle.std.specs.Prelude.{◌≡◌, filter, find};
ghost use Rattle.std.specs.Option.{option_copied, option_to_list};
ghost use Rattle.std.specs.Str.{bytes_eq};
ghost use Rattle.json.specs.Value.{value_view};
ghost use Rattle.json_forms.specs.Told.{begins_with_member, candidates, first_lead};
ghost use Rattle.json_forms.specs.Told.{fits as fits_form};
ghost use Rattle.json_forms.specs.Told.{is_hollow as hollow, is_open as open_form, IsToldOf};
ghost use Rattle.json_forms.specs.Told.{marked, name_is, row_is_open as row_open};

use crate::form::Form;
use json::Value;
use json_spots::{MarkRow, Step, has, leads};

/// The forms that are asked, in this order: those of the user, and those that are known.
#[derive(Drop)]
pub struct Forms<'t> {
    /// The first of them counts whose first list leads to something.
    pub own: Vec<Form<'t>>,
    pub known: Vec<Form<'t>>,
    /// The name of the one known form that is asked; without it each is.
    pub tool: Option<&'t str>,
}

impl<'t> Forms<'t> {
    ghost use Rattle.std.specs.Prelude.{◌≡◌};

    /// The same forms, with texts that live as long as they are lent.
    pub fn lent<'l>(&'l self) -> &'l Forms<'l>
        ensures { result.now ≡ self.now }
    {
        self
    }
}

/// The forms that a value has.
#[derive(Clone, Copy)]
pub enum Told<'f> {
    None,
    One(&'f Form<'f>),
    /// Two of them, the first ones.
    Two(&'f Form<'f>, &'f Form<'f>),
}

/// Whether a value is null, or an array or an object with nothing in it.
pub fn is_hollow(value: &Value<'_>) -> bool
    ensures { result ≡ hollow (value_view value.now) }
{
    match value {
        Value::Null => true,
        Value::Array(items) => items.as_slice().is_empty(),
        Value::Object(members) => members.as_slice().is_empty(),
        _ => false,
    }
}

fn is_member(step: &Step<'_>) -> bool
    ensures { result ≡ begins_with_member step.now }
{
    match step {
        Step::Member => true,
        _ => false,
    }
}

/// Whether a row begins with `{}`.
fn row_is_open(row: &MarkRow<'_>) -> bool
    ensures { result ≡ row_open row.now }
{
    match row.steps.as_slice() {
        [step, ..] => is_member(step),
        [] => false,
    }
}

/// Whether a form's mark has a row that begins with `{}`: such a form is asked where no other fits.
fn is_open(form: &Form<'_>) -> bool
    ensures { result ≡ open_form form.now }
{
    for row in &form.mark {
        if row_is_open(row) {
            return true;
        }
    }
    false
}

fn fits(form: &Form<'_>, is_last_asked: bool, value: &Value<'_>) -> bool
    ensures { result ≡ fits_form is_last_asked (value_view value.now) form.now }
{
    if is_open(form) == is_last_asked {
        has(&form.mark, value)
    } else {
        false
    }
}

/// Which of these forms a value has, of those that are open or of those that aren't.
fn tell<'f>(forms: &'f [Form<'f>], is_last_asked: bool, value: &Value<'_>) -> Told<'f>
    ensures { IsToldOf result (filter (fits_form is_last_asked (value_view value.now)) forms.now) }
{
    let mut one = None;
    for form in forms {
        if fits(form, is_last_asked, value) {
            match one {
                None => one = Some(form),
                Some(first) => return Told::Two(first, form),
            }
        }
    }
    match one {
        None => Told::None,
        Some(form) => Told::One(form),
    }
}

fn leads_first(form: &Form<'_>, value: &Value<'_>) -> bool
    ensures { result ≡ first_lead (value_view value.now) form.now }
{
    match form.lists.as_slice() {
        [list, ..] => leads(&list.at, value),
        [] => false,
    }
}

/// The first form whose first list leads to something.
fn own_form<'f>(forms: &'f [Form<'f>], value: &Value<'_>) -> Option<&'f Form<'f>>
    ensures { option_copied result ≡ find (first_lead (value_view value.now)) forms.now }
{
    for form in forms {
        if leads_first(form, value) {
            return Some(form);
        }
    }
    None
}

fn is_name(own: &str, name: &str) -> bool
    ensures { result ≡ bytes_eq own.now name.now }
{
    own == name
}

fn form_named<'f>(forms: &'f [Form<'f>], name: &str) -> Option<&'f Form<'f>>
    ensures { option_copied result ≡ find (name_is name.now) forms.now }
{
    for form in forms {
        if is_name(form.name, name) {
            return Some(form);
        }
    }
    None
}

/// The form of that name, if there is one.
fn tell_named<'f>(forms: &'f [Form<'f>], name: &str) -> Told<'f>
    ensures { IsToldOf result (option_to_list (find (name_is name.now) forms.now)) }
{
    match form_named(forms, name) {
        Some(form) => Told::One(form),
        None => Told::None,
    }
}

/// Which of the known forms a value has, by their marks.
#[tactic(auto, using(crate::proofs::ToldLemmas::first_none, crate::proofs::ToldLemmas::first_one, crate::proofs::ToldLemmas::first_two))]
fn tell_marked<'f>(forms: &'f [Form<'f>], value: &Value<'_>) -> Told<'f>
    ensures { IsToldOf result (marked forms.now (value_view value.now)) }
{
    match tell(forms, false, value) {
        Told::None => tell(forms, true, value),
        told => told,
    }
}

/// Which form a value has: the first of the user's that leads to something; else the known form
/// that is named; else the one whose mark the value has. A mark with a row that begins with `{}`
/// counts only if the value has no other mark.
#[tactic(auto, unfolding(crate::specs::Told::candidates))]
pub fn tell_form<'f>(forms: &'f Forms<'f>, value: &Value<'_>) -> Told<'f>
    ensures { IsToldOf result (candidates forms.now (value_view value.now)) }
{
    if let Some(form) = own_form(&forms.own, value) {
        return Told::One(form);
    }
    match forms.tool {
        Some(name) => tell_named(&forms.known, name),
        None => tell_marked(&forms.known, value),
    }
}
