//! Steps into a value, and paths.

/// A step into a value.
#[derive(Clone, Copy)]
pub enum Step<'t> {
    /// The member of this name.
    Key(&'t str),
    /// The element at this index, from 0.
    Nth(usize),
    /// Each element.
    Each,
    /// Each member.
    Member,
}

/// The way from a spot to a value: out by some values, and then the name there, or steps in.
#[derive(Drop)]
pub struct Path<'t> {
    pub out: usize,
    /// Whether it is the name under which the value there is a member.
    pub is_name: bool,
    pub steps: Vec<Step<'t>>,
}

/// What a value should have been.
#[derive(Clone, Copy)]
pub enum Wanted {
    Array,
    Object,
    Text,
    Number,
    Message,
    /// Anything but null.
    Value,
    /// A value of a known form.
    Form,
    /// A value of one form, and not of two.
    OneForm,
}
