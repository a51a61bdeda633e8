//! Forms: how to recognize a tool's JSON, and where its findings are.
use json_spots::{MarkRow, Path, Step};
use oxc_protocol::Severity;

/// What columns and offsets count.
#[derive(Clone, Copy)]
pub enum Unit {
    Bytes,
    Characters,
    /// UTF-16 units.
    Utf16,
    /// Cells, with tab stops of 4.
    Cells4,
    /// Cells, with tab stops of 8.
    Cells8,
    /// UTF-16 units, with tab stops of 8.
    Cells8Utf16,
}

/// What is asked of what is said at a path.
#[derive(Clone, Copy)]
pub enum Ask {
    /// It says something: it isn't missing, null or an empty text.
    There,
    /// It isn't missing or null.
    Given,
    /// It is missing or null.
    Missing,
    /// It is one of these words.
    Is,
    /// It begins with one of these words.
    Begins,
    /// It ends with one of these words.
    Ends,
    /// It is missing, or begins with none of these words.
    BeginsOther,
}

/// A condition on an element.
#[derive(Drop)]
pub struct Guard<'t> {
    pub path: Path<'t>,
    pub ask: Ask,
    pub words: Vec<&'t str>,
}

/// What a list says of its findings.
#[derive(Drop)]
pub enum Row<'t> {
    /// A part of a finding, by its key, and the paths to it: the first that says something counts.
    Part(&'t str, Vec<Path<'t>>),
    /// An element that doesn't meet it is no finding.
    Only(Guard<'t>),
    /// An element that meets it is reported, and is no finding.
    Aside(Guard<'t>),
    /// What words for severities mean.
    Level(Vec<(&'t str, Severity)>),
    /// What is the same for all findings: a key, and its word.
    Constant(&'t str, &'t str),
}

/// What is said beside a finding.
#[derive(Clone, Copy)]
pub enum SideKind {
    /// Where the finding is.
    Place,
    Label,
    Edit,
    Note,
}

/// What is said beside a finding: one for each value to which steps lead from its element.
#[derive(Drop)]
pub struct Side<'t> {
    pub kind: SideKind,
    pub at: Vec<Step<'t>>,
    pub rows: Vec<Row<'t>>,
}

/// Findings in a value: one for each element to which steps lead.
#[derive(Drop)]
pub struct List<'t> {
    pub at: Vec<Step<'t>>,
    pub rows: Vec<Row<'t>>,
    pub sides: Vec<Side<'t>>,
}

/// What a tool's JSON looks like.
#[derive(Drop)]
pub struct Form<'t> {
    /// Empty for a form that a user gave.
    pub name: &'t str,
    pub mark: Vec<MarkRow<'t>>,
    pub lists: Vec<List<'t>>,
}
