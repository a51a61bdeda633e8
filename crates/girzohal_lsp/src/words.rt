// The options, as the server uses them.
ghost use Rattle.std.specs.Prelude.{◌≡◌, IfSome, is_some, option_map, string_bytes};
ghost use Rattle.std.specs.Option.{option_copied};
ghost use Rattle.girzohal_lsp.specs.Words.{can_serve, form_meant, log_meant};

use girzohal_options::InputForm;
use line_shapes::tables::Unit;

/// How a log is written.
#[derive(Clone, Copy)]
pub enum Form {
    /// As its first bytes say: a SARIF log if they begin a JSON object, an error for other JSON,
    /// else lines.
    Auto,
    /// Lines that a tool prints for people.
    Lines,
    /// A SARIF log, with or without other lines around it.
    Sarif,
}

/// The options, and the log's path.
#[derive(Clone, Copy)]
pub struct Asked<'a> {
    /// How the log is written.
    pub from: Form,
    /// The tool that wrote it.
    pub tool: Option<&'a str>,
    /// What its columns count, if not what the tool's do.
    pub columns: Option<Unit>,
    /// The number of the first column, if not the tool's.
    pub first_column: Option<u32>,
    /// The log's path.
    pub log: &'a str,
}

/// The server's options: `None` if the log should be a document or other JSON, if there is no log's
/// path, or if it is empty.
pub fn served(asked: &girzohal_options::Asked) -> Option<Asked<'_>>
    ensures some { is_some result ≡ can_serve asked.now }
    ensures from { IfSome result (λ it. form_meant asked.now.from ≡ Some it.from) }
    ensures tool { IfSome result (λ it. option_copied it.tool
        ≡ option_map string_bytes asked.now.tool) }
    ensures columns { IfSome result (λ it. it.columns ≡ asked.now.columns) }
    ensures first { IfSome result (λ it. it.first_column ≡ asked.now.first_column) }
    ensures log { IfSome result (λ it. log_meant asked.now.files.items ≡ Some it.log.now) }
{
    let from = match asked.from {
        InputForm::Auto => Form::Auto,
        InputForm::Lines => Form::Lines,
        InputForm::Sarif => Form::Sarif,
        InputForm::Document | InputForm::Json => return None,
    };
    let log = match asked.files.as_slice() {
        [path, ..] if !path.is_empty() => path.as_str(),
        _ => return None,
    };
    Some(Asked {
        from,
        tool: asked.tool.as_deref(),
        columns: asked.columns,
        first_column: asked.first_column,
        log,
    })
}
