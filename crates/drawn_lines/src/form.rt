// What is written in which form.
ghost use Rattle.std.specs.Prelude.{◌≡◌};
ghost use Rattle.drawn_lines.specs.Lines.{annotates as are_annotated, has_colors as is_colored};

use girzohal_options::{OutputForm, ThemeChoice};

/// Whether annotations are written, and lines that are no findings go to standard error.
pub fn annotates(form: OutputForm) -> bool
    ensures { result ≡ are_annotated form }
{
    match form {
        OutputForm::Github => true,
        OutputForm::Drawing
        | OutputForm::Json
        | OutputForm::Document
        | OutputForm::Sarif
        | OutputForm::Problems
        | OutputForm::Gitlab
        | OutputForm::Checkstyle
        | OutputForm::Junit
        | OutputForm::Stylish
        | OutputForm::Summary
        | OutputForm::Markdown
        | OutputForm::Html => false,
    }
}

/// Whether a theme has colors.
pub(crate) fn has_colors(theme: ThemeChoice) -> bool
    ensures { result ≡ is_colored theme }
{
    match theme {
        ThemeChoice::Unicode => true,
        ThemeChoice::Auto | ThemeChoice::Plain | ThemeChoice::UnicodeNocolor => false,
    }
}
