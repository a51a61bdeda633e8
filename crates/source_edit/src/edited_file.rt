// An edit of a file.
ghost use Rattle.std.specs.Prelude.{◌≡◌, ◌<◌, length, OnOk, OnErr, IfOk, MatchResult, string_bytes};
ghost use Rattle.codespan.specs.Texts.{text_of, with_text};
ghost use Rattle.source_edit.specs.Edits.{change_of, edited};
ghost use Rattle.source_edit.specs.Causes.{IsAcceptable, IsCause};

use crate::edit::check;
use crate::{Edit, EditError};
use codespan::{FileId, Files};
use std::alloc::{AllocError, Global};

/// Edits the text of one file of a database, which holds the file. Its name stays, and so do all
/// other files.
///
/// # Errors
///
/// Those of [`EditText::apply`](crate::EditText::apply). The database doesn't change.
pub fn edit_file(
    alloc: Global,
    files: &mut Files<String>,
    file: FileId,
    edit: &Edit,
) -> Result<(), EditError>
    requires { file < length files.old }
    ensures edited { OnOk result (files.new ≡ with_text files.old file
        (edited (text_of files.old file) (change_of edit.now))) }
    ensures cause { MatchResult result (λ _. IsAcceptable (text_of files.old file) (change_of edit.now))
        (λ error. IsCause 0 (text_of files.old file) (change_of edit.now) error) }
    ensures unchanged { OnErr result (files.new ≡ files.old) }
{
    let text = files.source(file).as_str();
    check(0, text, edit)?;
    let Ok(new) = edited_copy(alloc, text, edit) else {
        return Err(EditError::OutOfMemory { edit: 0 });
    };
    if files.update(file, new).is_err() {
        return Err(EditError::OutOfMemory { edit: 0 });
    }
    Ok(())
}

/// A copy of a text with an edit that it takes.
fn edited_copy(alloc: Global, text: &str, edit: &Edit) -> Result<String, AllocError>
    requires { IsAcceptable text.now (change_of edit.now) }
    ensures { IfOk result (λ copy. string_bytes copy ≡ edited text.now (change_of edit.now)) }
{
    let (start, end) = (edit.range.start().to_usize(), edit.range.end().to_usize());
    let length = text.len() - (end - start) + edit.insert.len();
    let mut copy = String::with_capacity(alloc, length)?;
    copy.push_str(&text[..start])?;
    copy.push_str(edit.insert.as_str())?;
    copy.push_str(&text[end..])?;
    Ok(copy)
}
