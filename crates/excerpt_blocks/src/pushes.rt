//! Elements added to lists.
ghost use Rattle.std.specs.Prelude.{◌≡◌, ◌++◌, ◌∷◌, [], OnOk};

use crate::below::{Hang, Mark, Opening, Row, Text};
use std::alloc::AllocError;

pub fn push_row(rows: &mut Vec<Row>, row: Row) -> Result<(), AllocError>
    ensures { OnOk result (rows.new.items ≡ rows.old.items ++ row ∷ []) }
{
    rows.push(row)?;
    Ok(())
}

pub fn push_mark(marks: &mut Vec<Mark>, mark: Mark) -> Result<(), AllocError>
    ensures { OnOk result (marks.new.items ≡ marks.old.items ++ mark ∷ []) }
{
    marks.push(mark)?;
    Ok(())
}

pub fn push_opening(opens: &mut Vec<Opening>, opening: Opening) -> Result<(), AllocError>
    ensures { OnOk result (opens.new.items ≡ opens.old.items ++ opening ∷ []) }
{
    opens.push(opening)?;
    Ok(())
}

pub fn push_hang(hangs: &mut Vec<Hang>, hang: Hang) -> Result<(), AllocError>
    ensures { OnOk result (hangs.new.items ≡ hangs.old.items ++ hang ∷ []) }
{
    hangs.push(hang)?;
    Ok(())
}

pub fn push_text(texts: &mut Vec<Text>, text: Text) -> Result<(), AllocError>
    ensures { OnOk result (texts.new.items ≡ texts.old.items ++ text ∷ []) }
{
    texts.push(text)?;
    Ok(())
}

pub fn push_cell(cells: &mut Vec<usize>, cell: usize) -> Result<(), AllocError>
    ensures { OnOk result (cells.new.items ≡ cells.old.items ++ cell ∷ []) }
{
    cells.push(cell)?;
    Ok(())
}
