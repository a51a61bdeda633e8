//! What is drawn below the rows of a block: marks, and the texts beside them or hanging from them.
ghost use Rattle.std.specs.Prelude.{◌≡◌, ◌<◌, ◌^◌, IfErr, IfOk, IfSome, ◌+◌, OnOk, drop, length};
ghost use Rattle.std.specs.Prelude.{vec_len};
ghost use Rattle.std.specs.List.{list_any};
ghost use Rattle.excerpt_blocks.specs.declared.below.Refusal.TheVariants.{OutOfMemory};
ghost use Rattle.excerpt_blocks.specs.Below.{AreWithin, IsWithin, add as added_item, add_all};
ghost use Rattle.excerpt_blocks.specs.Below.{any_in};
ghost use Rattle.excerpt_blocks.specs.Below.{barred, empty_state, holder as holder_of, hooked};
ghost use Rattle.excerpt_blocks.specs.Below.{hung_cells};
ghost use Rattle.excerpt_blocks.specs.Below.{is_first_char, is_of as is_text_of};
ghost use Rattle.excerpt_blocks.specs.Below.{is_said as is_said_in};
ghost use Rattle.excerpt_blocks.specs.Below.{is_said_at as is_said_there, is_tick as is_tick_in};
ghost use Rattle.excerpt_blocks.specs.Below.{mark_in};
ghost use Rattle.excerpt_blocks.specs.Below.{marked, owner as owner_of, state_of, step_to};
ghost use Rattle.excerpt_blocks.specs.Below.{taker as taker_of};
ghost use Rattle.excerpt_blocks.specs.Below.{class_number as number_of_class, linked, margin_from};
ghost use Rattle.excerpt_blocks.specs.Below.{is_same as is_one_class, margin_step};
ghost use Rattle.excerpt_blocks.specs.Below.{may_close as may_close_at};
ghost use Rattle.excerpt_blocks.specs.Below.{opening_in, read_all, run_added, span_closed};
ghost use Rattle.excerpt_blocks.specs.Below.{span_opened};
ghost use Rattle.excerpt_blocks.specs.Below.{text_in, touches as is_touched, unsaid_in, with_row};
ghost use Rattle.excerpt_blocks.specs.Below.{worded};

use crate::pushes::{push_cell, push_hang, push_mark, push_opening, push_row, push_text};
use excerpt_lines::cells::{end_column, start_column};
use excerpt_lines::gutter::Sign;
use excerpt_lines::items::{Item, Part};
use excerpt_lines::runs::run_from;
use excerpt_lines::tables::{CharClass, is_in};
use std::alloc::{AllocError, Global};

/// A row of a block, as it was printed.
#[derive(Clone, Copy)]
pub struct Row {
    /// Its line in the body, from 0.
    pub line: usize,
    pub number: Option<u32>,
    pub sign: Sign,
    /// Where its text begins: a place, in characters from 0, and a cell, from 0.
    pub text: usize,
    pub cell: usize,
    /// How many marks and texts of the block come before its own.
    pub marks: usize,
    pub texts: usize,
    /// The line of the last empty gutter before it, or 0. In a suggestion it ends a hunk.
    pub gap: usize,
}

/// A run of marks below a row.
#[derive(Clone, Copy)]
pub struct Mark {
    /// The row above it: its place among the block's rows.
    pub row: usize,
    /// Its cells, from 0.
    pub cell: usize,
    pub end_cell: usize,
    /// The characters of the row's text over these cells, from 0.
    pub start: usize,
    pub end: usize,
    pub class: CharClass,
    /// Marks of what was found are among them.
    pub first: bool,
    /// Where the span of rows begins that ends here.
    pub begun: Option<Begun>,
}

/// Where a span of rows begins: a row of the block, and a character of its text.
#[derive(Clone, Copy)]
pub struct Begun {
    pub row: usize,
    pub column: usize,
}

/// A span of rows that is open.
#[derive(Clone, Copy)]
pub struct Opening {
    /// The place of its bars in the margin, in characters from 0.
    pub place: usize,
    pub begun: Begun,
    /// The class of the marks that it begins and ends with; nothing if it began with a row.
    pub class: Option<CharClass>,
}

/// A cell of a mark below which a text hangs or will hang, or in which the text beside it begins.
#[derive(Clone, Copy)]
pub struct Hang {
    /// The mark's place among the block's marks.
    pub mark: usize,
    pub cell: usize,
    /// The text is beside the mark.
    pub beside: bool,
}

/// A text, of a mark or of none.
#[derive(Clone, Copy)]
pub struct Text {
    pub mark: Option<usize>,
    pub row: usize,
    /// The cell in which it begins.
    pub cell: usize,
    /// The character of the row's text over this cell.
    pub column: usize,
    /// It is beside its mark, or goes on with a text that is.
    pub beside: bool,
    /// Its line in the body, and its characters there.
    pub line: usize,
    pub start: usize,
    pub end: usize,
}

/// What is drawn below the rows of a block so far.
#[derive(Drop)]
pub struct Below {
    pub rows: Vec<Row>,
    pub marks: Vec<Mark>,
    pub hangs: Vec<Hang>,
    pub texts: Vec<Text>,
    /// The spans that are open.
    pub opens: Vec<Opening>,
    /// Where a link begins that no mark follows yet.
    pub link: Option<usize>,
    /// How many marks, hangs and texts come before those of the last row.
    pub marks_before: usize,
    pub hangs_before: usize,
    pub texts_before: usize,
    /// Where the last row's text begins: a place and a cell.
    pub text: usize,
    pub cell: usize,
    /// How many items are below the last row.
    pub items: usize,
    /// The line of the last empty gutter, or 0.
    pub gap: usize,
}

/// Why a line isn't read.
#[derive(Clone, Copy)]
pub enum Refusal {
    OutOfMemory,
    NotRead,
}

impl From<AllocError> for Refusal {
    ghost from_gives = { λ _ error. error ≡ OutOfMemory };

    fn from(_error: AllocError) -> Self {
        Refusal::OutOfMemory
    }
}

/// How many items a row may have below it.
const LIMIT: usize = 500;

impl Below {
    /// Nothing so far.
    pub fn new(alloc: Global) -> Self
        ensures { state_of result ≡ empty_state }
    {
        Below {
            rows: Vec::new(alloc),
            marks: Vec::new(alloc),
            hangs: Vec::new(alloc),
            texts: Vec::new(alloc),
            opens: Vec::new(alloc),
            link: None,
            marks_before: 0,
            hangs_before: 0,
            texts_before: 0,
            text: 0,
            cell: 0,
            items: 0,
            gap: 0,
        }
    }

    /// Begins a row.
    ///
    /// # Errors
    ///
    /// Out of memory.
    pub fn begin_row(&mut self, row: Row) -> Result<(), AllocError>
        ensures { OnOk result (state_of self.new ≡ with_row (state_of self.old) row) }
    {
        self.marks_before = self.marks.len();
        self.hangs_before = self.hangs.len();
        self.texts_before = self.texts.len();
        self.text = row.text;
        self.cell = row.cell;
        self.items = 0;
        push_row(&mut self.rows, row)?;
        Ok(())
    }

    /// Reads the items of line `number`, below the last row, whose line is `above`.
    ///
    /// # Errors
    ///
    /// Out of memory, or one of them has no meaning here.
    pub fn read(
        &mut self,
        above: &[char],
        line: &[char],
        number: usize,
        items: &[Item],
    ) -> Result<(), Refusal>
        requires above { length above.now < 2 ^ 32 }
        requires line { length line.now < 2 ^ 32 }
        requires items { AreWithin line.now items.now }
        ensures read { OnOk result (read_all above.now line.now number items.now
            (state_of self.old) ≡ Some (state_of self.new)) }
        ensures refused { IfErr result (λ why. (why ≡ OutOfMemory → ⊥)
            → read_all above.now line.now number items.now (state_of self.old) ≡ None) }
    {
        let mut previous = None;
        let mut last = None;
        for item in items {
            last = self.add(above, line, number, previous, last, *item)?;
            previous = Some(*item);
        }
        if self.link.is_some() {
            return Err(Refusal::NotRead);
        }
        Ok(())
    }

    /// Adds an item after the previous one. `last` is the mark that a text here is beside of. Gives that
    /// mark for the next item.
    #[tactic(auto, unfolding(crate::specs::Below::add))]
    fn add(
        &mut self,
        above: &[char],
        line: &[char],
        number: usize,
        previous: Option<Item>,
        last: Option<usize>,
        item: Item,
    ) -> Result<Option<usize>, Refusal>
        requires above { length above.now < 2 ^ 32 }
        requires line { length line.now < 2 ^ 32 }
        requires item { IsWithin line.now item }
        ensures added { IfOk result (λ next. added_item above.now line.now number previous last item
            (state_of self.old) ≡ Some (step_to (state_of self.new) next)) }
        ensures refused { IfErr result (λ why. (why ≡ OutOfMemory → ⊥)
            → added_item above.now line.now number previous last item (state_of self.old) ≡ None) }
    {
        if self.items >= LIMIT {
            return Err(Refusal::NotRead);
        }
        self.items += 1;
        match item.part {
            Part::Gutter => Ok(None),
            Part::Mark(class) => {
                let first = has_first(&line[item.start..item.end]);
                let mark = self.mark_over(above, item.cell, item.end_cell, class, first);
                self.add_run(line, item, mark)
            }
            Part::Link => self.add_link(item),
            Part::Bar => self.add_bar(item),
            Part::Hook(_) => self.add_hook(above, line, item),
            Part::Text => self.add_text(above, number, previous, last, item),
            Part::Row | Part::Whole | Part::Lead => Err(Refusal::NotRead),
        }
    }

    /// The mark in these cells, below the last row.
    fn mark_over(
        &self,
        above: &[char],
        cell: usize,
        end_cell: usize,
        class: CharClass,
        first: bool,
    ) -> Mark
        requires above { length above.now < 2 ^ 32 }
        requires cell { cell < 2 ^ 40 }
        requires end { end_cell < 2 ^ 40 }
        ensures { result ≡ mark_in above.now cell end_cell class first (state_of self.now) }
    {
        Mark {
            row: self.rows.len().saturating_sub(1),
            cell,
            end_cell,
            start: start_column(above, self.text, cell),
            end: end_column(above, self.text, end_cell),
            class,
            first,
            begun: None,
        }
    }

    /// Adds a run of marks; after a link, a span of rows begins or ends there.
    #[tactic(auto, unfolding(crate::specs::Below::run_added))]
    fn add_run(&mut self, line: &[char], item: Item, mark: Mark) -> Result<Option<usize>, Refusal>
        requires { IsWithin line.now item }
        ensures added { IfOk result (λ next. run_added line.now item mark (state_of self.old)
            ≡ Some (step_to (state_of self.new) next)) }
        ensures refused { IfErr result (λ why. (why ≡ OutOfMemory → ⊥)
            → run_added line.now item mark (state_of self.old) ≡ None) }
    {
        let Some(start) = self.link else {
            return self.add_mark(mark);
        };
        if start == 0 || start > line.len() || item.end - item.start != 1 {
            return Err(Refusal::NotRead);
        }
        self.link = None;
        let place = start - 1;
        match line[place] {
            ' ' => self.open_span(place, mark),
            '|' => self.close_span(place, mark),
            _ => Err(Refusal::NotRead),
        }
    }

    /// A span of rows begins at a mark, which isn't kept.
    #[tactic(auto, unfolding(crate::specs::Below::span_opened))]
    fn open_span(&mut self, place: usize, mark: Mark) -> Result<Option<usize>, Refusal>
        ensures added { IfOk result (λ next.
            span_opened place mark (state_of self.old) ≡ Some (step_to (state_of self.new) next)) }
        ensures refused { IfErr result (λ why. (why ≡ OutOfMemory → ⊥)
            → span_opened place mark (state_of self.old) ≡ None) }
    {
        if self.opening_at(place).is_some() || mark.cell < self.cell {
            return Err(Refusal::NotRead);
        }
        let opening = Opening {
            place,
            begun: Begun {
                row: mark.row,
                column: mark.start,
            },
            class: Some(mark.class),
        };
        push_opening(&mut self.opens, opening)?;
        Ok(None)
    }

    /// The span with bars at a place ends at a mark of its class.
    #[tactic(auto, unfolding(crate::specs::Below::span_closed))]
    fn close_span(&mut self, place: usize, mark: Mark) -> Result<Option<usize>, Refusal>
        ensures added { IfOk result (λ next.
            span_closed place mark (state_of self.old) ≡ Some (step_to (state_of self.new) next)) }
        ensures refused { IfErr result (λ why. (why ≡ OutOfMemory → ⊥)
            → span_closed place mark (state_of self.old) ≡ None) }
    {
        let Some(number) = self.opening_at(place) else {
            return Err(Refusal::NotRead);
        };
        let opening = self.opens[number];
        if !may_close(opening, mark) {
            return Err(Refusal::NotRead);
        }
        let _opening = self.opens.remove(number);
        self.add_mark(Mark {
            begun: Some(opening.begun),
            ..mark
        })
    }

    /// The number of the span that is open with bars at a place.
    #[tactic(auto, unfolding(crate::specs::Below::opening_in))]
    fn opening_at(&self, place: usize) -> Option<usize>
        ensures value { result ≡ opening_in place (state_of self.now) }
        ensures within { IfSome result (λ k. k < vec_len self.now.opens) }
    {
        for (k, opening) in self.opens.iter().enumerate() {
            if opening.place == place {
                return Some(k);
            }
        }
        None
    }

    /// Adds a link, which a mark has to follow.
    #[tactic(auto, unfolding(crate::specs::Below::linked))]
    fn add_link(&mut self, item: Item) -> Result<Option<usize>, Refusal>
        ensures added { IfOk result (λ next.
            linked item (state_of self.old) ≡ Some (step_to (state_of self.new) next)) }
        ensures refused { IfErr result (λ why. (why ≡ OutOfMemory → ⊥)
            → linked item (state_of self.old) ≡ None) }
    {
        if self.link.is_some() {
            return Err(Refusal::NotRead);
        }
        self.link = Some(item.start);
        Ok(None)
    }

    /// Reads the margin of the last row, whose first character has a place in its line: `/` opens a
    /// span at the row's first character, `|` needs an open one.
    pub fn read_margin(
        &mut self,
        line: &[char],
        from: usize,
        mut margin: &[char],
    ) -> Result<(), Refusal>
        requires { from + length margin.now < 2 ^ 64 }
        ensures read { OnOk result (margin_from line.now from margin.entry.now
            (state_of self.old) ≡ Some (state_of self.new)) }
        ensures refused { IfErr result (λ why. (why ≡ OutOfMemory → ⊥)
            → margin_from line.now from margin.entry.now (state_of self.old) ≡ None) }
    {
        let mut place = from;
        while let [c, rest @ ..] = margin {
            self.margin_char(line, place, *c)?;
            place += 1;
            margin = rest;
        }
        Ok(())
    }

    /// Reads a character of the margin.
    #[tactic(auto, unfolding(crate::specs::Below::margin_step))]
    fn margin_char(&mut self, line: &[char], place: usize, c: char) -> Result<(), Refusal>
        ensures read { OnOk result (margin_step line.now place c (state_of self.old)
            ≡ Some (state_of self.new)) }
        ensures refused { IfErr result (λ why. (why ≡ OutOfMemory → ⊥)
            → margin_step line.now place c (state_of self.old) ≡ None) }
    {
        if c == ' ' {
            return Ok(());
        }
        let opening = self.opening_at(place);
        if c == '|' && opening.is_some() {
            return Ok(());
        }
        if c != '/' || opening.is_some() {
            return Err(Refusal::NotRead);
        }
        let text = self.text.min(line.len());
        let opening = Opening {
            place,
            begun: Begun {
                row: self.rows.len().saturating_sub(1),
                column: run_from(CharClass::Blank, line, text) - text,
            },
            class: None,
        };
        push_opening(&mut self.opens, opening)?;
        Ok(())
    }

    /// Adds a mark, which must not begin left of its row's text.
    #[tactic(auto, unfolding(crate::specs::Below::marked))]
    fn add_mark(&mut self, mark: Mark) -> Result<Option<usize>, Refusal>
        ensures added { IfOk result (λ next.
            marked mark (state_of self.old) ≡ Some (step_to (state_of self.new) next)) }
        ensures refused { IfErr result (λ why. (why ≡ OutOfMemory → ⊥)
            → marked mark (state_of self.old) ≡ None) }
    {
        if mark.cell < self.cell {
            return Err(Refusal::NotRead);
        }
        let next = self.marks.len();
        push_mark(&mut self.marks, mark)?;
        Ok(Some(next))
    }

    /// Adds a bar: a text will hang from the mark over it.
    #[tactic(auto, unfolding(crate::specs::Below::barred))]
    fn add_bar(&mut self, item: Item) -> Result<Option<usize>, Refusal>
        ensures added { IfOk result (λ next.
            barred item (state_of self.old) ≡ Some (step_to (state_of self.new) next)) }
        ensures refused { IfErr result (λ why. (why ≡ OutOfMemory → ⊥)
            → barred item (state_of self.old) ≡ None) }
    {
        if self.link.is_some() {
            return Err(Refusal::NotRead);
        }
        if item.end < self.text {
            return Ok(None);
        }
        let Some(mark) = self.holder(item.cell) else {
            return Err(Refusal::NotRead);
        };
        let hang = Hang {
            mark,
            cell: item.cell,
            beside: false,
        };
        push_hang(&mut self.hangs, hang)?;
        Ok(None)
    }

    /// Adds a hook: the text after it belongs to the mark over it. A short one is a mark itself where
    /// no other is over it.
    #[tactic(auto, unfolding(crate::specs::Below::hooked))]
    fn add_hook(
        &mut self,
        above: &[char],
        line: &[char],
        item: Item,
    ) -> Result<Option<usize>, Refusal>
        requires above { length above.now < 2 ^ 32 }
        requires item { IsWithin line.now item }
        ensures added { IfOk result (λ next. hooked above.now line.now item (state_of self.old)
            ≡ Some (step_to (state_of self.new) next)) }
        ensures refused { IfErr result (λ why. (why ≡ OutOfMemory → ⊥)
            → hooked above.now line.now item (state_of self.old) ≡ None) }
    {
        if self.link.is_some() {
            return Err(Refusal::NotRead);
        }
        if let Some(mark) = self.holder(item.cell) {
            return Ok(Some(mark));
        }
        if !is_tick(line, item) {
            return Err(Refusal::NotRead);
        }
        let mark = self.mark_over(above, item.cell, item.cell + 1, CharClass::Caret, true);
        self.add_mark(mark)
    }

    /// Adds a text: of the mark that it is beside of, of the one that it hangs from, or of none.
    #[tactic(auto, unfolding(crate::specs::Below::worded))]
    fn add_text(
        &mut self,
        above: &[char],
        number: usize,
        previous: Option<Item>,
        last: Option<usize>,
        item: Item,
    ) -> Result<Option<usize>, Refusal>
        requires above { length above.now < 2 ^ 32 }
        requires cell { item.cell < 2 ^ 40 }
        ensures added { IfOk result (λ next. worded above.now number previous last item
            (state_of self.old) ≡ Some (step_to (state_of self.new) next)) }
        ensures refused { IfErr result (λ why. (why ≡ OutOfMemory → ⊥)
            → worded above.now number previous last item (state_of self.old) ≡ None) }
    {
        if touches(previous, item) || self.link.is_some() {
            return Err(Refusal::NotRead);
        }
        let Some(owner) = self.owner(last, item.cell) else {
            return Err(Refusal::NotRead);
        };
        if let Owner::Beside(mark) = owner {
            let hang = Hang {
                mark,
                cell: item.cell,
                beside: true,
            };
            push_hang(&mut self.hangs, hang)?;
        }
        let text = self.text_of(above, number, owner, item);
        push_text(&mut self.texts, text)?;
        Ok(None)
    }

    /// The text of an item.
    fn text_of(&self, above: &[char], number: usize, owner: Owner, item: Item) -> Text
        requires above { length above.now < 2 ^ 32 }
        requires cell { item.cell < 2 ^ 40 }
        ensures { result ≡ text_in above.now number owner item (state_of self.now) }
    {
        let (mark, beside) = match owner {
            Owner::Beside(mark) => (Some(mark), true),
            Owner::Hung(hang) => (Some(hang.mark), hang.beside),
            Owner::Nobody => (None, false),
        };
        Text {
            mark,
            row: self.rows.len().saturating_sub(1),
            cell: item.cell,
            column: start_column(above, self.text, item.cell),
            beside,
            line: number,
            start: item.start,
            end: item.end,
        }
    }

    /// Whose a text is that begins in a cell, after the mark `last`; nothing if it can be nobody's.
    #[tactic(auto, unfolding(crate::specs::Below::owner))]
    fn owner(&self, last: Option<usize>, cell: usize) -> Option<Owner>
        ensures { result ≡ owner_of last cell (state_of self.now) }
    {
        if let Some(mark) = last {
            if !self.is_said(mark) {
                return Some(Owner::Beside(mark));
            }
        }
        if let Some(hang) = self.taker(cell) {
            return Some(Owner::Hung(hang));
        }
        if last.is_none() && !self.marks.is_empty() {
            Some(Owner::Nobody)
        } else {
            None
        }
    }

    /// Where a text hangs or is beside a mark in this cell.
    #[tactic(auto, unfolding(crate::specs::Below::taker))]
    fn taker(&self, cell: usize) -> Option<Hang>
        ensures { result ≡ taker_of cell (state_of self.now) }
    {
        for hang in tail(&self.hangs, self.hangs_before) {
            if hang.cell == cell {
                return Some(*hang);
            }
        }
        None
    }

    /// The mark over a cell: of several the first without a text.
    #[tactic(auto, unfolding(crate::specs::Below::holder))]
    fn holder(&self, cell: usize) -> Option<usize>
        ensures { result ≡ holder_of cell (state_of self.now) }
    {
        match self.unsaid_over(cell) {
            Some(mark) => Some(mark),
            None => self.any_over(cell),
        }
    }

    #[tactic(auto, unfolding(crate::specs::Below::unsaid_in))]
    fn unsaid_over(&self, cell: usize) -> Option<usize>
        ensures { result ≡ unsaid_in cell (state_of self.now) }
    {
        let mut number = self.marks_before;
        for mark in tail(&self.marks, self.marks_before) {
            if mark.cell <= cell && cell < mark.end_cell && !self.is_said(number) {
                return Some(number);
            }
            number += 1;
        }
        None
    }

    #[tactic(auto, unfolding(crate::specs::Below::any_in))]
    fn any_over(&self, cell: usize) -> Option<usize>
        ensures { result ≡ any_in cell (state_of self.now) }
    {
        let mut number = self.marks_before;
        for mark in tail(&self.marks, self.marks_before) {
            if mark.cell <= cell && cell < mark.end_cell {
                return Some(number);
            }
            number += 1;
        }
        None
    }

    /// Whether a mark has a text.
    #[tactic(auto, unfolding(crate::specs::Below::is_said))]
    fn is_said(&self, mark: usize) -> bool
        ensures { result ≡ is_said_in mark (state_of self.now) }
    {
        for text in tail(&self.texts, self.texts_before) {
            if is_of(text, mark) {
                return true;
            }
        }
        false
    }

    /// The cells below which a text is still to come.
    ///
    /// # Errors
    ///
    /// Out of memory.
    #[tactic(auto, unfolding(crate::specs::Below::hung_cells))]
    pub fn hung(&self, alloc: Global) -> Result<Vec<usize>, AllocError>
        ensures { IfOk result (λ cells. cells.items ≡ hung_cells (state_of self.now)) }
    {
        let mut cells = Vec::new(alloc);
        for hang in tail(&self.hangs, self.hangs_before) {
            if !self.is_said_at(*hang) {
                push_cell(&mut cells, hang.cell)?;
            }
        }
        Ok(cells)
    }

    /// Whether the text that hangs there is read.
    #[tactic(auto, unfolding(crate::specs::Below::is_said_at))]
    fn is_said_at(&self, hang: Hang) -> bool
        ensures { result ≡ is_said_there hang (state_of self.now) }
    {
        for text in tail(&self.texts, self.texts_before) {
            if is_of(text, hang.mark) && text.cell == hang.cell {
                return true;
            }
        }
        false
    }
}

/// Whose a text is.
#[derive(Clone, Copy)]
enum Owner {
    Beside(usize),
    Hung(Hang),
    Nobody,
}

/// The elements from a place on.
pub fn tail<T>(items: &[T], at: usize) -> &[T]
    ensures { result.now ≡ drop at items.now }
{
    if at < items.len() {
        &items[at..]
    } else {
        &items[items.len()..]
    }
}

/// Whether a span may end at a mark.
fn may_close(opening: Opening, mark: Mark) -> bool
    ensures { result ≡ may_close_at opening mark }
{
    match opening.class {
        Some(class) => is_same(class, mark.class),
        None => true,
    }
}

/// Whether marks are of one class.
pub fn is_same(one: CharClass, other: CharClass) -> bool
    ensures { result ≡ is_one_class one other }
{
    class_number(one) == class_number(other)
}

/// The place of a class among those of marks; others come last.
fn class_number(class: CharClass) -> usize
    ensures { result ≡ number_of_class class }
{
    match class {
        CharClass::Caret => 0,
        CharClass::Dash => 1,
        CharClass::Plus => 2,
        CharClass::Thick => 3,
        CharClass::Thin => 4,
        CharClass::Triangle => 5,
        _ => 6,
    }
}

/// Whether a text is a mark's.
pub fn is_of(text: &Text, mark: usize) -> bool
    ensures { result ≡ is_text_of mark text.now }
{
    match text.mark {
        Some(owner) => owner == mark,
        None => false,
    }
}

/// Whether a run of marks ends where an item begins.
fn touches(previous: Option<Item>, item: Item) -> bool
    ensures { result ≡ is_touched previous item }
{
    match previous {
        Some(before) => matches!(before.part, Part::Mark(_)) && before.end == item.start,
        None => false,
    }
}

/// Whether a hook is a backtick and one dash.
fn is_tick(line: &[char], item: Item) -> bool
    requires { IsWithin line.now item }
    ensures { result ≡ is_tick_in line.now item }
{
    item.end - item.start == 2 && line[item.start] == '`'
}

/// Whether marks of what was found are among these.
fn has_first(marks: &[char]) -> bool
    ensures { result ≡ list_any is_first_char marks.now }
{
    for c in marks {
        if is_in(CharClass::First, *c) {
            return true;
        }
    }
    false
}
