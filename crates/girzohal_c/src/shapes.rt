// The look of a text and the answer of a call, as C lays them out.

/// The look of a text.
#[repr(C)]
#[derive(Clone, Copy)]
pub struct Look {
    /// 0: colors and lines; 1: lines without colors; 2: neither.
    pub theme: u32,
    /// The distance of tab stops in columns, from 1 to 16.
    pub tabs: u32,
    /// 0: each report is drawn; 1: each is a line of JSON.
    pub form: u32,
    /// The width that long texts are filled to, in columns.
    pub width: usize,
}

/// What a call says besides its status. Fields that the status doesn't use are 0.
#[repr(C)]
#[derive(Clone, Copy)]
pub struct Answer {
    /// The length of the text in bytes.
    pub needed: usize,
    /// Which argument is wrong: 0 the texts, 1 the files, 2 the reports, 3 the labels, 4 the look,
    /// 5 the number of the ABI.
    pub array: usize,
    /// Its first wrong element, from 0; for the look, the field.
    pub index: usize,
    /// Which report has an error, from 0.
    pub report: usize,
    /// Which of its labels has it, from 0.
    pub label: usize,
    /// The cause: 1 an unknown file, 2 a start or 3 an end that is no position, 4 an end before
    /// its start.
    pub cause: u32,
    /// With cause 4, the start's offset in bytes.
    pub first: u64,
    /// With cause 4, the end's offset in bytes.
    pub second: u64,
}
