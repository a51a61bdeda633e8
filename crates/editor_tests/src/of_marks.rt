// One change, and what it does to offsets and marks.
use crate::callers::moves;
use lsp_server::{Change, Mark, move_mark, move_offset};

const CHANGE: Change = Change {
    start: 4,
    end: 6,
    inserted: 5,
};

/// Whether an offset goes to another.
fn shifts(offset: usize, wanted: usize) -> bool {
    offset <= 100 && move_offset(CHANGE, offset) == wanted
}

/// Whether two marks are one.
fn is(mark: Mark, wanted: Mark) -> bool {
    mark.start == wanted.start && mark.end == wanted.end
}

/// Whether a mark goes to another, or goes where that is none.
fn goes(mark: Mark, wanted: Option<Mark>) -> bool {
    mark.start <= 100
        && mark.end <= 100
        && match (move_mark(CHANGE, mark), wanted) {
            (Some(moved), Some(wanted)) => is(moved, wanted),
            (None, None) => true,
            _ => false,
        }
}

const OFFSETS: [(usize, usize); 5] = [(0, 0), (4, 4), (5, 4), (6, 9), (7, 10)];

#[test]
fn offsets_stay_go_and_shift(rt: HostRuntime) {
    for row in &OFFSETS {
        assert!(rt; shifts(row.0, row.1), "{}", row.0);
    }
}

#[test]
fn all_move_behind_a_first_byte(rt: HostRuntime) {
    assert!(rt; moves(1) && moves(u32::MAX));
}

const MARKS: [(Mark, Option<Mark>); 7] = [
    (Mark { start: 6, end: 7 }, Some(Mark { start: 9, end: 10 })),
    (Mark { start: 4, end: 5 }, None),
    (Mark { start: 4, end: 6 }, Some(Mark { start: 4, end: 9 })),
    (Mark { start: 2, end: 7 }, Some(Mark { start: 2, end: 10 })),
    (Mark { start: 5, end: 5 }, Some(Mark { start: 4, end: 4 })),
    (Mark { start: 1, end: 3 }, Some(Mark { start: 1, end: 3 })),
    (Mark { start: 5, end: 9 }, Some(Mark { start: 4, end: 12 })),
];

#[test]
fn marks_move(rt: HostRuntime) {
    for row in &MARKS {
        assert!(rt; goes(row.0, row.1), "{}", row.0.end);
    }
}

const INSERTION: Change = Change {
    start: 4,
    end: 4,
    inserted: 3,
};

/// Whether an insertion moves a mark to another.
fn is_pushed(mark: Mark, wanted: Mark) -> bool {
    mark.start <= 100
        && mark.end <= 100
        && matches!(move_mark(INSERTION, mark), Some(moved) if is(moved, wanted))
}

const PUSHED: [(Mark, Mark); 5] = [
    (Mark { start: 4, end: 6 }, Mark { start: 7, end: 9 }),
    (Mark { start: 1, end: 4 }, Mark { start: 1, end: 4 }),
    (Mark { start: 4, end: 4 }, Mark { start: 7, end: 7 }),
    (Mark { start: 2, end: 6 }, Mark { start: 2, end: 9 }),
    (Mark { start: 0, end: 2 }, Mark { start: 0, end: 2 }),
];

#[test]
fn an_insertion_at_the_start_goes_before_a_mark(rt: HostRuntime) {
    for row in &PUSHED {
        assert!(rt; is_pushed(row.0, row.1), "{}", row.0.end);
    }
}
