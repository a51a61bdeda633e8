// What a client with UTF-16 sends, one notification after another, and the text after each. It was
// printed by tools/tries/client_transcript.py, whose replay is plain.
use crate::of_client_text::Notification;
use client_text::Fault;

/// The text that is opened.
pub(super) const START: &str =
    "// \u{e9}\r\nlet a = '\u{1f600}';\rfn f() {\n  g(\u{6f22}, 2)\n}\nend";

/// The notifications.
pub(super) const TRANSCRIPT: [Notification<'static>; 40] = [
    Notification {
        version: 2,
        changes: &[(Some(((2, 6), (2, 7))), ""), (Some(((3, 5), (3, 12))), "")],
        refused: None,
        text: "// \u{e9}\r\nlet a = '\u{1f600}';\rfn f(){\n  g(\u{6f22}\n}\nend",
    },
    Notification {
        version: 3,
        changes: &[(Some(((3, 0), (3, 0))), "")],
        refused: None,
        text: "// \u{e9}\r\nlet a = '\u{1f600}';\rfn f(){\n  g(\u{6f22}\n}\nend",
    },
    Notification {
        version: 4,
        changes: &[(Some(((5, 2), (5, 2))), "")],
        refused: None,
        text: "// \u{e9}\r\nlet a = '\u{1f600}';\rfn f(){\n  g(\u{6f22}\n}\nend",
    },
    Notification {
        version: 5,
        changes: &[(None, "new\r\n\u{1f600}\u{1f600}")],
        refused: None,
        text: "new\r\n\u{1f600}\u{1f600}",
    },
    Notification {
        version: 6,
        changes: &[
            (Some(((0, 1), (0, 2))), "\u{e9}"),
            (Some(((0, 3), (0, 5))), ""),
        ],
        refused: None,
        text: "n\u{e9}w\r\n\u{1f600}\u{1f600}",
    },
    Notification {
        version: 7,
        changes: &[(Some(((1, 2), (1, 4))), "\r\n")],
        refused: None,
        text: "n\u{e9}w\r\n\u{1f600}\r\n",
    },
    Notification {
        version: 8,
        changes: &[
            (Some(((0, 2), (0, 5))), "\r\n"),
            (Some(((1, 0), (1, 4))), "\r\n"),
        ],
        refused: None,
        text: "n\u{e9}\r\n\r\n\r\n\u{1f600}\r\n",
    },
    Notification {
        version: 9,
        changes: &[(Some(((2, 0), (2, 0))), "two\nrows")],
        refused: None,
        text: "n\u{e9}\r\n\r\ntwo\nrows\r\n\u{1f600}\r\n",
    },
    Notification {
        version: 10,
        changes: &[
            (Some(((3, 1), (3, 2))), "\u{e9}"),
            (Some(((3, 5), (3, 8))), "; "),
        ],
        refused: None,
        text: "n\u{e9}\r\n\r\ntwo\nr\u{e9}ws; \r\n\u{1f600}\r\n",
    },
    Notification {
        version: 11,
        changes: &[(Some(((5, 0), (5, 4))), ""), (Some(((3, 5), (3, 5))), "")],
        refused: None,
        text: "n\u{e9}\r\n\r\ntwo\nr\u{e9}ws; \r\n\u{1f600}\r\n",
    },
    Notification {
        version: 12,
        changes: &[(Some(((3, 5), (3, 10))), "")],
        refused: None,
        text: "n\u{e9}\r\n\r\ntwo\nr\u{e9}ws;\r\n\u{1f600}\r\n",
    },
    Notification {
        version: 13,
        changes: &[(Some(((4, 0), (5, 0))), "")],
        refused: None,
        text: "n\u{e9}\r\n\r\ntwo\nr\u{e9}ws;\r\n",
    },
    Notification {
        version: 14,
        changes: &[
            (Some(((1, 0), (1, 2))), "x"),
            (Some(((4, 0), (5, 0))), "\r"),
            (Some(((5, 0), (5, 0))), "two\nrows"),
        ],
        refused: None,
        text: "n\u{e9}\r\nx\r\ntwo\nr\u{e9}ws;\r\n\rtwo\nrows",
    },
    Notification {
        version: 15,
        changes: &[(Some(((6, 4), (6, 4))), "; ")],
        refused: None,
        text: "n\u{e9}\r\nx\r\ntwo\nr\u{e9}ws;\r\n\rtwo\nrows; ",
    },
    Notification {
        version: 16,
        changes: &[
            (Some(((0, 2), (1, 1))), ""),
            (Some(((0, 3), (0, 3))), "\r\n"),
            (Some(((0, 2), (1, 1))), ""),
        ],
        refused: None,
        text: "n\u{e9}\r\ntwo\nr\u{e9}ws;\r\n\rtwo\nrows; ",
    },
    Notification {
        version: 17,
        changes: &[
            (Some(((4, 3), (5, 0))), "; "),
            (Some(((2, 6), (3, 0))), "\u{e9}"),
        ],
        refused: None,
        text: "n\u{e9}\r\ntwo\nr\u{e9}ws;\u{e9}\rtwo; rows; ",
    },
    Notification {
        version: 18,
        changes: &[
            (Some(((3, 0), (3, 0))), "two\nrows"),
            (Some(((4, 15), (4, 15))), ""),
        ],
        refused: None,
        text: "n\u{e9}\r\ntwo\nr\u{e9}ws;\u{e9}\rtwo\nrowstwo; rows; ",
    },
    Notification {
        version: 19,
        changes: &[(Some(((3, 1), (4, 5))), "")],
        refused: None,
        text: "n\u{e9}\r\ntwo\nr\u{e9}ws;\u{e9}\rtwo; rows; ",
    },
    Notification {
        version: 20,
        changes: &[(Some(((3, 9), (3, 10))), "\u{6f22}b")],
        refused: None,
        text: "n\u{e9}\r\ntwo\nr\u{e9}ws;\u{e9}\rtwo; rows\u{6f22}b ",
    },
    Notification {
        version: 21,
        changes: &[(Some(((3, 8), (3, 15))), "")],
        refused: None,
        text: "n\u{e9}\r\ntwo\nr\u{e9}ws;\u{e9}\rtwo; row",
    },
    Notification {
        version: 22,
        changes: &[(Some(((2, 0), (2, 1))), "\r\n")],
        refused: None,
        text: "n\u{e9}\r\ntwo\n\r\n\u{e9}ws;\u{e9}\rtwo; row",
    },
    Notification {
        version: 23,
        changes: &[
            (Some(((4, 7), (4, 8))), "\u{6f22}b"),
            (Some(((3, 5), (4, 2))), ""),
            (Some(((3, 9), (3, 9))), ""),
        ],
        refused: None,
        text: "n\u{e9}\r\ntwo\n\r\n\u{e9}ws;\u{e9}o; ro\u{6f22}b",
    },
    Notification {
        version: 24,
        changes: &[(Some(((0, 3), (2, 1))), "")],
        refused: None,
        text: "n\u{e9}\r\n\u{e9}ws;\u{e9}o; ro\u{6f22}b",
    },
    Notification {
        version: 25,
        changes: &[
            (Some(((1, 9), (1, 14))), "\u{e9}"),
            (Some(((0, 2), (0, 0))), "-"),
            (Some(((0, 0), (0, 1))), ""),
        ],
        refused: Some((1, Fault::Reversed)),
        text: "n\u{e9}\r\n\u{e9}ws;\u{e9}o; ro\u{6f22}b",
    },
    Notification {
        version: 26,
        changes: &[(Some(((1, 2), (1, 4))), "\u{6f22}b")],
        refused: None,
        text: "n\u{e9}\r\n\u{e9}w\u{6f22}b\u{e9}o; ro\u{6f22}b",
    },
    Notification {
        version: 27,
        changes: &[
            (Some(((1, 9), (1, 14))), ""),
            (Some(((1, 9), (1, 9))), "\u{1f600}"),
        ],
        refused: None,
        text: "n\u{e9}\r\n\u{e9}w\u{6f22}b\u{e9}o; r\u{1f600}",
    },
    Notification {
        version: 28,
        changes: &[(Some(((0, 0), (0, 1))), "\u{1f600}")],
        refused: None,
        text: "\u{1f600}\u{e9}\r\n\u{e9}w\u{6f22}b\u{e9}o; r\u{1f600}",
    },
    Notification {
        version: 29,
        changes: &[(Some(((1, 5), (1, 6))), "")],
        refused: None,
        text: "\u{1f600}\u{e9}\r\n\u{e9}w\u{6f22}b\u{e9}; r\u{1f600}",
    },
    Notification {
        version: 30,
        changes: &[
            (Some(((0, 2), (1, 7))), ""),
            (Some(((0, 5), (0, 5))), "; "),
            (Some(((0, 6), (0, 6))), "two\nrows"),
        ],
        refused: None,
        text: "\u{1f600}r\u{1f600};two\nrows ",
    },
    Notification {
        version: 31,
        changes: &[
            (Some(((0, 5), (0, 6))), "\u{6f22}b"),
            (Some(((0, 3), (0, 9))), "\u{6f22}b"),
            (Some(((0, 4), (0, 5))), "\u{1f600}"),
        ],
        refused: None,
        text: "\u{1f600}r\u{6f22}\u{1f600}o\nrows ",
    },
    Notification {
        version: 32,
        changes: &[
            (Some(((0, 3), (0, 4))), "\r"),
            (Some(((0, 3), (0, 7))), "\r"),
        ],
        refused: None,
        text: "\u{1f600}r\r\r\u{1f600}o\nrows ",
    },
    Notification {
        version: 33,
        changes: &[
            (Some(((2, 2), (3, 0))), "two\nrows"),
            (Some(((0, 0), (0, 2))), "two\nrows"),
        ],
        refused: None,
        text: "two\nrowsr\r\r\u{1f600}two\nrowsrows ",
    },
    Notification {
        version: 34,
        changes: &[(Some(((4, 9), (4, 9))), "\n")],
        refused: None,
        text: "two\nrowsr\r\r\u{1f600}two\nrowsrows \n",
    },
    Notification {
        version: 35,
        changes: &[
            (None, "new\r\n\u{1f600}\u{1f600}"),
            (Some(((0, 2), (0, 3))), "\n"),
        ],
        refused: None,
        text: "ne\n\r\n\u{1f600}\u{1f600}",
    },
    Notification {
        version: 36,
        changes: &[
            (Some(((2, 4), (2, 5))), "\u{1f600}"),
            (Some(((0, 1), (0, 2))), "\n"),
            (Some(((2, 0), (2, 0))), "x"),
        ],
        refused: None,
        text: "n\n\nx\r\n\u{1f600}\u{1f600}\u{1f600}",
    },
    Notification {
        version: 37,
        changes: &[
            (Some(((3, 0), (4, 0))), "\u{6f22}b"),
            (Some(((1, 0), (2, 2))), "\n"),
        ],
        refused: None,
        text: "n\n\n\r\n\u{6f22}b",
    },
    Notification {
        version: 38,
        changes: &[(Some(((1, 0), (3, 0))), "\n")],
        refused: None,
        text: "n\n\n\u{6f22}b",
    },
    Notification {
        version: 39,
        changes: &[(None, "new\r\ntwo\nrowstwo\nrows")],
        refused: None,
        text: "new\r\ntwo\nrowstwo\nrows",
    },
    Notification {
        version: 40,
        changes: &[(Some(((1, 2), (1, 7))), "two\nrows")],
        refused: None,
        text: "new\r\ntwtwo\nrows\nrowstwo\nrows",
    },
    Notification {
        version: 41,
        changes: &[
            (Some(((1, 4), (1, 4))), "\u{1f600}"),
            (Some(((1, 7), (2, 0))), "\n"),
            (Some(((0, 1), (0, 1))), "two\nrows"),
        ],
        refused: None,
        text: "ntwo\nrowsew\r\ntwtw\u{1f600}o\nrows\nrowstwo\nrows",
    },
];
