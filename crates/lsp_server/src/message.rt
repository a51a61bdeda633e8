// Messages of the client, and the answers.
ghost use Rattle.std.specs.Prelude.{◌≤◌};
ghost use Rattle.serde_json.specs.Data.{depth};
ghost use Rattle.serde_json.specs.View.{view};

use client_text::{Change, Refusal};
use serde_json::Value;
use text_places::Encoding;

/// A message of the client.
#[derive(Drop)]
pub enum Message {
    /// A request, which needs one answer.
    Request(Id, Method),
    /// A notification, which needs none.
    Notification(Notice),
    /// Bytes that are no JSON.
    NoJson,
}

/// The id of a request.
#[derive(Drop)]
pub enum Id {
    /// A number.
    Number(i64),
    /// A text.
    Text(String),
}

/// What a client asks for in `initialize`.
#[derive(Drop)]
pub struct Wanted {
    /// The position encoding: the first of its list that is known, or else UTF-16.
    pub encoding: Encoding,
    /// Whether it used the older key `offsetEncoding`.
    pub is_older: bool,
    /// Whether it shows related information.
    pub related: bool,
}

/// What server and client agreed on.
#[derive(Clone, Copy)]
pub struct Agreed {
    /// The position encoding.
    pub encoding: Encoding,
    /// Whether the client shows related information.
    pub related: bool,
}

/// The method of a request.
#[derive(Drop)]
pub enum Method {
    /// `initialize`.
    Initialize(Wanted),
    /// `shutdown`.
    Shutdown,
    /// Anything else.
    Unknown,
}

/// The content of a notification.
#[derive(Drop)]
pub enum Notice {
    /// `exit`: the session is over.
    Exit,
    /// A document was opened: its URI, version and text.
    Opened(String, i32, String),
    /// A document was changed: its URI, its new version, and the changes.
    Changed(String, i32, Vec<Change>),
    /// A document was saved.
    Saved,
    /// A document was closed.
    Closed(String),
    /// A malformed change.
    Malformed,
    /// Anything else.
    Unknown,
}

/// What is sent to the client.
#[derive(Drop)]
pub enum Answer {
    /// What the server can do.
    Capabilities(Id, Wanted),
    /// The answer to `shutdown`.
    Null(Id),
    /// An error: of a request with this id, or of bytes that are no JSON.
    Error(Option<Id>, Code),
    /// The parameters of `textDocument/publishDiagnostics`.
    Published(Params),
    /// A notification that had no effect.
    Refused(Refused),
    /// A line for the client's log.
    Logged(String),
}

/// Parameters as JSON, with a bound on how deep they nest.
#[derive(Drop)]
pub struct Params {
    /// The value.
    pub value: Value,
    ghost shallow: { depth (view value) ≤ 8 },
}

/// Why a notification had no effect.
#[derive(Drop)]
pub enum Refused {
    /// Its document isn't open.
    NotOpen,
    /// The text would have `u32::MAX` bytes or more.
    TooLong,
    /// It is malformed.
    Malformed,
    /// One of its changes can't be made.
    Faulty(Refusal),
}

/// The number of an error.
#[derive(Drop)]
pub enum Code {
    /// -32700: no JSON.
    ParseError,
    /// -32600: not in this phase.
    InvalidRequest,
    /// -32601: an unknown method.
    MethodNotFound,
    /// -32002: before `initialize`.
    NotInitialized,
}
