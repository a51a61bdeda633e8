// The server.
ghost use Rattle.std.specs.Prelude.{◌≡◌, ◌++◌, ◌↔◌, IsTrue, true, ℕ, List, IfOk, OnOk, OnErr};
ghost use Rattle.std.specs.Prelude.{map, string_bytes, None, Some, []};
ghost use Rattle.std.specs.List.{flat_map};
ghost use Rattle.std.specs.Option.{option_copied, option_to_list};
ghost use Rattle.source_location.specs.Index.{Fits};
ghost use Rattle.lsp_server.specs.Session.{answered, answered_by, asked, begun, is_running};
ghost use Rattle.lsp_server.specs.Session.{next_agreed, next_phase, notice_phase, phase_after};
ghost use Rattle.lsp_server.specs.Session.{request_phase, requested, IsExit};
ghost use Rattle.lsp_server.specs.Told.{AreSame, IsChanged, IsClosed, IsNoticed, IsOpened, OnlyAt};
ghost use Rattle.lsp_server.specs.Told.{ShowsAs};

use crate::documents::OpenText;
use crate::message::{Agreed, Answer, Code, Id, Message, Method, Notice, Refused};
use crate::publishing::published_none;
use client_text::Change;
use oxc_protocol::OxcDiagnostic;
use source_location::fits;
use std::alloc::{AllocError, Global};
use std::collections::BTreeMap;
use text_places::Encoding;

/// The phase of a session.
#[derive(Drop)]
pub enum Phase {
    /// Before `initialize`.
    New,
    /// After `initialize`.
    Running,
    /// After `shutdown`.
    ShutDown,
    /// After `exit`; true if `shutdown` came before it.
    Exited(bool),
}

/// The open documents, the phase of the session, and what was agreed on.
#[derive(Drop)]
pub struct Server {
    phase: Phase,
    agreed: Agreed,
    documents: BTreeMap<String, OpenText>,
}

impl Server {
    ghost use Rattle.lsp_server.specs.Documents.{document_of, open_uris, IsKept};
    ghost use Rattle.lsp_server.specs.Steps.{AreSteps, IsStep};

    /// A server before its first message.
    pub fn new(alloc: Global) -> Server
        ensures phase { result.phase ≡ Phase.New }
        ensures documents { (uri : List ℕ) → document_of result uri ≡ None }
    {
        Server {
            phase: Phase::New,
            agreed: Agreed {
                encoding: Encoding::Utf16,
                related: false,
            },
            documents: BTreeMap::new(alloc),
        }
    }

    /// Takes a message, and returns what to send for it.
    ///
    /// # Errors
    ///
    /// Out of memory: nothing that contracts see of the server changes.
    pub fn take(&mut self, alloc: Global, message: Message) -> Result<Option<Answer>, AllocError>
        ensures step { IfOk result (IsStep self.old message self.new) }
        ensures once { IfOk result (λ told. answered told ≡ asked message) }
        ensures err { OnErr result (IsKept self.old self.new) }
    {
        match message {
            Message::NoJson => Ok(Some(Answer::Error(None, Code::ParseError))),
            Message::Request(id, method) => {
                let answer = self.request(id, method);
                Ok(Some(answer))
            }
            Message::Notification(Notice::Exit) => {
                self.phase = Phase::Exited(matches!(self.phase, Phase::ShutDown));
                Ok(None)
            }
            Message::Notification(notice) => match self.phase {
                Phase::Running => self.edit(alloc, notice),
                _ => Ok(None),
            },
        }
    }

    /// Takes messages in order, and returns what to send for them, in order.
    ///
    /// # Errors
    ///
    /// Out of memory at some message; those before it have been taken.
    pub fn take_each(
        &mut self,
        alloc: Global,
        messages: Vec<Message>,
    ) -> Result<Vec<Answer>, AllocError>
        ensures steps { IfOk result (λ answers.
            AreSteps self.old messages.items self.new answers.items) }
        ensures once { IfOk result (λ answers.
            flat_map answered_by answers.items ≡ flat_map asked messages.items) }
        ensures phase { OnOk result (self.new.phase ≡ phase_after self.old.phase messages.items) }
    {
        let mut answers = Vec::new(alloc);
        for message in messages {
            let told = self.take(alloc, message)?;
            push_some(&mut answers, told)?;
        }
        Ok(answers)
    }

    /// Replaces the findings that an open document shows, and returns what to publish; `None` if
    /// the document isn't open, or if a label doesn't fit its text.
    ///
    /// # Errors
    ///
    /// Out of memory: nothing that contracts see of the server changes.
    pub fn show(
        &mut self,
        alloc: Global,
        uri: &str,
        found: Vec<OxcDiagnostic>,
    ) -> Result<Option<Answer>, AllocError>
        ensures shown { IfOk result (ShowsAs self.old.agreed uri.now found.items
            (document_of self.old uri.now)
            (document_of self.old) (document_of self.new)) }
        ensures phase { self.new.phase ≡ self.old.phase }
        ensures agreed { self.new.agreed ≡ self.old.agreed }
        ensures err { OnErr result (IsKept self.old self.new) }
    {
        let agreed = self.agreed;
        let Some(document) = self.documents.get_mut(uri) else {
            return Ok(None);
        };
        document.show(alloc, agreed, uri, found)
    }

    /// An open document.
    pub fn document(&self, uri: &str) -> Option<&OpenText>
        ensures { option_copied result ≡ document_of self.now uri.now }
    {
        self.documents.get(uri)
    }

    /// The URIs of the open documents, in the order of their bytes.
    ///
    /// # Errors
    ///
    /// Out of memory.
    pub fn uris(&self, alloc: Global) -> Result<Vec<String>, AllocError>
        ensures { IfOk result (λ uris. map string_bytes uris.items ≡ open_uris self.now) }
    {
        let mut uris = Vec::new(alloc);
        for uri in self.documents.keys() {
            uris.push(String::from_str(alloc, uri.as_str())?)?;
        }
        Ok(uris)
    }

    /// Whether the session runs: after `initialize`, and before `shutdown` and `exit`.
    pub fn is_running(&self) -> bool
        ensures { result ≡ is_running self.now.phase }
    {
        matches!(self.phase, Phase::Running)
    }

    /// Whether `exit` came.
    pub fn is_ended(&self) -> bool
        ensures { IsTrue result ↔ IsExit self.now.phase }
    {
        matches!(self.phase, Phase::Exited(_))
    }

    /// Whether `shutdown` came before `exit`.
    pub fn is_well_ended(&self) -> bool
        ensures { IsTrue result ↔ (self.now.phase ≡ Phase.Exited true) }
    {
        matches!(self.phase, Phase::Exited(true))
    }

    /// Answers a request.
    fn request(&mut self, id: Id, method: Method) -> Answer
        ensures answer { result ≡ requested self.old.phase id method }
        ensures phase { self.new.phase ≡ request_phase self.old.phase method }
        ensures agreed { self.new.agreed ≡ begun self.old.phase self.old.agreed method }
        ensures documents { self.new.documents ≡ self.old.documents }
    {
        match self.phase {
            Phase::New => match method {
                Method::Initialize(wanted) => {
                    self.phase = Phase::Running;
                    self.agreed = Agreed {
                        encoding: wanted.encoding,
                        related: wanted.related,
                    };
                    Answer::Capabilities(id, wanted)
                }
                Method::Shutdown => Answer::Error(Some(id), Code::NotInitialized),
                Method::Unknown => Answer::Error(Some(id), Code::NotInitialized),
            },
            Phase::Running => match method {
                Method::Initialize(_) => Answer::Error(Some(id), Code::InvalidRequest),
                Method::Shutdown => {
                    self.phase = Phase::ShutDown;
                    Answer::Null(id)
                }
                Method::Unknown => Answer::Error(Some(id), Code::MethodNotFound),
            },
            Phase::ShutDown => Answer::Error(Some(id), Code::InvalidRequest),
            Phase::Exited(_) => Answer::Error(Some(id), Code::InvalidRequest),
        }
    }

    /// Takes a notification while the session runs.
    fn edit(&mut self, alloc: Global, notice: Notice) -> Result<Option<Answer>, AllocError>
        ensures told { IfOk result (IsNoticed self.old.agreed notice
            (document_of self.old) (document_of self.new)) }
        ensures once { IfOk result (λ told. answered told ≡ []) }
        ensures phase { self.new.phase ≡ self.old.phase }
        ensures agreed { self.new.agreed ≡ self.old.agreed }
        ensures err { OnErr result (IsKept self.old self.new) }
    {
        match notice {
            Notice::Exit => Ok(None),
            Notice::Unknown => Ok(None),
            Notice::Saved => Ok(None),
            Notice::Malformed => Ok(Some(Answer::Refused(Refused::Malformed))),
            Notice::Opened(uri, version, text) => self.open(alloc, uri, version, text.as_str()),
            Notice::Closed(uri) => {
                let answer = self.close(alloc, uri.as_str())?;
                Ok(Some(answer))
            }
            Notice::Changed(uri, version, changes) => {
                let answer = self.change(alloc, uri.as_str(), version, changes.as_slice())?;
                Ok(Some(answer))
            }
        }
    }

    /// Opens a document, if its text fits.
    fn open(
        &mut self,
        alloc: Global,
        uri: String,
        version: i32,
        text: &str,
    ) -> Result<Option<Answer>, AllocError>
        ensures told { IfOk result (IsOpened self.old.agreed (string_bytes uri) version text.now
            (document_of self.old) (document_of self.new)) }
        ensures once { IfOk result (λ told. answered told ≡ []) }
        ensures phase { self.new.phase ≡ self.old.phase }
        ensures agreed { self.new.agreed ≡ self.old.agreed }
        ensures err { OnErr result (IsKept self.old self.new) }
    {
        if !fits(text) {
            return Ok(Some(Answer::Refused(Refused::TooLong)));
        }
        let document = OpenText::open(alloc, self.agreed.encoding, version, text)?;
        self.insert(uri, document)?;
        Ok(None)
    }

    /// Inserts a document under its URI; an older one is replaced.
    fn insert(&mut self, uri: String, document: OpenText) -> Result<(), AllocError>
        ensures only { OnOk result (OnlyAt (string_bytes uri) (Some document)
            (document_of self.old) (document_of self.new)) }
        ensures phase { self.new.phase ≡ self.old.phase }
        ensures agreed { self.new.agreed ≡ self.old.agreed }
        ensures err { OnErr result (IsKept self.old self.new) }
    {
        self.documents.insert(uri, document)?;
        Ok(())
    }

    /// Closes a document, and publishes an empty list.
    fn close(&mut self, alloc: Global, uri: &str) -> Result<Answer, AllocError>
        ensures told { IfOk result (λ told. IsClosed self.old.agreed uri.now
            (document_of self.old) (document_of self.new) (Some told)) }
        ensures once { IfOk result (λ told. answered_by told ≡ []) }
        ensures phase { self.new.phase ≡ self.old.phase }
        ensures agreed { self.new.agreed ≡ self.old.agreed }
        ensures err { OnErr result (IsKept self.old self.new) }
    {
        let params = published_none(alloc, self.agreed, uri)?;
        let _text = self.documents.remove(uri);
        Ok(Answer::Published(params))
    }

    /// Changes a document.
    fn change(
        &mut self,
        alloc: Global,
        uri: &str,
        version: i32,
        changes: &[Change],
    ) -> Result<Answer, AllocError>
        ensures told { IfOk result (λ told. IsChanged self.old.agreed uri.now version
            changes.now (document_of self.old uri.now)
            (document_of self.old) (document_of self.new) (Some told)) }
        ensures once { IfOk result (λ told. answered_by told ≡ []) }
        ensures phase { self.new.phase ≡ self.old.phase }
        ensures agreed { self.new.agreed ≡ self.old.agreed }
        ensures err { OnErr result (IsKept self.old self.new) }
    {
        let agreed = self.agreed;
        let Some(document) = self.documents.get_mut(uri) else {
            return Ok(Answer::Refused(Refused::NotOpen));
        };
        document.change(alloc, agreed, uri, version, changes)
    }
}

/// Appends a value, if there is one.
///
/// # Errors
///
/// Out of memory.
pub fn push_some<T: Drop>(list: &mut Vec<T>, one: Option<T>) -> Result<(), AllocError>
    ensures { OnOk result (list.new.items ≡ list.old.items ++ option_to_list one) }
{
    match one {
        None => Ok(()),
        Some(it) => {
            list.push(it)?;
            Ok(())
        }
    }
}
