// An open document, and the findings in its text.
ghost use Rattle.std.specs.Prelude.{◌≡◌, ◌∷◌, [], All, IfNone, IfOk, IfSome, OnErr};
ghost use Rattle.std.specs.Prelude.{OnOk};
ghost use Rattle.source_location.specs.Index.{Fits};
ghost use Rattle.client_text.specs.Changes.{AllChange, Changes, IsFault};
ghost use Rattle.lsp_server.specs.Seen.{StandIn};
ghost use Rattle.lsp_server.specs.Edits.{Holds, HoldsMade, IsEdit, IsWhere, MovesOne, opened};
ghost use Rattle.lsp_server.specs.Session.{answered, answered_by};
ghost use Rattle.lsp_server.specs.Told.{IsShown, IsTextChanged};
ghost use Rattle.lsp_server.specs.Views.{IsSpareOf, open_view};

use crate::marks;
use crate::message::{Agreed, Answer, Refused};
use crate::moved::{copied_all, moved_all};
use crate::publishing::published_open;
use crate::told::all_stand;
use client_text::{Change, ClientText, Fault, Refusal};
use oxc_protocol::OxcDiagnostic;
use std::alloc::{AllocError, Global};
use std::marker::Model;
use text_places::{Encoding, Place};
use text_size::TextSize;

/// An open document, and the findings in its text, which move with it.
///
/// Contracts see the client's document and the findings, whose labels fit the text.
#[derive(Drop)]
pub struct OpenText {
    client: ClientText,
    found: Vec<OxcDiagnostic>,
    /// A second copy of the document. The next changes are made in it, so that nothing is lost if
    /// memory runs out after them. There is none before the first change.
    spare: Option<ClientText>,
}

impl Model for OpenText {
    ghost use Rattle.std.specs.Prelude.{IfSome};
    ghost use Rattle.lsp_server.specs.Edits.{Holds};
    ghost use Rattle.lsp_server.specs.Views.{IsSpareOf, OpenView};

    ghost Value = { OpenView };

    ghost view = { λ s. record { client = s.client; found = s.found.items } };

    ghost invariant = { λ s. Holds s.client s.found.items
        × IfSome s.spare (IsSpareOf s.client) };
}

/// The result of changes.
#[derive(Drop)]
enum Edit {
    /// The document after all of them, and the findings in it.
    Made(ClientText, Vec<OxcDiagnostic>),
    /// The first change that can't be made, and why.
    Faulty(Refusal),
}

impl OpenText {
    /// A document without findings.
    ///
    /// # Errors
    ///
    /// Out of memory.
    pub fn open(
        alloc: Global,
        encoding: Encoding,
        version: i32,
        text: &str,
    ) -> Result<OpenText, AllocError>
        requires { Fits text.now }
        ensures { IfOk result (λ it. it ≡ opened encoding version text.now) }
    {
        let client = ClientText::open(alloc, encoding, text, version)?;
        Ok(OpenText {
            client,
            found: Vec::new(alloc),
            spare: None,
        })
    }

    /// The document, as its client edits it.
    pub fn client(&self) -> &ClientText
        ensures { result.now ≡ self.now.client }
    {
        &self.client
    }

    /// The findings. Their labels fit the text.
    pub fn found(&self) -> &[OxcDiagnostic]
        ensures found { result.now ≡ self.now.found }
        ensures stand { All (StandIn self.now.client.text) result.now }
    {
        &self.found
    }

    /// Shows other findings, and returns what to publish; `None` if one of their labels doesn't fit
    /// the text.
    ///
    /// # Errors
    ///
    /// Out of memory: nothing changes.
    pub fn show(
        &mut self,
        alloc: Global,
        agreed: Agreed,
        uri: &str,
        found: Vec<OxcDiagnostic>,
    ) -> Result<Option<Answer>, AllocError>
        ensures shown { IfOk result (IsShown agreed uri.now found.items self.old self.new) }
        ensures once { IfOk result (λ told. answered told ≡ []) }
        ensures err { OnErr result (self.new ≡ self.old) }
    {
        let text = self.client.to_text(alloc)?;
        if !all_stand(text.as_str(), &found) {
            return Ok(None);
        }
        let params = published_open(alloc, agreed, uri, &self.client, &found)?;
        self.found = found;
        Ok(Some(Answer::Published(params)))
    }

    /// Makes the changes of a notification, each on the text that the one before left, and returns
    /// the moved findings to publish; or names the first change that can't be made, and nothing
    /// changes.
    ///
    /// # Errors
    ///
    /// Out of memory: the document and its findings don't change.
    pub fn change(
        &mut self,
        alloc: Global,
        agreed: Agreed,
        uri: &str,
        version: i32,
        changes: &[Change],
    ) -> Result<Answer, AllocError>
        ensures changed { IfOk result (IsTextChanged agreed uri.now version changes.now
            self.old self.new) }
        ensures once { IfOk result (λ told. answered_by told ≡ []) }
        ensures err { OnErr result (self.new ≡ self.old) }
    {
        let spare = std::mem::replace(&mut self.spare, None);
        let copy = at_version(alloc, &self.client, spare, version)?;
        match edited(alloc, copy, &self.found, changes)? {
            Edit::Faulty(refusal) => Ok(Answer::Refused(Refused::Faulty(refusal))),
            Edit::Made(next, found) => {
                let params = published_open(alloc, agreed, uri, &next, &found)?;
                let before = std::mem::replace(&mut self.client, next);
                self.found = found;
                self.spare = caught_up(before, changes);
                Ok(Answer::Published(params))
            }
        }
    }
}

/// The document with another version: the spare copy, or a new one.
fn at_version(
    alloc: Global,
    client: &ClientText,
    spare: Option<ClientText>,
    version: i32,
) -> Result<ClientText, AllocError>
    requires { IfSome spare (IsSpareOf client.now) }
    ensures { IfOk result (λ copy. copy ≡ record client.now { version = version }) }
{
    if let Some(mut spare) = spare {
        if spare.change(version, &[]).is_ok() {
            return Ok(spare);
        }
    }
    let _ = client.places().len();
    let text = client.to_text(alloc)?;
    let copy = ClientText::open(alloc, client.encoding(), text.as_str(), version)?;
    Ok(copy)
}

/// A document with these changes made, if there is memory for them. It becomes the spare copy.
fn caught_up(client: ClientText, changes: &[Change]) -> Option<ClientText>
    ensures made { IfSome result (λ it. AllChange client.encoding client.text changes.now it.text) }
    ensures encoding { IfSome result (λ it. it.encoding ≡ client.encoding) }
{
    let mut client = client;
    for (number, change) in changes.iter().enumerate() {
        match make_one(&mut client, change, &changes[number..number + 1]) {
            Ok(()) => {}
            Err(_) => return None,
        }
    }
    Some(client)
}

/// Makes a change, the only one of a list; the version stays.
fn make_one(client: &mut ClientText, change: &Change, one: &[Change]) -> Result<(), Refusal>
    requires { one.now ≡ change.now ∷ [] }
    ensures text { OnOk result
        (Changes client.old.encoding client.old.text change.now client.new.text) }
    ensures encoding { client.new.encoding ≡ client.old.encoding }
{
    client.change(client.version(), one)?;
    Ok(())
}

/// A document after changes, each made on the text that the one before left, or the first change
/// that can't be made. Findings move with each change.
fn edited(
    alloc: Global,
    client: ClientText,
    found: &[OxcDiagnostic],
    changes: &[Change],
) -> Result<Edit, AllocError>
    requires { Holds client found.now }
    ensures edit { IfOk result (IsEdit (open_view client found.now) changes.now) }
    ensures holds { IfOk result HoldsMade }
{
    let mut client = client;
    let mut found = copied_all(alloc, found)?;
    for (number, change) in changes.iter().enumerate() {
        let one = &changes[number..number + 1];
        match edit_one(alloc, &mut client, &mut found, change, one)? {
            None => {}
            Some(fault) => {
                return Ok(Edit::Faulty(Refusal {
                    change: number,
                    fault,
                }));
            }
        }
    }
    Ok(Edit::Made(client, found))
}

/// The range of a change in bytes: its start and its end.
fn place_of(client: &ClientText, range: Option<(Place, Place)>) -> (TextSize, TextSize)
    ensures { IsWhere client.now.encoding client.now.text range result.0 result.1 }
{
    let places = client.places();
    match range {
        Some((from, to)) => places.nearest_range(client.encoding(), from, to),
        None => (TextSize::new(0), places.len()),
    }
}

/// Makes a change, the only one of a list, and moves the findings with it. If it can't be made, the
/// result says why.
fn edit_one(
    alloc: Global,
    client: &mut ClientText,
    found: &mut Vec<OxcDiagnostic>,
    change: &Change,
    one: &[Change],
) -> Result<Option<Fault>, AllocError>
    requires one { one.now ≡ change.now ∷ [] }
    requires holds { Holds client.old found.old.items }
    ensures made { IfOk result (λ fault. IfNone fault (MovesOne
        (open_view client.old found.old.items) change.now
        (open_view client.new found.new.items))) }
    ensures holds { IfOk result (λ fault. IfNone fault (Holds client.new found.new.items)) }
    ensures faulty { IfOk result (λ fault. IfSome fault
        (IsFault client.old.encoding client.old.text change.now)) }
{
    let (start, end) = place_of(client, change.range);
    match client.change(client.version(), one) {
        Ok(()) => {}
        Err(refusal) => {
            return match refusal.fault {
                Fault::OutOfMemory => Err(AllocError),
                fault => Ok(Some(fault)),
            };
        }
    }
    let moving = marks::Change {
        start: start.to_u32() as usize,
        end: end.to_u32() as usize,
        inserted: change.text.as_str().len(),
    };
    *found = moved_all(alloc, moving, found.as_slice())?;
    Ok(None)
}
