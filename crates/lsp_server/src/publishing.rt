// The parameters that publish a document's findings.
ghost use Rattle.std.specs.Prelude.{◌≡◌, [], All, IfOk};
ghost use Rattle.serde_json.specs.View.{view};
ghost use Rattle.lsp_server.specs.Diagnostics.{published_value};
ghost use Rattle.lsp_server.specs.Seen.{StandIn};
ghost use Rattle.lsp_server.specs.Told.{seen_closed, seen_open};
ghost use Rattle.lsp_server.specs.Views.{open_view};

use crate::message::{Agreed, Params};
use crate::told::{OpenFile, published};
use client_text::ClientText;
use oxc_protocol::OxcDiagnostic;
use std::alloc::{AllocError, Global};
use text_places::TextPlaces;

/// The findings of an open document, as parameters.
pub(crate) fn published_open(
    alloc: Global,
    agreed: Agreed,
    uri: &str,
    client: &ClientText,
    found: &[OxcDiagnostic],
) -> Result<Params, AllocError>
    requires { All (StandIn client.now.text) found.now }
    ensures { IfOk result (λ params. view params.value
        ≡ published_value (seen_open agreed uri.now (open_view client.now found.now)) found.now) }
{
    let file = OpenFile {
        uri,
        version: Some(client.version()),
        encoding: client.encoding(),
        related: agreed.related,
        places: client.places(),
    };
    let value = published(alloc, &file, found)?;
    Ok(Params { value })
}

/// The empty list for a closed document, as parameters.
pub(crate) fn published_none(alloc: Global, agreed: Agreed, uri: &str) -> Result<Params, AllocError>
    ensures { IfOk result (λ params. view params.value
        ≡ published_value (seen_closed agreed uri.now) []) }
{
    let places = TextPlaces::new(alloc, "")?;
    let file = OpenFile {
        uri,
        version: None,
        encoding: agreed.encoding,
        related: agreed.related,
        places: &places,
    };
    let value = published(alloc, &file, &[])?;
    Ok(Params { value })
}
