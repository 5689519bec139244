//! What uploads ask.
ghost use Rattle.std.specs.Prelude.{◌≡◌, ◌⊎◌, Err, Result, IfOk, IfSome};
ghost use Rattle.octo_http_forms.specs.Texts.{IsWithin};
ghost use Rattle.octo_http_forms.specs.Parts.{ArePartsIn, FormReadsAs};
ghost use Rattle.octo_http_forms.specs.declared.types.Parts.{Parts};
ghost use Rattle.octo_http_forms.specs.declared.types.PartFault.{PartFault};
ghost use Rattle.octo_api_requests.specs.Uploads.{folder_of, file_asked, refused_by, form_asked};
ghost use Rattle.octo_api_requests.specs.Callers.{IsCallers};

use crate::Direct;
use crate::stored::stored_name;
use octo_api_routes::{BodyFault, MediaFault};
use octo_asks::{Request, Upload};
use octo_http_forms::{PartFault, Parts, Span, multipart};
use std::alloc::Global;

// The folder of a form, empty if it has none.
fn folder_of(body: &[u8], folder: Option<Span>) -> &[u8]
    requires { IfSome folder (λ span. IsWithin span body.now) }
    ensures { result.now ≡ folder_of body.now folder }
{
    match folder {
        Some(span) => &body[span.from..span.to],
        None => &[],
    }
}

// What the parts of a form ask; without a file they ask nothing.
fn file_of(alloc: Global, body: &[u8], parts: Parts) -> Result<Request, Direct>
    requires { ArePartsIn parts body.now }
    ensures asks { (result ≡ Err Direct.NoMemory)
        ⊎ (result ≡ file_asked body.now parts parts.name parts.file) }
    ensures callers { IfOk result IsCallers }
{
    let (Some(name), Some(file)) = (parts.name, parts.file) else {
        return Err(Direct::BadBody {
            fault: BodyFault::NoFile,
        });
    };
    let folder = folder_of(body, parts.folder);
    let name = stored_name(alloc, folder, &body[name.from..name.to])?;
    let file = Upload::read(alloc, &body[file.from..file.to])?;
    Ok(Request::PutFile {
        name,
        file,
        select: parts.select,
        print: parts.print,
    })
}

// What a body that is no such form is refused by.
fn refused_by(fault: PartFault) -> Direct
    ensures { result ≡ refused_by fault }
{
    match fault {
        PartFault::NoBoundary => Direct::BadMedia {
            fault: MediaFault::NoForm,
        },
        PartFault::NoClose => Direct::BadBody {
            fault: BodyFault::NoClose,
        },
        PartFault::BadPart { .. } => Direct::BadBody {
            fault: BodyFault::BadPart,
        },
    }
}

// What an upload asks. Source: OctoPrint's REST API, file operations; RFC 7578.
pub(crate) fn upload_of(alloc: Global, body: &[u8], kind: &[u8]) -> Result<Request, Direct>
    ensures asks { (result ≡ Err Direct.NoMemory)
        ⊎ ((parts : Result Parts PartFault) → FormReadsAs body.now kind.now parts
        → result ≡ form_asked body.now parts) }
    ensures callers { IfOk result IsCallers }
{
    match multipart(body, kind) {
        Ok(parts) => file_of(alloc, body, parts),
        Err(fault) => Err(refused_by(fault)),
    }
}
