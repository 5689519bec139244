//! What programs ask first: texts of JSON that are fixed but for the limits. Source: OctoPrint's REST API, version 1.10.
ghost use Rattle.std.specs.Prelude.{◌≡◌, IfOk};
ghost use Rattle.octo_api_replies.specs.Fixed.{text_reply, settings_text};

use itoa::Buffer;
use octo_api_refusals::OK;
use octo_http::{FieldLines, HttpReply, ReplyKind};
use octo_outside::Blob;
use std::alloc::{AllocError, Global};

// The server.
pub(crate) const SERVER: &str = "{\"safemode\":null,\"version\":\"profile-1\"}";

// The settings before the limits: no card in the printer, no plugins.
const SETTINGS_FRONT: &[u8] =
    b"{\"feature\":{\"sdSupport\":false,\"temperatureGraph\":true},\"plugins\":{},\
\"temperature\":{\"limits\":{\"bed\":";

// And after them: no camera.
const SETTINGS_END: &[u8] =
    b"},\"profiles\":[]},\"webcam\":{\"flipH\":false,\"flipV\":false,\"rotate90\":false,\
\"snapshotUrl\":null,\"streamUrl\":null,\"webcamEnabled\":false}}";

// The one profile of the printer.
pub(crate) const PROFILES: &str =
    "{\"profiles\":{\"_default\":{\"color\":\"default\",\"current\":true,\
\"default\":true,\"extruder\":{\"count\":1},\"heatedBed\":true,\"id\":\"_default\",\
\"model\":\"Generic\",\"name\":\"Default\"}}}";

// The commands of the system.
pub(crate) const COMMANDS: &str = "{\"core\":[{\"action\":\"shutdown\",\"name\":\"Shutdown\",\
\"resource\":\"/api/system/commands/core/shutdown\",\"source\":\"core\"},\
{\"action\":\"backup\",\"name\":\"Backup\",\
\"resource\":\"/api/system/commands/core/backup\",\"source\":\"core\"}],\
\"custom\":[]}";

// A reply with this text of JSON.
fn json_text(text: Blob) -> HttpReply
    ensures { result ≡ text_reply text }
{
    HttpReply {
        status: OK,
        kind: ReplyKind::Json,
        fields: FieldLines::new(),
        body: text,
    }
}

// A reply with a fixed text of JSON.
pub(crate) fn text_reply(alloc: Global, text: &str) -> Result<HttpReply, AllocError>
    ensures { IfOk result (λ reply. reply ≡ text_reply text.now) }
{
    let text = Blob::from_slice(alloc, text.as_bytes())?;
    Ok(json_text(text))
}

// The settings that programs ask for, with the limits of the temperatures.
pub(crate) fn settings_reply(alloc: Global, tool: u16, bed: u16) -> Result<HttpReply, AllocError>
    ensures { IfOk result (λ reply. reply ≡ text_reply (settings_text tool bed)) }
{
    let mut text = Blob::from_slice(alloc, SETTINGS_FRONT)?;
    let mut bed_buffer = Buffer::new();
    text.append(bed_buffer.format(bed).as_bytes())?;
    text.append(b",\"tool\":")?;
    let mut tool_buffer = Buffer::new();
    text.append(tool_buffer.format(tool).as_bytes())?;
    text.append(SETTINGS_END)?;
    Ok(json_text(text))
}
