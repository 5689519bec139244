//! Asks, before which the file of an upload is written, and that of a download is read.
ghost use Rattle.std.specs.Prelude.{◌≡◌, true, IfOk, OnErr};
ghost use Rattle.octo_asks.specs.History.{Finishes};

use octo_asks::{Answer, Ask, Asker, Closed, Request, Sought, Upload};
use octo_keeper::Stager;
use std::alloc::Global;

// Has the bytes of an upload written beside the files. A file that has no job isn't written, since no host stores it.
fn stage<P: Stager>(stager: &mut P, file: &mut Upload)
    ensures { file.new ≡ file.old }
{
    if file.has_job() {
        let part = stager.stage(file.bytes());
        file.set_part(part);
    }
}

// Has a file that is to be downloaded read.
fn fetch<P: Stager>(alloc: Global, stager: &mut P, sought: &mut Sought)
    ensures { sought.new ≡ sought.old }
{
    let fetched = stager.fetch(alloc, sought.name());
    sought.set_fetched(fetched);
}

// Does ahead what needs no host: writes the file of an upload, and reads that of a download.
fn prepare<P: Stager>(alloc: Global, stager: &mut P, request: &mut Request)
    ensures { request.new ≡ request.old }
{
    match request {
        Request::PutFile { file, .. } => stage(stager, file),
        Request::Download { name } => fetch(alloc, stager, name),
        _ => {}
    }
}

// Asks, and waits for the answer. The file of an upload is written before, and removed after if the host hasn't taken it; that of
// a download is read before, and dropped if the host hasn't taken it.
pub(crate) fn ask_staged<A: Asker, P: Stager>(
    alloc: Global,
    asker: &mut A,
    stager: &mut P,
    ask: Ask,
) -> Result<Answer, Closed>
    ensures ok { IfOk result
        (λ answer. Finishes ask answer (A.state asker.old).mine (A.state asker.new).mine) }
    ensures err { OnErr result ((A.state asker.new).mine ≡ (A.state asker.old).mine) }
    ensures place { (A.state asker.new).place ≡ (A.state asker.old).place }

    ensures closed { OnErr result ((A.state asker.new).saw_close ≡ true) }
    ensures seen { (A.state asker.old).saw_close ≡ true → (A.state asker.new).saw_close ≡ true }
{
    let mut ask = ask;
    prepare(alloc, stager, &mut ask.request);
    let answer = asker.ask(ask);
    stager.clear();
    answer
}
