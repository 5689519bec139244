//! Answers of each kind.
use byte_text::Name;
use job_desk::State;
use octo_asks::{
    Answer, Progress, ShownEntry, ShownEntryList, ShownFile, ShownFileList, ShownHeat,
};
use octo_outside::NameList;
use std::alloc::Global;

// A name of this text.
fn name(text: &str) -> anyhow::Result<Name> {
    match Name::from_text(text) {
        Some(name) => Ok(name),
        None => Err(anyhow::anyhow!("a long name")),
    }
}

// A stored file.
fn file() -> anyhow::Result<ShownFile> {
    Ok(ShownFile {
        name: name("two_towers.gcode")?,
        size: 1_234_567,
    })
}

// An answer with this number of files.
fn files(alloc: Global, count: usize) -> anyhow::Result<Answer> {
    let mut files = ShownFileList::new(alloc);
    for _ in 0..count {
        files.push(file()?)?;
    }
    Ok(Answer::Files { files })
}

// An entry of the queue.
fn entry() -> anyhow::Result<ShownEntry> {
    Ok(ShownEntry {
        user: name("ana")?,
        name: name("job-1")?,
        file: name("two_towers.gcode")?,
        priority: 5,
        copies: 2,
        left: 1,
        material: name("any")?,
    })
}

// An answer with this number of entries.
fn entries(alloc: Global, count: usize) -> anyhow::Result<Answer> {
    let mut entries = ShownEntryList::new(alloc);
    for _ in 0..count {
        entries.push(entry()?)?;
    }
    Ok(Answer::Entries { entries })
}

// The answer to a request for the connection.
fn connection(alloc: Global) -> anyhow::Result<Answer> {
    let mut ports = NameList::new(alloc);
    ports.push(name("127.0.0.1:7100")?)?;
    Ok(Answer::Connection {
        port: Some(name("127.0.0.1:7100")?),
        state: State::Printing,
        ports,
    })
}

// The answer to a request for the printer.
fn printer() -> Answer {
    Answer::Printer {
        state: State::Printing,
        tool: Some(ShownHeat {
            actual: 214,
            target: 215,
        }),
        bed: Some(ShownHeat {
            actual: 60,
            target: 60,
        }),
    }
}

// The answer to a request for the job.
fn job() -> anyhow::Result<Answer> {
    Ok(Answer::Job {
        file: Some(file()?),
        progress: Some(Progress {
            completion: 66,
            place: 812_345,
        }),
        state: State::Printing,
    })
}

/// An answer of a kind.
pub fn answer_of(alloc: Global, kind: &str) -> anyhow::Result<Answer> {
    match kind {
        "accepted" => Ok(Answer::Accepted),
        "version" => Ok(Answer::Version),
        "connection" => connection(alloc),
        "printer" => Ok(printer()),
        "job" => job(),
        "files_10" => files(alloc, 10),
        "files_100" => files(alloc, 100),
        "files_1000" => files(alloc, 1000),
        "entries_10" => entries(alloc, 10),
        "wrong_state" => Ok(Answer::WrongState {
            state: State::Printing,
        }),
        _ => Err(anyhow::anyhow!("no such kind")),
    }
}
