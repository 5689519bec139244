//! The scripts that run around connections and prints, as OctoPrint's GCODE scripts do.
ghost use Rattle.std.specs.Prelude.{◌≡◌, ◌<◌, ◌≤◌, ◌++◌, ◌↔◌, [], ◌∷◌, length, map, slice_get, Some, None, IfSome, IfOk, OnOk, OnErr};
ghost use Rattle.std.specs.Option.{option_map, option_copied};
ghost use Rattle.byte_text.specs.Sendable.{IsSendable};
ghost use Rattle.job_desk.specs.Data.{texts_at};
ghost use Rattle.job_desk.specs.Scripts.{most_script_lines, no_scripts, with_text};
ghost use Rattle.job_desk.specs.Views.{bytes_of};

use crate::Point;
use byte_text::{Text, bounded_text};
use std::alloc::{AllocError, Global};
use std::marker::Model;
use thiserror::Error;

/// The most lines of a script.
pub const MOST_SCRIPT_LINES: usize = 64;

/// Why a line does not join a script.
#[derive(Clone, Copy, Debug, PartialEq, Eq, Error)]
pub enum AddFault {
    /// The script has 64 lines.
    #[error("script: over 64 lines")]
    TooMany,
    /// Memory ran out.
    #[error("out of memory")]
    NoMemory,
}

// A copy of texts.
fn copy_texts(alloc: Global, texts: &[Text]) -> Result<Vec<Text>, AllocError>
    ensures { IfOk result (λ copy. bytes_of copy.items ≡ bytes_of texts.now) }
{
    let mut copies = Vec::new(alloc);
    for text in texts {
        copies.push(bounded_text(text.as_slice()))?;
    }
    Ok(copies)
}

// The texts of one script.
#[derive(Drop)]
pub(crate) struct Script {
    texts: Vec<Text>,
}

impl Model for Script {
    ghost use Rattle.std.specs.Prelude.{ℕ, List, map};
    ghost use Rattle.job_desk.specs.Scripts.{IsScriptList};

    ghost Value = { List (List ℕ) };

    ghost view = { λ s. map (λ t. t.items) s.texts.items };

    ghost invariant = { λ s. IsScriptList (map (λ t. t.items) s.texts.items) };
}

impl Script {
    fn new(alloc: Global) -> Script
        ensures { result ≡ [] }
    {
        Script {
            texts: Vec::new(alloc),
        }
    }

    // Adds a text at the end. After a fault the script is as before.
    fn add(&mut self, text: &Text) -> Result<(), AddFault>
        requires { IsSendable text.now.items }
        ensures ok { OnOk result (self.new ≡ self.old ++ text.now.items ∷ []) }
        ensures err { OnErr result (self.new ≡ self.old) }
        ensures too_many { (result ≡ Err AddFault.TooMany) ↔ (length self.old ≡ most_script_lines) }
    {
        if self.texts.len() >= MOST_SCRIPT_LINES {
            return Err(AddFault::TooMany);
        }
        match self.texts.push(bounded_text(text.as_slice())) {
            Ok(()) => Ok(()),
            Err(_) => Err(AddFault::NoMemory),
        }
    }

    // A copy of the script. Fails only if out of memory.
    fn copy(&self, alloc: Global) -> Result<Script, AllocError>
        ensures { IfOk result (λ copy. copy ≡ self.now) }
    {
        let texts = copy_texts(alloc, &self.texts)?;
        Ok(Script { texts })
    }

    fn get(&self, i: usize) -> Option<&Text>
        ensures value { option_map (λ t. t.items) (option_copied result) ≡ slice_get self.now i }
        ensures sendable { IfSome result (λ t. IsSendable t.now.items) }
    {
        self.texts.get(i)
    }

    fn len(&self) -> usize
        ensures value { result ≡ length self.now }
        ensures few { result ≤ most_script_lines }
    {
        self.texts.len()
    }
}

/// Up to 64 texts for each point, each of which may be sent.
#[derive(Drop)]
pub struct Scripts {
    connected: Script,
    disconnect: Script,
    started: Script,
    paused: Script,
    resumed: Script,
    cancelled: Script,
    done: Script,
}

impl Model for Scripts {
    ghost use Rattle.job_desk.specs.Data.{ScriptTexts};

    ghost Value = { ScriptTexts };

    ghost view = { λ s. record {
      connected = s.connected;
      disconnect = s.disconnect;
      started = s.started;
      paused = s.paused;
      resumed = s.resumed;
      cancelled = s.cancelled;
      done = s.done;
    } };
}

impl Scripts {
    /// No script has a line. Takes no memory.
    pub fn new(alloc: Global) -> Scripts
        ensures { result ≡ no_scripts }
    {
        Scripts {
            connected: Script::new(alloc),
            disconnect: Script::new(alloc),
            started: Script::new(alloc),
            paused: Script::new(alloc),
            resumed: Script::new(alloc),
            cancelled: Script::new(alloc),
            done: Script::new(alloc),
        }
    }

    /// Adds a text at the end of a script. Refused as TooMany if the script has 64 lines, fails if out of memory; the scripts are
    /// then as before.
    pub fn add(&mut self, point: Point, text: &Text) -> Result<(), AddFault>
        requires { IsSendable text.now.items }
        ensures ok { OnOk result (self.new ≡ with_text point text.now.items self.old) }
        ensures err { OnErr result (self.new ≡ self.old) }
        ensures too_many { (result ≡ Err AddFault.TooMany)
            ↔ (length (texts_at point self.old) ≡ most_script_lines) }
    {
        match point {
            Point::Connected => self.connected.add(text),
            Point::Disconnect => self.disconnect.add(text),
            Point::Started => self.started.add(text),
            Point::Paused => self.paused.add(text),
            Point::Resumed => self.resumed.add(text),
            Point::Cancelled => self.cancelled.add(text),
            Point::Done => self.done.add(text),
        }
    }

    // The script at a point.
    fn at(&self, point: Point) -> &Script
        ensures { result.now ≡ texts_at point self.now }
    {
        match point {
            Point::Connected => &self.connected,
            Point::Disconnect => &self.disconnect,
            Point::Started => &self.started,
            Point::Paused => &self.paused,
            Point::Resumed => &self.resumed,
            Point::Cancelled => &self.cancelled,
            Point::Done => &self.done,
        }
    }

    /// A script's text at a place, counted from 0.
    pub fn get(&self, point: Point, i: usize) -> Option<&Text>
        ensures value { option_map (λ t. t.items) (option_copied result)
            ≡ slice_get (texts_at point self.now) i }
        ensures sendable { IfSome result (λ t. IsSendable t.now.items) }
    {
        self.at(point).get(i)
    }

    /// How many texts a script has.
    pub fn count(&self, point: Point) -> usize
        ensures value { result ≡ length (texts_at point self.now) }
        ensures few { result ≤ most_script_lines }
    {
        self.at(point).len()
    }
    /// A copy of the scripts, for a further printer. Fails only if out of memory.
    pub fn copy(&self, alloc: Global) -> Result<Scripts, AllocError>
        ensures { IfOk result (λ copy. copy ≡ self.now) }
    {
        Ok(Scripts {
            connected: self.connected.copy(alloc)?,
            disconnect: self.disconnect.copy(alloc)?,
            started: self.started.copy(alloc)?,
            paused: self.paused.copy(alloc)?,
            resumed: self.resumed.copy(alloc)?,
            cancelled: self.cancelled.copy(alloc)?,
            done: self.done.copy(alloc)?,
        })
    }
}
