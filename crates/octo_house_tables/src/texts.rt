//! Lines that users have the host issue.
ghost use Rattle.std.specs.Prelude.{◌≡◌, ◌++◌, codes, decimal, MatchResult};
ghost use Rattle.byte_text.specs.Sendable.{IsSendable};
ghost use Rattle.job_desk.specs.Views.{bytes_of};
ghost use Rattle.octo_house_rules.specs.Prints.{first_hot_text};
ghost use Rattle.octo_house_tables.specs.Lines.{AreLines, AreNoLines};

use byte_text::{Text, append, append_decimal};
use gcode_lines::one_command;
use octo_asks::Answer;
use octo_outside::Blob;
use std::alloc::Global;
use temp_rules::{Limits, TooHot, check};

/// The commands of texts, if each is one. The answer is `BadCommand` or `NoMemory`.
#[tactic(auto, using(crate::proofs::Commands::command_steps))]
pub fn read_lines(alloc: Global, texts: &[Blob]) -> Result<Vec<Text>, Answer>
    ensures { MatchResult result
        (λ lines. AreLines texts.now lines.items)
        (λ answer. AreNoLines texts.now answer) }
{
    let mut lines = Vec::new(alloc);
    for text in texts {
        let Ok(line) = one_command(text.as_slice()) else {
            return Err(Answer::BadCommand);
        };
        let Ok(()) = lines.push(line) else {
            return Err(Answer::NoMemory);
        };
    }
    Ok(lines)
}

/// The first value of lines that is above its limit.
pub fn first_hot_text(limits: &Limits, lines: &[Text]) -> Option<TooHot>
    ensures { result ≡ first_hot_text limits.now (bytes_of lines.now) }
{
    for line in lines {
        if let Err(hot) = check(line.as_slice(), limits) {
            return Some(hot);
        }
    }
    None
}

/// The line that sets the target of the tool, in degrees Celsius. Source: Marlin's `M104`.
#[tactic(auto, using(crate::proofs::Heated::heated_lines))]
pub fn tool_line(degrees: u16) -> Text
    ensures text { result.items ≡ codes "M104 S" ++ decimal degrees }
    ensures sendable { IsSendable result.items }
{
    let mut line = Text::new();
    append(&mut line, b"M104 S");
    append_decimal(&mut line, u64::from(degrees));
    line
}

/// The line that sets the target of the bed, in degrees Celsius. Source: Marlin's `M140`.
#[tactic(auto, using(crate::proofs::Heated::heated_lines))]
pub fn bed_line(degrees: u16) -> Text
    ensures text { result.items ≡ codes "M140 S" ++ decimal degrees }
    ensures sendable { IsSendable result.items }
{
    let mut line = Text::new();
    append(&mut line, b"M140 S");
    append_decimal(&mut line, u64::from(degrees));
    line
}
