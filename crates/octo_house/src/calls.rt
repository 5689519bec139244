//! The requests for the desk alone.
ghost use Rattle.std.specs.Prelude.{◌≡◌, All};
ghost use Rattle.byte_text.specs.Sendable.{IsSendable};
ghost use Rattle.job_desk.specs.Views.{bytes_of};
ghost use Rattle.octo_house_rules.specs.Prints.{connect_verdict, disconnect_verdict, heat_tool_verdict, heat_bed_verdict, lines_verdict, move_verdict, manual_verdict, pause_verdict, resume_verdict, toggle_verdict, cancel_verdict};
ghost use Rattle.octo_house_tables.specs.Counts.{IsPlain, answer_of_call};
ghost use Rattle.octo_house.specs.Facing.{Faces, IsApart};

use crate::HostDesk;
use byte_text::{Name, Text};
use job_desk::Refusal;
use octo_asks::Answer;
use octo_house_tables::{
    answer_of_refusal, bed_line, first_hot_text, port_for, read_lines, tool_line,
};
use octo_outside::Blob;
use temp_rules::TooHot;

// What the desk said as an answer.
fn answer_of_call(done: Result<(), Refusal>) -> Answer
    ensures { result ≡ answer_of_call done }
{
    match done {
        Ok(()) => Answer::Accepted,
        Err(refusal) => answer_of_refusal(refusal),
    }
}

impl HostDesk {
    /// Begins to connect to a port, the first one if none is named.
    pub fn connect(&mut self, port: &Option<Name>) -> Answer
        ensures done { Faces (connect_verdict port.now) result self.old self.new }
        ensures apart { IsApart self.old.session self.new.session }
        ensures plain { IsPlain result }
    {
        let Some(port) = port_for(port, self.ports.as_slice()) else {
            return Answer::BadPort;
        };
        answer_of_call(self.session.connect(&port))
    }

    /// Ends the connection.
    pub fn disconnect(&mut self) -> Answer
        ensures done { Faces disconnect_verdict result self.old self.new }
        ensures apart { IsApart self.old.session self.new.session }
        ensures plain { IsPlain result }
    {
        self.session.disconnect();
        Answer::Accepted
    }

    // Has the desk issue lines of a user.
    fn manual(&mut self, lines: &[Text]) -> Answer
        requires { All IsSendable (bytes_of lines.now) }
        ensures done { Faces (manual_verdict (bytes_of lines.now)) result self.old self.new }
        ensures apart { IsApart self.old.session self.new.session }
        ensures plain { IsPlain result }
    {
        if let Some(TooHot { asked, limit }) = first_hot_text(self.session.desk().limits(), lines) {
            return Answer::TooHot { asked, limit };
        }
        answer_of_call(self.session.manual(lines))
    }

    /// Sets the target of the tool, in degrees Celsius.
    pub fn heat_tool(&mut self, degrees: u16) -> Answer
        ensures done { Faces (heat_tool_verdict degrees) result self.old self.new }
        ensures apart { IsApart self.old.session self.new.session }
        ensures plain { IsPlain result }
    {
        self.manual(&[tool_line(degrees)])
    }

    /// Sets the target of the bed, in degrees Celsius.
    pub fn heat_bed(&mut self, degrees: u16) -> Answer
        ensures done { Faces (heat_bed_verdict degrees) result self.old self.new }
        ensures apart { IsApart self.old.session self.new.session }
        ensures plain { IsPlain result }
    {
        self.manual(&[bed_line(degrees)])
    }

    /// Sends command lines.
    pub fn lines(&mut self, texts: &[Blob]) -> Answer
        ensures done { Faces (lines_verdict texts.now) result self.old self.new }
        ensures apart { IsApart self.old.session self.new.session }
        ensures plain { IsPlain result }
    {
        match read_lines(self.alloc, texts) {
            Ok(lines) => self.manual(&lines),
            Err(answer) => answer,
        }
    }

    // Whether a print is active.
    fn is_active(&self) -> bool
        ensures { result ≡ self.now.session.desk.active }
    {
        self.session.desk().print().is_some()
    }

    /// Sends command lines that move the printer by hand; refused as WrongState while a print is active.
    pub fn move_by_hand(&mut self, texts: &[Blob]) -> Answer
        ensures done { Faces (move_verdict texts.now) result self.old self.new }
        ensures apart { IsApart self.old.session self.new.session }
        ensures plain { IsPlain result }
    {
        if self.is_active() {
            let state = self.session.desk().state();
            return Answer::WrongState { state };
        }
        self.lines(texts)
    }

    /// Pauses the print.
    pub fn pause(&mut self) -> Answer
        ensures done { Faces pause_verdict result self.old self.new }
        ensures apart { IsApart self.old.session self.new.session }
        ensures plain { IsPlain result }
    {
        answer_of_call(self.session.pause())
    }

    /// Resumes a paused print.
    pub fn resume(&mut self) -> Answer
        ensures done { Faces resume_verdict result self.old self.new }
        ensures apart { IsApart self.old.session self.new.session }
        ensures plain { IsPlain result }
    {
        answer_of_call(self.session.resume())
    }

    /// Pauses a print in Printing, resumes one in Paused.
    pub fn toggle(&mut self) -> Answer
        ensures done { Faces toggle_verdict result self.old self.new }
        ensures apart { IsApart self.old.session self.new.session }
        ensures plain { IsPlain result }
    {
        answer_of_call(self.session.toggle())
    }

    /// Cancels the print.
    pub fn cancel(&mut self) -> Answer
        ensures done { Faces cancel_verdict result self.old self.new }
        ensures apart { IsApart self.old.session self.new.session }
        ensures plain { IsPlain result }
    {
        answer_of_call(self.session.cancel())
    }
}
