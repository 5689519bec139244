//! Refusals as printed.
ghost use Rattle.std.specs.Prelude.{◌≡◌, ◌≤◌, ◌++◌, [], length, codes, decimal};
ghost use Rattle.byte_text.specs.declared.name.TheConstants.{MOST_NAME_BYTES};
ghost use Rattle.arrayvec.specs.ArrayVec.{array_vec_len};
ghost use Rattle.octo_files.specs.Faults.{settings_line, script_fault, settings_text, file_line, file_text, over_text, hot_text, measure_fault_text, end_line, end_text};

use crate::page::{Page, append_whole};
use byte_text::append;
use gcode_lines::FileFault;
use gcode_measure::MeasureFault;
use octo_settings::{SettingsFault, script_key};
use send_window::SessionEnd;
use temp_rules::HotLine;

// Puts what is wrong with a key of the settings.
fn put_key(page: &mut Page, key: &[u8], what: &[u8])
    requires empty { page.old.items ≡ [] }
    requires short_key { length key.now ≤ MOST_NAME_BYTES }
    requires short { length what.now ≤ 100 }
    ensures { page.new.items ≡ settings_line key.now what.now }
{
    append(page, b"settings: ");
    append(page, key);
    append(page, what);
}

// Puts that a script's command is too hot.
fn put_hot_script(page: &mut Page, key: &[u8], line: u32)
    requires empty { page.old.items ≡ [] }
    requires short { length key.now ≤ MOST_NAME_BYTES }
    ensures { page.new.items ≡ settings_line key.now (script_fault line) }
{
    append(page, b"settings: ");
    append(page, key);
    append(page, b": line ");
    append_whole(page, u64::from(line));
    append(page, b": too hot\n");
}

// Puts why settings are refused.
pub(crate) fn put_settings(page: &mut Page, fault: &SettingsFault)
    requires { page.old.items ≡ [] }
    ensures { page.new.items ≡ settings_text fault.now }
{
    match fault {
        SettingsFault::NotToml => append(page, b"settings: not toml\n"),
        SettingsFault::Missing { key } => put_key(page, key.as_bytes(), b": missing\n"),
        SettingsFault::WrongKind { key } => put_key(page, key.as_bytes(), b": wrong kind\n"),
        SettingsFault::OutOfRange { key } => put_key(page, key.as_bytes(), b": out of range\n"),
        SettingsFault::Template { script } => {
            put_key(page, script_key(*script).as_bytes(), b": template\n")
        }
        SettingsFault::TooHot { script, line } => {
            put_hot_script(page, script_key(*script).as_bytes(), *line)
        }
        SettingsFault::NoMemory => append(page, b"no memory\n"),
    }
}

// Puts what is wrong with a line of the file.
fn put_line(page: &mut Page, line: u32, what: &[u8])
    requires empty { page.old.items ≡ [] }
    requires short { length what.now ≤ 100 }
    ensures items { page.new.items ≡ file_line line what.now }
    ensures len { array_vec_len page.new ≤ 160 }
{
    append(page, b"file: line ");
    append_whole(page, u64::from(line));
    append(page, what);
}

// Puts why a file is refused.
pub(crate) fn put_file(page: &mut Page, fault: FileFault)
    requires { page.old.items ≡ [] }
    ensures { page.new.items ≡ file_text fault }
{
    match fault {
        FileFault::TooLong { line } => put_line(page, line, b": too long\n"),
        FileFault::ControlByte { line } => put_line(page, line, b": control byte\n"),
        FileFault::TooLarge { bytes } => {
            append(page, b"file: ");
            append_whole(page, bytes);
            append(page, b" bytes: too large\n");
        }
        FileFault::NoMemory => append(page, b"no memory\n"),
    }
}

// Adds what a command asks for, and the limit that it is over.
fn append_over(page: &mut Page, asked: u64, limit: u16)
    requires { array_vec_len page.old ≤ 160 }
    ensures { page.new.items ≡ page.old.items ++ over_text asked limit }
{
    append_whole(page, asked);
    append(page, b" over ");
    append_whole(page, u64::from(limit));
    append(page, b"\n");
}

// Puts that a command of the file is too hot.
pub(crate) fn put_hot(page: &mut Page, hot: HotLine)
    requires { page.old.items ≡ [] }
    ensures { page.new.items ≡ hot_text hot }
{
    put_line(page, hot.line, b": too hot: ");
    append_over(page, hot.asked, hot.limit);
}

// Puts why a file isn't measured.
pub(crate) fn put_measure_fault(page: &mut Page, fault: MeasureFault)
    requires { page.old.items ≡ [] }
    ensures { page.new.items ≡ measure_fault_text fault }
{
    match fault {
        MeasureFault::Inches { line } => put_line(page, line, b": inches\n"),
        MeasureFault::TooFar { line } => put_line(page, line, b": too far\n"),
    }
}

// Puts how a session ended, by two numbers.
fn put_numbers(
    page: &mut Page,
    before: &[u8],
    first: u32,
    between: &[u8],
    second: u32,
    after: &[u8],
)
    requires empty { page.old.items ≡ [] }
    requires short_before { length before.now ≤ 10 }
    requires short_between { length between.now ≤ 10 }
    requires short_after { length after.now ≤ 20 }
    ensures { page.new.items ≡ end_line
        (before.now ++ decimal first ++ between.now ++ decimal second ++ after.now) }
{
    append(page, b"session ended: ");
    append(page, before);
    append_whole(page, u64::from(first));
    append(page, between);
    append_whole(page, u64::from(second));
    append(page, after);
    append(page, b"\n");
}

// Puts how a session ended, with the number that says so.
fn put_number(page: &mut Page, before: &[u8], number: u32, after: &[u8])
    requires empty { page.old.items ≡ [] }
    requires short_before { length before.now ≤ 20 }
    requires short_after { length after.now ≤ 20 }
    ensures { page.new.items ≡ end_line (before.now ++ decimal number ++ after.now) }
{
    append(page, b"session ended: ");
    append(page, before);
    append_whole(page, u64::from(number));
    append(page, after);
    append(page, b"\n");
}

// Puts how a session ended.
pub(crate) fn put_end(page: &mut Page, end: SessionEnd)
    requires { page.old.items ≡ [] }
    ensures { page.new.items ≡ end_text end }
{
    match end {
        SessionEnd::NoAnswer { silent } => {
            put_number(page, b"no answer, ", u32::from(silent), b" limits")
        }
        SessionEnd::AskedBack { asked, acked } => {
            put_numbers(page, b"line ", asked, b" asked, ", acked, b" acknowledged")
        }
        SessionEnd::AskedAhead { asked, issued } => {
            put_numbers(page, b"line ", asked, b" asked, ", issued, b" issued")
        }
        SessionEnd::Counts { number, expected } => {
            put_numbers(page, b"ok for ", number, b", ", expected, b" expected")
        }
        SessionEnd::Restarted => append(page, b"session ended: printer restarted\n"),
        SessionEnd::LostOk { limits } => {
            put_number(page, b"an ok is missing, ", u32::from(limits), b" limits")
        }
        SessionEnd::NumbersUsed { issued } => put_number(page, b"", issued, b" lines"),
    }
}
