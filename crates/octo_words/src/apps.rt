//! The command line over `clap`: a table of arguments a command.
ghost use Rattle.std.specs.Prelude.{◌≡◌, false, true, fold, IfOk};
ghost use Rattle.clap.specs.Words.{App, app_of, new_app, rule_of, with_subcommand};
ghost use Rattle.clap.specs.declared.builder.command.Command.TheViews.{out-Command};
ghost use Rattle.octo_words.specs.Apps.{operand, option, needed_option, flag, rule_of_kind, with_argument, print_app, sure_app, check_app, demo_app, measure_app, rest_app, serve_app, floor_app, bare_app, helped_bare_app, with_commands, printing_commands, file_commands, octo_app, helped_app};

use clap::{Arg, ArgAction, Command};
use std::alloc::{AllocError, Global};

// What `octo --version` prints after the program's name.
const VERSION: &str = "1";

// An argument that has its place and must be given.
fn operand<'a>(alloc: Global, id: &'a str) -> Arg<'a>
    ensures rule { rule_of result ≡ operand id.entry.now }
    ensures local { result.global ≡ false }
{
    Arg::new(alloc, id).required(true).action(ArgAction::Set)
}

// An option `--id VALUE`, which may be left out.
fn option<'a>(alloc: Global, id: &'a str) -> Arg<'a>
    ensures rule { rule_of result ≡ option id.entry.now }
    ensures local { result.global ≡ false }
{
    Arg::new(alloc, id).long(id).action(ArgAction::Set)
}

// An option `--id VALUE` that must be given.
fn needed_option<'a>(alloc: Global, id: &'a str) -> Arg<'a>
    ensures rule { rule_of result ≡ needed_option id.entry.now }
    ensures local { result.global ≡ false }
{
    Arg::new(alloc, id)
        .long(id)
        .required(true)
        .action(ArgAction::Set)
}

// An option `--id` without a value, which may be left out.
fn flag<'a>(alloc: Global, id: &'a str) -> Arg<'a>
    ensures rule { rule_of result ≡ flag id.entry.now }
    ensures local { result.global ≡ false }
{
    Arg::new(alloc, id).long(id).action(ArgAction::SetTrue)
}

// How an argument is given.
#[derive(Clone, Copy)]
enum Kind {
    // At its place, always.
    Operand,
    // As an option, which may be left out.
    Optional,
    // As an option, always.
    Needed,
    // As an option without a value, which may be left out.
    Flag,
}

fn argument<'a>(alloc: Global, kind: Kind, id: &'a str) -> Arg<'a>
    ensures rule { rule_of result ≡ rule_of_kind kind id.entry.now }
    ensures local { result.global ≡ false }
{
    match kind {
        Kind::Operand => operand(alloc, id),
        Kind::Optional => option(alloc, id),
        Kind::Needed => needed_option(alloc, id),
        Kind::Flag => flag(alloc, id),
    }
}

// A command with these arguments, in their order, and a line that says what it does.
fn command<'a>(
    alloc: Global,
    name: &'a str,
    about: &'a str,
    arguments: &[(Kind, &'a str)],
) -> Result<Command<'a>, AllocError>
    ensures app { IfOk result (λ c.
        app_of c ≡ fold with_argument (new_app name.entry.now) arguments.now) }
    ensures local { IfOk result (λ c. (out-Command c).has_globals ≡ false) }
{
    let mut command = Command::new(alloc, name).about(about);
    for (kind, id) in arguments {
        command = command.arg(argument(alloc, *kind, id))?;
    }
    Ok(command)
}

fn print_app<'a>(alloc: Global) -> Result<Command<'a>, AllocError>
    ensures app { IfOk result (λ c. app_of c ≡ print_app) }
    ensures local { IfOk result (λ c. (out-Command c).has_globals ≡ false) }
{
    command(
        alloc,
        "print",
        "Prints a G-code file over the printer at a port, HOST:PORT or unix:PATH",
        &[
            (Kind::Operand, "port"),
            (Kind::Operand, "file"),
            (Kind::Optional, "turns"),
            (Kind::Optional, "settings"),
            (Kind::Flag, "progress"),
        ],
    )
}

fn sure_app<'a>(alloc: Global) -> Result<Command<'a>, AllocError>
    ensures app { IfOk result (λ c. app_of c ≡ sure_app) }
    ensures local { IfOk result (λ c. (out-Command c).has_globals ≡ false) }
{
    command(
        alloc,
        "sure",
        "Prints as `print` does, also if replies are lost, over a printer whose `ok`s have numbers",
        &[
            (Kind::Operand, "port"),
            (Kind::Operand, "file"),
            (Kind::Optional, "turns"),
            (Kind::Optional, "settings"),
        ],
    )
}

fn check_app<'a>(alloc: Global) -> Result<Command<'a>, AllocError>
    ensures app { IfOk result (λ c. app_of c ≡ check_app) }
    ensures local { IfOk result (λ c. (out-Command c).has_globals ≡ false) }
{
    command(
        alloc,
        "check",
        "Counts the commands of a file, and refuses it as `print` would",
        &[(Kind::Operand, "file"), (Kind::Optional, "settings")],
    )
}

fn demo_app<'a>(alloc: Global) -> Result<Command<'a>, AllocError>
    ensures app { IfOk result (λ c. app_of c ≡ demo_app) }
    ensures local { IfOk result (λ c. (out-Command c).has_globals ≡ false) }
{
    command(
        alloc,
        "demo",
        "Prints a made-up file over a link in memory that loses and corrupts lines",
        &[
            (Kind::Operand, "seed"),
            (Kind::Operand, "commands"),
            (Kind::Optional, "lost-replies"),
        ],
    )
}

fn measure_app<'a>(alloc: Global) -> Result<Command<'a>, AllocError>
    ensures app { IfOk result (λ c. app_of c ≡ measure_app) }
    ensures local { IfOk result (λ c. (out-Command c).has_globals ≡ false) }
{
    command(
        alloc,
        "measure",
        "Measures a file's filament and where its moves end",
        &[(Kind::Operand, "file")],
    )
}

fn rest_app<'a>(alloc: Global) -> Result<Command<'a>, AllocError>
    ensures app { IfOk result (λ c. app_of c ≡ rest_app) }
    ensures local { IfOk result (λ c. (out-Command c).has_globals ≡ false) }
{
    command(
        alloc,
        "rest",
        "Writes the file that goes on at a command, counted from 0",
        &[(Kind::Operand, "file"), (Kind::Operand, "command")],
    )
}

fn serve_app<'a>(alloc: Global) -> Result<Command<'a>, AllocError>
    ensures app { IfOk result (λ c. app_of c ≡ serve_app) }
    ensures local { IfOk result (λ c. (out-Command c).has_globals ≡ false) }
{
    command(
        alloc,
        "serve",
        "Serves the REST API at HOST:PORT, over a folder of files and a database",
        &[
            (Kind::Operand, "address"),
            (Kind::Operand, "folder"),
            (Kind::Operand, "database"),
            (Kind::Needed, "settings"),
        ],
    )
}

fn floor_app<'a>(alloc: Global) -> Result<Command<'a>, AllocError>
    ensures app { IfOk result (λ c. app_of c ≡ floor_app) }
    ensures local { IfOk result (λ c. (out-Command c).has_globals ≡ false) }
{
    command(
        alloc,
        "floor",
        "Prints the queue of a database on 2 to 8 printers, with the files of a folder",
        &[
            (Kind::Operand, "folder"),
            (Kind::Operand, "database"),
            (Kind::Needed, "settings"),
            (Kind::Optional, "turns"),
        ],
    )
}

// The program without its commands.
fn bare_app<'a>(alloc: Global) -> Command<'a>
    ensures app { app_of result ≡ bare_app }
    ensures local { (out-Command result).has_globals ≡ false }
{
    Command::new(alloc, "octo")
        .no_binary_name(true)
        .disable_help_flag(true)
        .disable_help_subcommand(true)
        .disable_version_flag(true)
        .subcommand_required(true)
}

// A program with one more command, unless memory ran out for either.
fn with_command<'a>(
    program: Result<Command<'a>, AllocError>,
    command: Result<Command<'a>, AllocError>,
) -> Result<Command<'a>, AllocError>
    requires { IfOk command (λ c. (out-Command c).has_globals ≡ false) }
    ensures { (before app : App) → IfOk program.entry (λ c. app_of c ≡ before)
        → IfOk command.entry (λ c. app_of c ≡ app)
        → IfOk result (λ c. app_of c ≡ with_subcommand before app.top) }
{
    program?.subcommand(command?)
}

// The program without its commands, if it shows help and its version.
fn helped_bare_app<'a>(alloc: Global) -> Command<'a>
    ensures app { app_of result ≡ helped_bare_app }
    ensures local { (out-Command result).has_globals ≡ false }
{
    Command::new(alloc, "octo")
        .about("A print host for 3D printers with Marlin")
        .after_help("docs/USING.md and docs/SERVING.md say what each command does.")
        .version(VERSION)
        .no_binary_name(true)
        .subcommand_required(true)
}

// A program with `print`, `sure`, `check` and `demo` too.
fn with_printing<'a>(
    alloc: Global,
    program: Result<Command<'a>, AllocError>,
) -> Result<Command<'a>, AllocError>
    ensures { (before : App) → IfOk program.entry (λ c. app_of c ≡ before)
        → IfOk result (λ c. app_of c ≡ with_commands before printing_commands) }
{
    let program = with_command(program, print_app(alloc));
    let program = with_command(program, sure_app(alloc));
    let program = with_command(program, check_app(alloc));
    with_command(program, demo_app(alloc))
}

// A program with `measure`, `rest`, `serve` and `floor` too.
fn with_files<'a>(
    alloc: Global,
    program: Result<Command<'a>, AllocError>,
) -> Result<Command<'a>, AllocError>
    ensures { (before : App) → IfOk program.entry (λ c. app_of c ≡ before)
        → IfOk result (λ c. app_of c ≡ with_commands before file_commands) }
{
    let program = with_command(program, measure_app(alloc));
    let program = with_command(program, rest_app(alloc));
    let program = with_command(program, serve_app(alloc));
    with_command(program, floor_app(alloc))
}

// The program with all its commands.
pub(crate) fn octo_app<'a>(alloc: Global) -> Result<Command<'a>, AllocError>
    ensures { IfOk result (λ c. app_of c ≡ octo_app) }
{
    let program = with_printing(alloc, Ok(bare_app(alloc)));
    with_files(alloc, program)
}

// The program with all its commands, if it shows help and its version.
pub(crate) fn helped_app<'a>(alloc: Global) -> Result<Command<'a>, AllocError>
    ensures { IfOk result (λ c. app_of c ≡ helped_app) }
{
    let program = with_printing(alloc, Ok(helped_bare_app(alloc)));
    with_files(alloc, program)
}
