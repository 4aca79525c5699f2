//! The commands of `poolcc`, as `clap` knows them.
ghost use Rattle.std.specs.Prelude.{◌≡◌, ◌∷◌, [], IfOk};
ghost use Rattle.clap.specs.Words.{app_of, new_app, with_rule};
ghost use Rattle.pcc_words.specs.Line.{Index, OnePool, Slabs, Steps, build_choices, flag_name};
ghost use Rattle.pcc_words.specs.Clap.{IsLocal, app, file_rule, flag_rule, leaf, number_rule, setting_rule};

use clap::builder::ValueParser;
use clap::{Arg, ArgAction, Command};
use std::alloc::{AllocError, Global};

/// The most slabs that the memory of a program may have.
const MOST_SLABS: u64 = 1_048_576;

/// The greatest index of an object.
const MOST_INDEX: u64 = 4_294_967_295;

/// The most steps that a run may be given.
const MOST_STEPS: u64 = 1 << 62;

/// The program with its commands.
pub(crate) fn poolcc<'a>(alloc: Global) -> Result<Command<'a>, AllocError>
    ensures { IfOk result (λ command. app_of command ≡ app) }
{
    let build = compiling(alloc, "build")?;
    let exec = with_steps(alloc, compiling(alloc, "exec")?)?;
    let run = with_steps(alloc, of_file(alloc, "run")?)?;
    let reference = with_steps(alloc, of_file(alloc, "ref")?)?;
    let graph = of_file(alloc, "graph")?;
    Command::new(alloc, "poolcc")
        .subcommand_required(true)
        .disable_help_flag(true)
        .disable_help_subcommand(true)
        .subcommand(build)?
        .subcommand(exec)?
        .subcommand(run)?
        .subcommand(reference)?
        .subcommand(graph)
}

// A command that compiles its file.
fn compiling<'a>(alloc: Global, name: &'a str) -> Result<Command<'a>, AllocError>
    ensures { IfOk result (λ command. IsLocal command
        × (app_of command ≡ leaf name.entry.now build_choices)) }
{
    with_flags(alloc, with_limits(alloc, of_file(alloc, name)?)?)
}

// A command that takes a file.
fn of_file<'a>(alloc: Global, name: &'a str) -> Result<Command<'a>, AllocError>
    ensures { IfOk result (λ command. IsLocal command
        × (app_of command ≡ with_rule (new_app name.entry.now) file_rule)) }
{
    let file = Arg::new(alloc, "file").required(true);
    Command::new(alloc, name).arg(file)
}

fn with_limits<'a>(alloc: Global, command: Command<'a>) -> Result<Command<'a>, AllocError>
    ensures { IfOk result (λ after. (IsLocal command.entry → IsLocal after)
        × (app_of after ≡ with_rule (with_rule (app_of command.entry) (setting_rule Slabs))
        (setting_rule Index))) }
{
    let command = with_number(alloc, command, "slabs", MOST_SLABS)?;
    with_number(alloc, command, "index", MOST_INDEX)
}

fn with_flags<'a>(alloc: Global, command: Command<'a>) -> Result<Command<'a>, AllocError>
    ensures { IfOk result (λ after. (IsLocal command.entry → IsLocal after)
        × (app_of after ≡ with_rule (app_of command.entry) (flag_rule (flag_name OnePool)))) }
{
    with_flag(alloc, command, "one-pool")
}

fn with_steps<'a>(alloc: Global, command: Command<'a>) -> Result<Command<'a>, AllocError>
    ensures { IfOk result (λ after. (IsLocal command.entry → IsLocal after)
        × (app_of after ≡ with_rule (app_of command.entry) (setting_rule Steps))) }
{
    with_number(alloc, command, "steps", MOST_STEPS)
}

// The command with an option `--name`, whose value is a number from 1 on.
fn with_number<'a>(
    alloc: Global,
    command: Command<'a>,
    name: &'a str,
    most: u64,
) -> Result<Command<'a>, AllocError>
    ensures { IfOk result (λ after. (IsLocal command.entry → IsLocal after)
        × (app_of after ≡ with_rule (app_of command.entry) (number_rule name.entry.now most))) }
{
    let number = Arg::new(alloc, name)
        .long(name)
        .value_parser(ValueParser::unsigned(1, most));
    command.arg(number)
}

// The command with an option `--name` that takes no value.
fn with_flag<'a>(
    alloc: Global,
    command: Command<'a>,
    name: &'a str,
) -> Result<Command<'a>, AllocError>
    ensures { IfOk result (λ after. (IsLocal command.entry → IsLocal after)
        × (app_of after ≡ with_rule (app_of command.entry) (flag_rule name.entry.now))) }
{
    let flag = Arg::new(alloc, name)
        .long(name)
        .action(ArgAction::Set)
        .num_args(0_usize)
        .default_missing_value("true");
    command.arg(flag)
}
