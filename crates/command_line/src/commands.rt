ghost use Rattle.std.specs.Prelude.{◌≡◌, false, IfOk, map};
ghost use Rattle.clap.specs.Words.{app_of, rule_of, with_rule, with_subcommand};
ghost use Rattle.clap.specs.declared.builder.command.Command.TheViews.{out-Command as fields_of};
ghost use Rattle.command_line.specs.Asked.{command_line, named_line, with_commands};
ghost use Rattle.command_line.specs.aids.Rules.{command_by};

use crate::argument::Argument;
use crate::arguments;
use crate::arguments::{
    AT_LEAST, BODY, CALLS, CLIENTS, CONFLICTS, COPIES, DISTURB, DOCS, DOCUMENT, FAILED, FAULT,
    FIRST, GETS, HISTORIES, HISTORY, HTML, IN_TURNS, JSON, LINES, NEEDED_HISTORY, PROFILE, REPLY,
    RULE_OUT, SEED, SEEDS, UNTIL, WORKERS, WRITES,
};
use clap::{Arg, Command};
use std::alloc::{AllocError, Global};

/// The name of the command that checks a history.
pub const CHECK: &str = "check";

/// The name of the command that writes the witness of a history.
pub const WITNESS: &str = "witness";

/// The name of the command that checks a witness against a history.
pub const VERIFY: &str = "verify";

/// The name of the command that writes a bulk as lines of a history.
pub const BULK: &str = "bulk";

/// The name of the command that runs clients against a replication group.
pub const RUN: &str = "run";

/// The name of the command that checks a history, and explains what was found.
pub const EXPLAIN: &str = "explain";

// Returns the command with one more argument, which is not global.
fn with_argument<'a>(command: Command<'a>, argument: Arg<'a>) -> Result<Command<'a>, AllocError>
    requires { argument.global ≡ false }
    ensures line { IfOk result (λ reported. app_of reported ≡ with_rule (app_of command.entry) (rule_of argument.entry)) }
    ensures local { IfOk result (λ reported. (fields_of reported).has_globals ≡ (fields_of command.entry).has_globals) }
{
    command.arg(argument)
}

// A command: its name, what the help says of it and after its arguments, and these, in the order of the help.
struct Usage<'a> {
    name: &'a str,
    about: &'a str,
    examples: &'a str,
    arguments: &'a [Argument<'a>],
}

// The commands, in the order of the help.
const USAGES: &[Usage<'static>] = &[
    Usage {
        name: CHECK,
        about: "Check histories; casbench without a command checks standard input",
        examples: "Examples:\n  casbench check history.ndjson\n  casbench check carts.ndjson --profile opensearch\n  casbench check monday.ndjson tuesday.ndjson --at-least 1000",
        arguments: &[
            HISTORIES, PROFILE, GETS, CONFLICTS, WRITES, FAILED, WORKERS, RULE_OUT, AT_LEAST, JSON,
        ],
    },
    Usage {
        name: WITNESS,
        about: "Write the witness of a history",
        examples: "Example:\n  casbench witness history.ndjson > history.witness",
        arguments: &[
            HISTORY, PROFILE, GETS, CONFLICTS, WRITES, FAILED, RULE_OUT, JSON,
        ],
    },
    Usage {
        name: VERIFY,
        about: "Check a witness against a history",
        examples: "Example:\n  casbench verify history.ndjson history.witness",
        arguments: &[
            NEEDED_HISTORY,
            arguments::WITNESS,
            PROFILE,
            GETS,
            CONFLICTS,
            WRITES,
            FAILED,
            JSON,
        ],
    },
    Usage {
        name: BULK,
        about: "Write a bulk request and its reply as lines of a history",
        examples: "Example:\n  casbench bulk bulk.body bulk.reply --first 100 >> history.ndjson",
        arguments: &[BODY, REPLY, FIRST],
    },
    Usage {
        name: RUN,
        about: "Run clients against a replication group, and write the history that they record",
        examples: "Examples:\n  casbench run --seed 1 --clients 4 --calls 200 --docs 3 --copies 3 --fault none > history.ndjson\n  casbench run --until refuted --seeds 1-1000 --clients 4 --calls 50 --docs 2 --copies 3 --fault dirty --disturb storm > history.ndjson",
        arguments: &[
            SEED, CLIENTS, CALLS, DOCS, COPIES, FAULT, IN_TURNS, DISTURB, UNTIL, SEEDS,
        ],
    },
    Usage {
        name: EXPLAIN,
        about: "Check a history and explain the result",
        examples: "Examples:\n  casbench explain history.ndjson --html explanation.html\n  casbench explain history.ndjson --document cart-7 --html timeline.html",
        arguments: &[
            HISTORY, PROFILE, GETS, CONFLICTS, WRITES, FAILED, WORKERS, RULE_OUT, HTML, DOCUMENT,
            LINES, JSON,
        ],
    },
];

impl<'a> Usage<'a> {
    // Returns the command. None of its arguments is global.
    fn to_command(&self, alloc: Global) -> Result<Command<'a>, AllocError>
        ensures line { IfOk result (λ command. app_of command ≡ command_by self.now) }
        ensures local { IfOk result (λ command. (fields_of command).has_globals ≡ false) }
    {
        let mut command = Command::new(alloc, self.name)
            .about(self.about)
            .after_help(self.examples);
        for argument in self.arguments {
            command = with_argument(command, argument.to_arg(alloc))?;
        }
        Ok(command)
    }
}

// Returns the program with one more command.
fn with_command<'a>(
    alloc: Global,
    program: Command<'a>,
    usage: &Usage<'a>,
) -> Result<Command<'a>, AllocError>
    ensures { IfOk result (λ reported. app_of reported ≡ with_subcommand (app_of program.entry) (command_by usage.now).top) }
{
    program.subcommand(usage.to_command(alloc)?)
}

// Returns the program with these commands after its own.
fn with_commands<'a>(
    alloc: Global,
    program: Command<'a>,
    usages: &[Usage<'a>],
) -> Result<Command<'a>, AllocError>
    ensures { IfOk result (λ reported. app_of reported ≡ with_commands (app_of program.entry) (map command_by usages.now)) }
{
    let mut program = program;
    for usage in usages {
        program = with_command(alloc, program, usage)?;
    }
    Ok(program)
}

// Returns the program without its commands.
fn named_program<'a>(alloc: Global) -> Result<Command<'a>, AllocError>
    ensures { IfOk result (λ program. app_of program ≡ named_line) }
{
    Ok(
        Command::new(alloc, "casbench")
            .bin_name("casbench")?
            .version("0.1.0")
            .about(
                "Checks whether a recorded history of an OpenSearch index keeps the compare-and-set promise",
            )
            .after_help(
                "Exit status:\n  0   yes, verified, or a text was written\n  1   no, refuted or broken; no run was found\n  2   a text is refused\n  3   out of memory\n  4   a file or stream can't be read or written\n  5   a worker failed, or a recording was lost\n  6   yes, with fewer calls than --at-least asks for\n  64  the arguments are refused\n\nExamples:\n  casbench check history.ndjson\n  casbench witness history.ndjson > history.witness\n  casbench verify history.ndjson history.witness\n  casbench bulk bulk.body bulk.reply --first 100 >> history.ndjson\n  casbench run --seed 1 --clients 4 --calls 200 --docs 3 --copies 3 --fault none\n  casbench explain history.ndjson --html explanation.html",
            ),
    )
}

/// Returns the program with its commands.
pub fn program<'a>(alloc: Global) -> Result<Command<'a>, AllocError>
    ensures { IfOk result (λ program. app_of program ≡ command_line) }
{
    with_commands(alloc, named_program(alloc)?, USAGES)
}

/// Returns the command of this name as a program of its own, whose usage begins with `casbench` and the name; the
/// program with its commands if there is no such command.
pub fn command_alone<'a>(alloc: Global, name: &str) -> Result<Command<'a>, AllocError> {
    for usage in USAGES {
        if *usage.name == *name {
            let called = format!(in alloc; "casbench {name}")?;
            return usage.to_command(alloc)?.bin_name(called.as_str());
        }
    }
    program(alloc)
}
