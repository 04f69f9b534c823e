ghost use Rattle.std.specs.Prelude.{◌≡◌, false};
ghost use Rattle.clap.specs.Words.{rule_of};
ghost use Rattle.command_line.specs.Asked.{file_rule};
ghost use Rattle.command_line.specs.aids.Rules.{rule_of_argument};

use clap::builder::ValueParser;
use clap::{Arg, ArgAction};
use std::alloc::Global;

/// What an argument takes, and whether it may be left out.
#[derive(Clone, Copy)]
pub enum Takes {
    /// A text by its position; it may be left out.
    File,
    /// One text or more by their position; they may be left out.
    Files,
    /// A text by its position.
    NeededFile,
    /// A text after its name; it may be left out.
    Text,
    /// A text after its name.
    NeededText,
    /// A number after its name, from `least` to `most`; it may be left out.
    Number { least: u64, most: u64 },
    /// A number after its name, from `least` to `most`.
    NeededNumber { least: u64, most: u64 },
    /// Nothing: its name is given, or left out.
    Nothing,
}

/// An argument of a command.
#[derive(Clone, Copy)]
pub struct Argument<'a> {
    /// Its key in the matches; of all but files also its name.
    pub id: &'a str,
    /// The name of what it takes in the help; empty if it takes nothing.
    pub shown: &'a str,
    /// What the help says of it.
    pub help: &'a str,
    pub takes: Takes,
}

impl<'a> Argument<'a> {
    // Returns the argument as one that takes a text by its position, as all do before more is said of them.
    fn with_value(&self, alloc: Global) -> Arg<'a>
        ensures rule { rule_of result ≡ file_rule self.now.id.now }
        ensures local { result.global ≡ false }
    {
        Arg::new(alloc, self.id)
            .value_name(self.shown)
            .help(self.help)
    }

    /// Returns the argument as the parser of arguments has it.
    pub fn to_arg(&self, alloc: Global) -> Arg<'a>
        ensures rule { rule_of result ≡ rule_of_argument self.now }
        ensures local { result.global ≡ false }
    {
        let argument = self.with_value(alloc);
        match self.takes {
            Takes::File => argument,
            Takes::Files => argument.action(ArgAction::Append),
            Takes::NeededFile => argument.required(true),
            Takes::Text => argument.long(self.id),
            Takes::NeededText => argument.long(self.id).required(true),
            Takes::Number { least, most } => argument
                .long(self.id)
                .value_parser(ValueParser::Unsigned(least, most)),
            Takes::NeededNumber { least, most } => argument
                .long(self.id)
                .value_parser(ValueParser::Unsigned(least, most))
                .required(true),
            Takes::Nothing => Arg::new(alloc, self.id)
                .long(self.id)
                .action(ArgAction::SetTrue)
                .help(self.help),
        }
    }
}
