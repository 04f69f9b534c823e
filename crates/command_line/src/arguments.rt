use crate::argument::{Argument, Takes};

// A number that may be left out.
const ANY_NUMBER: Takes = Takes::Number {
    least: 0,
    most: u64::MAX,
};

// A number of a run. Which of them are refused is said later.
const OF_A_RUN: Takes = Takes::NeededNumber {
    least: 0,
    most: 4_294_967_295,
};

/// The history text, which may be left out.
pub const HISTORY: Argument<'static> = Argument {
    id: "history",
    shown: "FILE",
    help: "The history text; standard input by default",
    takes: Takes::File,
};

/// Some history texts, which may be left out.
pub const HISTORIES: Argument<'static> = Argument {
    id: "history",
    shown: "FILE",
    help: "The history texts; standard input by default",
    takes: Takes::Files,
};

/// The history text that a witness is for.
pub const NEEDED_HISTORY: Argument<'static> = Argument {
    id: "history",
    shown: "FILE",
    help: "The history text",
    takes: Takes::NeededFile,
};

/// The witness text.
pub const WITNESS: Argument<'static> = Argument {
    id: "witness",
    shown: "WITNESS",
    help: "The witness text",
    takes: Takes::NeededFile,
};

/// The body of a bulk request.
pub const BODY: Argument<'static> = Argument {
    id: "body",
    shown: "BODY",
    help: "The body of the bulk request",
    takes: Takes::NeededFile,
};

/// The reply to a bulk request.
pub const REPLY: Argument<'static> = Argument {
    id: "reply",
    shown: "REPLY",
    help: "The body of its reply, the status being 200",
    takes: Takes::NeededFile,
};

/// The number of the first call.
pub const FIRST: Argument<'static> = Argument {
    id: "first",
    shown: "N",
    help: "The number of the first call; 0 by default",
    takes: ANY_NUMBER,
};

/// What the store promises, as a whole.
pub const PROFILE: Argument<'static> = Argument {
    id: "profile",
    shown: "NAME",
    help: "What the store promises: strict (linearizable reads, writes performed once) or opensearch (as its documentation says); strict by default",
    takes: Takes::Text,
};

/// What a reply to a get shows.
pub const GETS: Argument<'static> = Argument {
    id: "gets",
    shown: "READING",
    help: "What a get shows: last (the last change) or any (what any copy had); the profile's by default",
    takes: Takes::Text,
};

/// How a conflict is read.
pub const CONFLICTS: Argument<'static> = Argument {
    id: "conflicts",
    shown: "READING",
    help: "How a conflict is read: plain (not performed), maybe (possibly performed) or unknown (it shows nothing); the profile's by default",
    takes: Takes::Text,
};

/// How often a write is performed.
pub const WRITES: Argument<'static> = Argument {
    id: "writes",
    shown: "READING",
    help: "How often a write is performed: once or repeated (maybe twice, without a condition); the profile's by default",
    takes: Takes::Text,
};

/// How a lost line that is marked as void is read.
pub const FAILED: Argument<'static> = Argument {
    id: "failed",
    shown: "READING",
    help: "How a lost call marked as void is read: lost (possibly performed) or trusted (not performed); the profile's by default",
    takes: Takes::Text,
};

/// The number of workers.
pub const WORKERS: Argument<'static> = Argument {
    id: "workers",
    shown: "N",
    help: "How many workers search the documents, 1 to 16; 1 by default",
    takes: Takes::Number { least: 1, most: 16 },
};

/// Whether documents are checked for being ruled out.
pub const RULE_OUT: Argument<'static> = Argument {
    id: "rule-out",
    shown: "",
    help: "If no order is found, look for a document that no order explains, whatever became of lost calls; on with --profile opensearch",
    takes: Takes::Nothing,
};

/// The least number of calls.
pub const AT_LEAST: Argument<'static> = Argument {
    id: "at-least",
    shown: "CALLS",
    help: "How many calls a history has to have: a yes with fewer gets status 6; 0 by default",
    takes: ANY_NUMBER,
};

/// Whether answers are written as objects of JSON.
pub const JSON: Argument<'static> = Argument {
    id: "json",
    shown: "",
    help: "Write answers as objects of JSON",
    takes: Takes::Nothing,
};

/// The file of a page.
pub const HTML: Argument<'static> = Argument {
    id: "html",
    shown: "OUT",
    help: "Write the explanation to this file too, as a page of HTML",
    takes: Takes::Text,
};

/// The id of the document that is drawn.
pub const DOCUMENT: Argument<'static> = Argument {
    id: "document",
    shown: "ID",
    help: "Draw the calls of the document with this id on the page",
    takes: Takes::Text,
};

/// The lines of its calls that are drawn.
pub const LINES: Argument<'static> = Argument {
    id: "lines",
    shown: "A-B",
    help: "Draw no calls but those on the lines from A to B of the text",
    takes: Takes::Text,
};

/// The seed of a run, which is left out if several seeds are tried.
pub const SEED: Argument<'static> = Argument {
    id: "seed",
    shown: "S",
    help: "The seed from which the plan of the clients, the steps of the group and its disturbances are drawn",
    takes: ANY_NUMBER,
};

/// The number of clients of a run.
pub const CLIENTS: Argument<'static> = Argument {
    id: "clients",
    shown: "A",
    help: "How many clients there are, 1 to 8",
    takes: OF_A_RUN,
};

/// The number of calls that each of them makes.
pub const CALLS: Argument<'static> = Argument {
    id: "calls",
    shown: "B",
    help: "How many calls each client makes; 524,288 at most in all",
    takes: OF_A_RUN,
};

/// The number of documents.
pub const DOCS: Argument<'static> = Argument {
    id: "docs",
    shown: "D",
    help: "How many documents there are, 1 to 1,024",
    takes: OF_A_RUN,
};

/// The number of copies of the group.
pub const COPIES: Argument<'static> = Argument {
    id: "copies",
    shown: "E",
    help: "How many copies the group has, 1 to 5",
    takes: OF_A_RUN,
};

/// What the group does wrong.
pub const FAULT: Argument<'static> = Argument {
    id: "fault",
    shown: "F",
    help: "What the group does wrong: none, dirty, early, same-term, stale or blind",
    takes: Takes::NeededText,
};

/// Whether the clients take their turns on one thread.
pub const IN_TURNS: Argument<'static> = Argument {
    id: "in-turns",
    shown: "",
    help: "Run the clients in turns on one thread: the same arguments write the same text",
    takes: Takes::Nothing,
};

/// How the group is disturbed.
pub const DISTURB: Argument<'static> = Argument {
    id: "disturb",
    shown: "NAME",
    help: "How the group is disturbed meanwhile: none, cuts, promotions or storm; none by default",
    takes: Takes::Text,
};

/// The answer that a search looks for.
pub const UNTIL: Argument<'static> = Argument {
    id: "until",
    shown: "ANSWER",
    help: "Try the seeds of --seeds in order, in turns, until a run gets refuted or no; ANSWER is refuted",
    takes: Takes::Text,
};

/// The seeds that are tried.
pub const SEEDS: Argument<'static> = Argument {
    id: "seeds",
    shown: "A-B",
    help: "The seeds that are tried, from A to B",
    takes: Takes::Text,
};
