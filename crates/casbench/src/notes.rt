//! Notes for the user on standard error. They change no answer and no exit status.

use crate::files::INPUT;
use crate::terminal::{STANDARD_INPUT, is_terminal};
use command_line::Request;
use std::alloc::Global;
use std::fs;
use std::rt::Files;

// The end of the names of files that gzip compressed.
const COMPRESSED: &str = ".gz";

// What follows the name of a history in the name of the list of what its recorder did not judge.
const NOT_JUDGED: &str = ".not-judged";

// The one file that is read, or both, standard input under its name; none if each of several is checked.
fn files_of<'a>(request: &Request<'a>) -> (Option<&'a str>, Option<&'a str>) {
    match *request {
        Request::Check { file, .. }
        | Request::Witness { file, .. }
        | Request::Explain { file, .. } => (Some(file.unwrap_or(INPUT)), None),
        Request::Verify {
            history,
            witness,
            ..
        } => (Some(history), Some(witness)),
        Request::Bulk { body, reply, .. } => (Some(body), Some(reply)),
        Request::CheckEach { .. } | Request::Run(..) | Request::Search(..) => (None, None),
    }
}

// Whether what has this name is a terminal, if something is named.
fn is_typed_text(rt: &impl Files, name: Option<&str>) -> bool {
    match name {
        Some(INPUT) => is_terminal(rt, STANDARD_INPUT),
        Some(path) => is_terminal(rt, path),
        None => false,
    }
}

/// Returns whether a text is read from a terminal.
pub fn is_typed(rt: &impl Files, request: &Request<'_>) -> bool {
    if let Request::CheckEach { files, .. } = request {
        for file in files {
            if is_typed_text(rt, Some(*file)) {
                return true;
            }
        }
        return files.is_empty() && is_terminal(rt, STANDARD_INPUT);
    }
    let (first, second) = files_of(request);
    is_typed_text(rt, first) || is_typed_text(rt, second)
}

/// Says that a text is read from a terminal, and how the text is ended.
pub fn note_terminal(rt: &impl Eprint) {
    let _ = eprintln!(rt;
        "casbench: reads from the terminal until Ctrl-D on a line of its own; for help: casbench --help"
    );
}

/// If the name is that of a file that gzip compressed, says how it is read.
pub fn note_if_compressed<R: Files + Eprint>(rt: &R, path: Option<&str>) {
    if let Some(path) = path {
        if path.ends_with(COMPRESSED) {
            let _ = eprintln!(rt;
                "casbench: {path} is compressed; try: zcat {path} | casbench check"
            );
        }
    }
}

/// If a file of a refused text is compressed, by its name, says how it is read. No file is read for that. For
/// several files `check_each` says it of each.
pub fn note_compressed<R: Files + Eprint>(rt: &R, request: &Request<'_>) {
    let (first, second) = files_of(request);
    note_if_compressed(rt, first);
    note_if_compressed(rt, second);
}

// Says that the history of the file, if one is named, has fewer calls than are asked for.
fn note_too_few(rt: &impl Eprint, file: Option<&str>, calls: usize, at_least: u64) {
    let word = if calls == 1 { "call" } else { "calls" };
    let _ = match file {
        Some(path) => { eprintln!(rt; "casbench: {path}: {calls} {word}, fewer than {at_least}") }
        None => eprintln!(rt; "casbench: {calls} {word}, fewer than {at_least}"),
    };
}

// Says that the history of the file, if one is named, has no calls.
fn note_none(rt: &impl Eprint, file: Option<&str>) {
    let _ = match file {
        Some(path) => eprintln!(rt; "casbench: {path}: no calls, so nothing was judged"),
        None => eprintln!(rt; "casbench: no calls, so nothing was judged"),
    };
}

// If a list of what was not judged lies beside the file, names it.
fn note_not_judged<R: Files + Eprint>(rt: &R, alloc: Global, path: &str) {
    if let Ok(list) = format!(in alloc; "{path}{NOT_JUDGED}") {
        if fs::metadata(rt, list.as_str()).is_ok() {
            let _ = eprintln!(rt; "casbench: what was not judged is listed in {list}");
        }
    }
}

/// If a history that got yes has fewer calls than are asked for, or none, says so; and names the list of what
/// was not judged, if one lies beside the file. The number of calls is known if the answer is yes. Standard
/// input has no name.
pub fn note_calls<R: Files + Eprint>(
    rt: &R,
    alloc: Global,
    file: Option<&str>,
    calls: Option<usize>,
    at_least: u64,
) {
    let Some(calls) = calls else {
        return;
    };
    let file = match file {
        Some(INPUT) => None,
        other => other,
    };
    if (calls as u64) < at_least {
        note_too_few(rt, file, calls, at_least);
    } else if calls == 0 {
        note_none(rt, file);
    } else {
        return;
    }
    if let Some(path) = file {
        note_not_judged(rt, alloc, path);
    }
}
