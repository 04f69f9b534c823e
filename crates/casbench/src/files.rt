ghost use Rattle.std.specs.Prelude.{◌≡◌, ◌⊎◌, true, Ok, Some, None, IfErr, IfOk, map, option_map};
ghost use Rattle.std.specs.List.{All};
ghost use Rattle.casbench.specs.Each.{or_input};
ghost use Rattle.casbench.specs.Input.{names_input};
ghost use Rattle.casbench.specs.aids.Source.{remaining_of};
ghost use Rattle.casbench.specs.declared.files.Source.TheVariants.{Input};

use crate::named_text::NamedText;
use report::{Kept, StreamFault};
use std::alloc::Global;
use std::fs::{self, OpenFile};
use std::io::{self, ErrorKind, Read, Seek, SeekFrom};
use std::rt::Files;

/// The name by which standard input is asked for, as if it were a file.
pub const INPUT: &str = "-";

/// Where a text is read from: a file that was named, or the input.
#[derive(Drop)]
pub enum Source<F, I> {
    File(F),
    Input(I),
}

impl<F: Read, I: Read> Read for Source<F, I> {
    // The bytes that it will still give are those of its file, or of the input.
    ghost remaining = { remaining_of F.remaining I.remaining };

    fn read(&mut self, buf: &mut [u8]) -> io::Result<usize> {
        match self {
            Source::File(file) => file.read(buf),
            Source::Input(input) => input.read(buf),
        }
    }
}

impl<F: Seek, I> Seek for Source<F, I> {
    // The input is read once.
    fn seek(&mut self, to: SeekFrom) -> io::Result<u64> {
        match self {
            Source::File(file) => file.seek(to),
            Source::Input(_) => Err(io::Error::from(ErrorKind::Unsupported)),
        }
    }
}

/// Reports on standard error which file can't be opened, and why. A fault of standard error is ignored.
pub fn report_unopened(rt: &impl Eprint, path: &str, error: &io::Error) {
    let _ = match error.kind() {
        ErrorKind::NotFound => eprintln!(rt; "casbench: {path}: no such file"),
        _ => eprintln!(rt; "casbench: {path}: {error}"),
    };
}

// Reports on standard error that the file is a directory, if it is one. Errors: `Read` in that case.
fn refuse_directory<R: Files + Eprint>(
    rt: &R,
    path: &str,
    file: &R::File,
) -> Result<(), StreamFault>
    ensures { IfErr result (λ fault. fault ≡ StreamFault.Read) }
{
    match file.metadata() {
        Ok(metadata) if metadata.is_dir() => {
            let _ = eprintln!(rt; "casbench: {path}: is a directory");
            Err(StreamFault::Read)
        }
        _ => Ok(()),
    }
}

/// Opens the file, to be read from its start. Errors: `Read` if it can't be opened, or is a directory; it is
/// then named on standard error.
pub fn open<R: Files + Eprint>(rt: &R, path: &str) -> Result<R::File, StreamFault>
    // The only error is `Read`.
    ensures { IfErr result (λ fault. fault ≡ StreamFault.Read) }
{
    match fs::open(rt, path) {
        Ok(file) => {
            refuse_directory(rt, path, &file)?;
            Ok(file)
        }
        Err(error) => {
            report_unopened(rt, path, &error);
            Err(StreamFault::Read)
        }
    }
}

/// Returns the file that is named, opened as by `open`; or the input if none is named, or `-`.
pub fn open_or<R: Files + Eprint, I: Drop>(
    rt: &R,
    path: Option<&str>,
    input: I,
) -> Result<Source<R::File, I>, StreamFault>
    // If no file is named, or `-`, it is the input itself.
    ensures input { names_input (option_map (λ t. t.now) path.entry) ≡ true → result ≡ Ok (Input input) }
    // The only error is `Read`.
    ensures err { IfErr result (λ fault. fault ≡ StreamFault.Read) }
{
    match path {
        None | Some(INPUT) => Ok(Source::Input(input)),
        Some(path) => Ok(Source::File(open(rt, path)?)),
    }
}

// Reports on standard error that two texts are standard input, and returns the fault.
fn named_twice(rt: &impl Eprint) -> StreamFault
    ensures { result ≡ StreamFault.Read }
{
    let _ = eprintln!(rt; "casbench: standard input is named twice");
    StreamFault::Read
}

// Returns the file that is named, opened as by `open`; or what is left of the input, if the name is `-`.
// Errors: `Read` if the file can't be opened, or if the input was taken before.
fn open_next<R: Files + Eprint, I: Drop>(
    rt: &R,
    name: &str,
    left: &mut Option<I>,
) -> Result<Source<R::File, I>, StreamFault>
    ensures input { names_input (Some name.now) ≡ true → IfOk result (λ source. option_map Input left.old ≡ Some source) }
    ensures left { (left.new ≡ left.old) ⊎ (left.new ≡ None) }
    ensures err { IfErr result (λ fault. fault ≡ StreamFault.Read) }
{
    match name {
        INPUT => match left.take() {
            Some(input) => Ok(Source::Input(input)),
            None => Err(named_twice(rt)),
        },
        _ => Ok(Source::File(open(rt, name)?)),
    }
}

// Returns what is kept of the lines of a text: their times, if it can be read only once, as the input or a pipe. A file
// is read again if one of its times is wanted, so that a check with times costs no more than one without.
fn kept_of<F: OpenFile, I>(source: &Source<F, I>) -> Kept {
    match source {
        Source::File(file) => match file.metadata() {
            Ok(metadata) if metadata.is_file() => Kept::Numbers,
            _ => Kept::Times,
        },
        Source::Input(_) => Kept::Times,
    }
}

// Opens each of the files in turn, as by `open`; `-` is the input, for one of them only. If one can't be
// opened, those behind it aren't tried; this order is tested, not proved.
//
// Errors: `Read` if a file can't be opened, and `NoMemory`.
fn open_each<'a, R: Files + Eprint, I: Drop>(
    rt: &R,
    alloc: Global,
    names: &[&'a str],
    input: I,
) -> Result<Vec<NamedText<'a, Source<R::File, I>>>, StreamFault>
    // They have these names, in this order.
    ensures names { IfOk result (λ texts. map (λ t. t.name.now) texts.items ≡ map (λ n. n.now) names.now) }
    // A text that is named `-` is the input itself.
    ensures input { IfOk result (λ texts. All (λ t. names_input (Some t.name.now) ≡ true → t.source ≡ Input input) texts.items) }
    // The only errors are `Read` and `NoMemory`.
    ensures err { IfErr result (λ fault. (fault ≡ StreamFault.Read) ⊎ (fault ≡ StreamFault.NoMemory)) }
{
    let mut left = Some(input);
    let mut texts = Vec::new(alloc);
    for name in names {
        let source = open_next(rt, name, &mut left)?;
        let kept = kept_of(&source);
        let text = NamedText {
            name,
            source,
            kept,
            written: None,
        };
        match texts.push(text) {
            Ok(()) => {}
            Err(_) => return Err(StreamFault::NoMemory),
        }
    }
    Ok(texts)
}

/// Opens each of the files in turn, as by `open`; `-` is the input, for one of them only. If there are none it is the
/// input, under this name. If one can't be opened, those behind it aren't tried; this order is tested, not proved.
///
/// Errors: `Read` if a file can't be opened, and `NoMemory`.
pub fn open_each_or<'a, R: Files + Eprint, I: Drop>(
    rt: &R,
    alloc: Global,
    names: &[&'a str],
    input: I,
) -> Result<Vec<NamedText<'a, Source<R::File, I>>>, StreamFault>
    // They have these names, in this order.
    ensures names { IfOk result (λ texts. map (λ t. t.name.now) texts.items ≡ or_input (map (λ n. n.now) names.now)) }
    // A text that is named `-` is the input itself.
    ensures input { IfOk result (λ texts. All (λ t. names_input (Some t.name.now) ≡ true → t.source ≡ Input input) texts.items) }
    // The only errors are `Read` and `NoMemory`.
    ensures err { IfErr result (λ fault. (fault ≡ StreamFault.Read) ⊎ (fault ≡ StreamFault.NoMemory)) }
{
    if !names.is_empty() {
        return open_each(rt, alloc, names, input);
    }
    let mut texts = Vec::new(alloc);
    let text = NamedText {
        name: INPUT,
        source: Source::Input(input),
        kept: Kept::Times,
        written: None,
    };
    match texts.push(text) {
        Ok(()) => Ok(texts),
        Err(_) => Err(StreamFault::NoMemory),
    }
}

/// Opens both files as by `open`, the first before the second; `-` is the input, for one of them only. If the first
/// can't be opened, the second isn't tried; this order is tested, not proved.
pub fn open_both<R: Files + Eprint, I: Drop>(
    rt: &R,
    first: &str,
    second: &str,
    input: I,
) -> Result<(Source<R::File, I>, Source<R::File, I>), StreamFault>
    // `first`, `second`: The one that is named `-` is the input itself.
    ensures first { names_input (Some first.now) ≡ true → IfOk result (λ both. both.0 ≡ Input input) }
    ensures second { names_input (Some second.now) ≡ true → IfOk result (λ both. both.1 ≡ Input input) }
    // The only error is `Read`.
    ensures err { IfErr result (λ fault. fault ≡ StreamFault.Read) }
{
    let mut left = Some(input);
    let first = open_next(rt, first, &mut left)?;
    let second = open_next(rt, second, &mut left)?;
    Ok((first, second))
}
