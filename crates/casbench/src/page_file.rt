//! The page of `explain` as a file. It is written whole to a new file beside the path, which takes the path's
//! name when all else is done: an existing page survives every fault and interruption. It never takes the
//! place of the history.

ghost use Rattle.std.specs.Prelude.{◌≡◌, ◌⊎◌, IfErr};

use crate::files::{Source, report_unopened};
use crate::terminal::STANDARD_INPUT;
use report::StreamFault;
use std::alloc::Global;
use std::fs::{self, Metadata, OpenFile, OpenOptions, Permissions};
use std::io::{self, ErrorKind};
use std::os::unix::fs::MetadataExt;
use std::rt::Files;
use stream_io::write_text;

// The number of names that are tried for a new file.
const NEW_NAMES: u32 = 100;

// Returns what the system knows of the file that is read, or of standard input.
fn metadata_of<R: Files, I>(rt: &R, source: &Source<R::File, I>) -> io::Result<Metadata> {
    match source {
        Source::File(file) => file.metadata(),
        Source::Input(_) => fs::metadata(rt, STANDARD_INPUT),
    }
}

// Whether both are one regular file, whatever its names are.
fn are_one_file(one: &Metadata, other: &Metadata) -> bool {
    one.is_file() && one.dev() == other.dev() && one.ino() == other.ino()
}

/// Refuses a page that is the history itself, whatever names they have. Errors: `Write`; it is reported on
/// standard error, with the page's name. Which pages are refused is tested, not proved.
pub fn refuse_history<R: Files + Eprint, I>(
    rt: &R,
    page: Option<&str>,
    source: &Source<R::File, I>,
) -> Result<(), StreamFault>
    // The only error is `Write`.
    ensures { IfErr result (λ fault. fault ≡ StreamFault.Write) }
{
    let Some(path) = page else {
        return Ok(());
    };
    let (Ok(there), Ok(read)) = (fs::metadata(rt, path), metadata_of(rt, source)) else {
        return Ok(());
    };
    if are_one_file(&there, &read) {
        let _ = eprintln!(rt; "casbench: {path}: the history would be overwritten");
        return Err(StreamFault::Write);
    }
    Ok(())
}

// Reports on standard error that the file of this name can't be written, and returns the fault.
fn unwritten(rt: &impl Eprint, path: &str, error: &io::Error) -> StreamFault
    ensures { result ≡ StreamFault.Write }
{
    report_unopened(rt, path, error);
    StreamFault::Write
}

// Returns a new file beside the path, with its name.
fn new_file<R: Files + Eprint>(
    rt: &R,
    alloc: Global,
    path: &str,
) -> Result<(String, R::File), StreamFault>
    ensures { IfErr result (λ fault. (fault ≡ StreamFault.Write) ⊎ (fault ≡ StreamFault.NoMemory)) }
{
    for n in 0..NEW_NAMES {
        let name = format!(in alloc; "{path}.new-{n}")?;
        let opened = OpenOptions::new()
            .write(true)
            .create_new(true)
            .open(rt, name.as_str());
        match opened {
            Ok(file) => return Ok((name, file)),
            Err(error) if error.kind() == ErrorKind::AlreadyExists => {}
            Err(error) => return Err(unwritten(rt, path, &error)),
        }
    }
    let taken = io::Error::from(ErrorKind::AlreadyExists);
    Err(unwritten(rt, path, &taken))
}

// Gives the file these permissions, if there are some.
fn permit<R: Files + Eprint>(
    rt: &R,
    file: &R::File,
    path: &str,
    permissions: Option<Permissions>,
) -> Result<(), StreamFault>
    ensures { IfErr result (λ fault. fault ≡ StreamFault.Write) }
{
    let Some(permissions) = permissions else {
        return Ok(());
    };
    match file.set_permissions(permissions) {
        Ok(()) => Ok(()),
        Err(error) => Err(unwritten(rt, path, &error)),
    }
}

// Writes the page to the file, which then has these permissions, if there are some, and the file to the disk.
fn write_through<R: Files + Eprint>(
    rt: &R,
    file: &mut R::File,
    path: &str,
    page: &[u8],
    permissions: Option<Permissions>,
) -> Result<(), StreamFault>
    ensures { IfErr result (λ fault. fault ≡ StreamFault.Write) }
{
    permit(rt, file, path, permissions)?;
    write_text(file, page)?;
    match file.sync_all() {
        Ok(()) => Ok(()),
        Err(error) => Err(unwritten(rt, path, &error)),
    }
}

/// A page that is ready to take its place.
#[derive(Drop)]
pub enum ReadyPage<'p> {
    /// It is complete in a new file of the first name, beside the one of the second name.
    Beside(String, String),
    /// It is to be written to what has this name, which is no regular file: for example a pipe or a terminal.
    Through(&'p str),
}

impl<'p> ReadyPage<'p> {
    /// Writes the page to a new file beside the path, or beside the file that the path links to. It has the
    /// permissions of an existing page. If what the path names is no regular file, nothing is written yet.
    ///
    /// Errors: `Write` if it can't be written, and `NoMemory` if memory was refused. The new file is then
    /// removed, which is tested, not proved.
    pub fn new<R: Files + Eprint>(
        rt: &R,
        alloc: Global,
        path: &'p str,
        page: &[u8],
    ) -> Result<ReadyPage<'p>, StreamFault>
        // The only errors are `Write` and `NoMemory`.
        ensures { IfErr result (λ fault. (fault ≡ StreamFault.Write) ⊎ (fault ≡ StreamFault.NoMemory)) }
    {
        let mut permissions = None;
        let target = match fs::metadata(rt, path) {
            Ok(there) if !there.is_file() => return Ok(ReadyPage::Through(path)),
            Ok(there) => match rt.canonicalize(alloc, path) {
                Ok(target) => {
                    permissions = Some(there.permissions());
                    target.into_string()
                }
                Err(error) => return Err(unwritten(rt, path, &error)),
            },
            Err(_) => String::from_str(alloc, path)?,
        };
        let (name, mut file) = new_file(rt, alloc, target.as_str())?;
        match write_through(rt, &mut file, path, page, permissions) {
            Ok(()) => Ok(ReadyPage::Beside(name, target)),
            Err(fault) => {
                let _ = fs::remove_file(rt, name.as_str());
                Err(fault)
            }
        }
    }

    /// Puts the page in its place; in one step if a regular file is there, or nothing. If it can't, what is
    /// there stays, which is tested, not proved.
    pub fn keep<R: Files + Eprint>(self, rt: &R, page: &[u8]) -> Result<(), StreamFault>
        // The only error is `Write`.
        ensures { IfErr result (λ fault. fault ≡ StreamFault.Write) }
    {
        match self {
            ReadyPage::Beside(name, target) => {
                match fs::rename(rt, name.as_str(), target.as_str()) {
                    Ok(()) => Ok(()),
                    Err(error) => {
                        let _ = fs::remove_file(rt, name.as_str());
                        Err(unwritten(rt, target.as_str(), &error))
                    }
                }
            }
            ReadyPage::Through(path) => match OpenOptions::new().write(true).open(rt, path) {
                Ok(mut file) => write_text(&mut file, page),
                Err(error) => Err(unwritten(rt, path, &error)),
            },
        }
    }

    /// Leaves everything as it was.
    pub fn discard<R: Files>(self, rt: &R) {
        if let ReadyPage::Beside(name, _) = self {
            let _ = fs::remove_file(rt, name.as_str());
        }
    }
}
