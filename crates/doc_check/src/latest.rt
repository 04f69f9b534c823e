ghost use Rattle.std.specs.Prelude.{◌≡◌, IfOk, length};
ghost use Rattle.doc_check.specs.aids.Stretches.{IsTable, is_as_asked};

use doc_register::DocState;
use std::alloc::Global;
use version_pair::NoMemory;

// Whether the document exists, or does not, as asked.
fn is_so(state: DocState, live: bool) -> bool
    ensures { result ≡ is_as_asked live state }
{
    let here = matches!(state, DocState::Here(..));
    if live { here } else { !here }
}

/// Returns, for each stretch, the latest stretch up to it in which the document exists, or does not, as
/// asked.
pub fn latest_stretches(
    alloc: Global,
    states: &[DocState],
    live: bool,
) -> Result<Vec<Option<usize>>, NoMemory>
    ensures { IfOk result (λ table. IsTable states.now live (length states.now) table.items) }
{
    let mut table = Vec::new(alloc);
    let mut latest = None;
    for stretch in 0..states.len() {
        if is_so(states[stretch], live) {
            latest = Some(stretch);
        }
        table.push(latest)?;
    }
    Ok(table)
}
