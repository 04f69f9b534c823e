ghost use Rattle.std.specs.Prelude.{◌≡◌, IfOk, string_bytes};
ghost use Rattle.result_lines.specs.Lines.{gets_end as reported_gets};

use std::alloc::Global;
use version_pair::NoMemory;

/// What is counted of a text.
#[derive(Clone, Copy, Debug, PartialEq, Eq)]
pub struct TextCounts {
    /// The number of its documents.
    pub docs: usize,
    /// The number of its calls.
    pub calls: usize,
    /// The number of these that are not in the order, without the gets that are judged one by one.
    pub left_out: usize,
    /// The number of gets that are judged one by one, if they are.
    pub gets: Option<usize>,
}

impl TextCounts {
    /// Returns the end of a line with these counts: the gets, if they are counted, and the line feed.
    pub(crate) fn gets_end(self, alloc: Global) -> Result<String, NoMemory>
        ensures { IfOk result (λ text. string_bytes text ≡ reported_gets self.gets) }
    {
        match self.gets {
            Some(gets) => format!(in alloc; " gets={gets}\n"),
            None => String::from_str(alloc, "\n"),
        }
    }
}
