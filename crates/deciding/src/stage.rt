use version_pair::Pair;

/// The state of a document, as far as it is known.
#[derive(Clone, Copy, Debug, PartialEq, Eq)]
pub enum Stage {
    /// It was never written.
    Never,
    /// It has this version.
    At(Pair),
    /// A call without a reply changed it, after this version; `None` if no version is before it.
    Behind(Option<Pair>),
}
