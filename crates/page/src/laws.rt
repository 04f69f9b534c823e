ghost use Rattle.page.specs.Pages.{EscapedTextsAreInert};

/// Shows that an escaped text has no `<`, no `>` and no `"`, and an `&` only where one of the four entities
/// begins that the escaping writes.
#[tactic(auto, using(crate::proofs::PageLemmas::escaped_are_inert))]
pub fn escaped_texts()
    ensures { EscapedTextsAreInert }
{}
