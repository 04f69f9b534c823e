ghost use Rattle.std.specs.Prelude.{◌≡◌};
ghost use Rattle.api_lines.specs.Ids.{id_parsed};

use crate::text_fault::TextCause;
use version_pair::IdText;

/// Returns the text as a document's id. Errors: `Id` if it is empty or has more than 512 bytes.
pub fn document_id<'t>(text: &'t str) -> Result<IdText<'t>, TextCause>
    ensures { result ≡ id_parsed text.now }
{
    IdText::new(text).ok_or(TextCause::Id)
}
