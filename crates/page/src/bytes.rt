ghost use Rattle.std.specs.Prelude.{◌≡◌, ◌++◌, IfOk, OnOk, decimal};
ghost use Rattle.page.specs.Pages.{page_bytes as bytes_of, piece_bytes};

use crate::escape::add_escaped;
use crate::markup::markup_text;
use crate::piece::Piece;
use std::alloc::{AllocError, Global};

// Adds the digits of a number.
fn add_number(alloc: Global, bytes: &mut Vec<u8>, number: u64) -> Result<(), AllocError>
    ensures { OnOk result (bytes.new.items ≡ bytes.old.items ++ decimal number) }
{
    let digits = format!(in alloc; "{number}")?;
    bytes.extend_from_slice(digits.as_bytes())
}

// Adds a piece.
fn add_piece(alloc: Global, bytes: &mut Vec<u8>, piece: &Piece) -> Result<(), AllocError>
    ensures { OnOk result (bytes.new.items ≡ bytes.old.items ++ piece_bytes piece.now) }
{
    match piece {
        Piece::Fixed(markup) => bytes.extend_from_slice(markup_text(*markup).as_bytes()),
        Piece::Number(number) => add_number(alloc, bytes, *number),
        Piece::Text(text) => add_escaped(bytes, text.as_str()),
    }
}

/// Returns the bytes of a page: those of its pieces, one after the other, each text among them escaped.
pub fn page_bytes(alloc: Global, pieces: &[Piece]) -> Result<Vec<u8>, AllocError>
    ensures { IfOk result (λ bytes. bytes.items ≡ bytes_of pieces.now) }
{
    let mut bytes = Vec::new(alloc);
    for piece in pieces {
        add_piece(alloc, &mut bytes, piece)?;
    }
    Ok(bytes)
}
