// The texts of an insertion.
ghost use Rattle.std.specs.Prelude.{◌≡◌, IfOk, IsOkUnless, map};
ghost use Rattle.rt_stamps.specs.Words.{as_words};
ghost use Rattle.rt_peers.specs.ViewStep.{as_piece};

use rt_stamps::Fault;
use rt_text::Piece;
use std::alloc::Global;

// Copies of words.
fn copied(alloc: Global, words: &[String]) -> Result<Vec<String>, Fault>
    ensures ok { IfOk result (λ copies. as_words copies.items ≡ as_words words.now) }
    ensures err { IsOkUnless result Fault.NoMemory }
{
    let mut copies = Vec::with_capacity(alloc, words.len())?;
    for word in words {
        copies.push(String::from_str(alloc, word)?)?;
    }
    Ok(copies)
}

// A copy of a text with its tags.
fn owned_piece(alloc: Global, piece: &rt_requests::TaggedText<'_>) -> Result<Piece, Fault>
    ensures ok { IfOk result (λ owned. owned ≡ as_piece piece.now) }
    ensures err { IsOkUnless result Fault.NoMemory }
{
    let tags = copied(alloc, piece.tags())?;
    Ok(Piece::new(String::from_str(alloc, piece.text())?, tags))
}

/// Copies of texts with their tags, or want of memory.
#[inline(always)]
pub(crate) fn owned(
    alloc: Global,
    pieces: &[rt_requests::TaggedText<'_>],
) -> Result<Vec<Piece>, Fault>
    ensures ok { IfOk result (λ owned. owned.items ≡ map as_piece pieces.now) }
    ensures err { IsOkUnless result Fault.NoMemory }
{
    let mut copies = Vec::with_capacity(alloc, pieces.len())?;
    for piece in pieces {
        copies.push(owned_piece(alloc, piece)?)?;
    }
    Ok(copies)
}
