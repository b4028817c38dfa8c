// Shapes of a figure.

use crate::html::{Piece, put_all};
use basis::NoMemory;

/// Where a shape stands, and how wide it is.
#[derive(Clone, Copy)]
pub(crate) struct Extent {
    pub(crate) x: u64,
    pub(crate) y: u64,
    pub(crate) width: u64,
}

/// `<rect class=".." x=".." y=".." width=".." height=".."/>`
pub(crate) fn put_rectangle(
    page: &mut Vec<u8>,
    class: &str,
    extent: Extent,
    height: u64,
) -> Result<(), NoMemory> {
    put_all(
        page,
        &[
            Piece::Mark("<rect class=\""),
            Piece::Mark(class),
            Piece::Mark("\" x=\""),
            Piece::Number(extent.x),
            Piece::Mark("\" y=\""),
            Piece::Number(extent.y),
            Piece::Mark("\" width=\""),
            Piece::Number(extent.width),
            Piece::Mark("\" height=\""),
            Piece::Number(height),
            Piece::Mark("\"/>"),
        ],
    )
}

// How many letters have room, of 7.3 units each.
fn letters_in(width: u64) -> usize {
    let letters = width.saturating_mul(10) / 73;
    letters.min(1_000) as usize
}

// `<text class=".." x=".." y="..">`
fn put_front(page: &mut Vec<u8>, class: &str, extent: Extent) -> Result<(), NoMemory> {
    put_all(
        page,
        &[
            Piece::Mark("<text class=\""),
            Piece::Mark(class),
            Piece::Mark("\" x=\""),
            Piece::Number(extent.x),
            Piece::Mark("\" y=\""),
            Piece::Number(extent.y),
            Piece::Mark("\">"),
        ],
    )
}

/// `<text class=".." x=".." y="..">..</text>`: as much of the text as has room there; where that isn't all, the whole is its title.
pub(crate) fn put_text(
    page: &mut Vec<u8>,
    class: &str,
    extent: Extent,
    text: &[u8],
) -> Result<(), NoMemory> {
    let room = letters_in(extent.width);
    put_front(page, class, extent)?;
    if text.len() <= room {
        return put_all(page, &[Piece::Text(text), Piece::Mark("</text>")]);
    }
    put_all(
        page,
        &[
            Piece::Mark("<title>"),
            Piece::Text(text),
            Piece::Mark("</title>"),
            Piece::Cut(text, room.saturating_sub(2)),
            Piece::Mark("</text>"),
        ],
    )
}
