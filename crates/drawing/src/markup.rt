//! The markup of a drawing in pieces.

ghost use Rattle.std.specs.Prelude.{◌≡◌, ◌++◌, OnOk};
ghost use Rattle.drawing.specs.Markup.{words_of};

use std::alloc::AllocError;

/// A piece of markup.
#[derive(Clone, Copy, Debug, PartialEq, Eq)]
pub(crate) enum Piece {
    BarLeft,
    Top,
    Width,
    BarHeight,
    Face,
    Closed,
    BarWords,
    BarEnd,
    MarkLeft,
    MarkTop,
    MarkFace,
    MarkEnd,
    NameTop,
    Opened,
    TextEnd,
    LineTop,
    LineFace,
    TextLeft,
    TickWords,
    RectLeft,
    TickHeight,
    TickFace,
    SquareFace,
    WordPlace,
    DeniedMark,
    DeniedWord,
    HeadWidth,
    Height,
    HeadFont,
    Ground,
    TitleText,
    TextEndLine,
    LineEnd,
    SvgEnd,
    TitleBegin,
    TitleEnd,
}

/// The characters of a piece.
#[tactic(auto, unfolding(crate::specs::Markup::words_of))]
fn words_of(piece: Piece) -> &'static [u8]
    ensures { result.now ≡ words_of piece }
{
    match piece {
        Piece::BarLeft => b"<svg x='",
        Piece::Top => b" y='",
        Piece::Width => b" width='",
        Piece::BarHeight => b" height='16'>",
        Piece::Face => b"<rect width='100%' height='100%' rx='3' fill='",
        Piece::Closed => b"'/>",
        Piece::BarWords => b"<text x='4' y='12'>",
        Piece::BarEnd => b"</text></svg>\n",
        Piece::MarkLeft => b"<circle cx='",
        Piece::MarkTop => b" cy='",
        Piece::MarkFace => b" r='5' fill='#c62828'>",
        Piece::MarkEnd => b"</circle>\n",
        Piece::NameTop => b"<text x='8' y='",
        Piece::Opened => b">",
        Piece::TextEnd => b"</text>",
        Piece::LineTop => b"<rect y='",
        Piece::LineFace => b" width='100%' height='1' fill='#eceff1'/>\n",
        Piece::TextLeft => b"<text x='",
        Piece::TickWords => b" y='58' fill='#78909c'>",
        Piece::RectLeft => b"<rect x='",
        Piece::TickHeight => b" y='62' width='1' height='",
        Piece::TickFace => b" fill='#cfd8dc'/>\n",
        Piece::SquareFace => b" y='26' width='12' height='12' fill='",
        Piece::WordPlace => b" y='36'>",
        Piece::DeniedMark => b"<circle cx='304' cy='32' r='5' fill='#c62828'/>",
        Piece::DeniedWord => b"<text x='314' y='36'>denied</text>",
        Piece::HeadWidth => b"<svg xmlns='http://www.w3.org/2000/svg' width='",
        Piece::Height => b" height='",
        Piece::HeadFont => b" font-family='sans-serif' font-size='11'>\n",
        Piece::Ground => b"<rect width='100%' height='100%' fill='#ffffff'/>\n",
        Piece::TitleText => b"<text x='8' y='16' font-size='13'>",
        Piece::TextEndLine => b"</text>\n",
        Piece::LineEnd => b"\n",
        Piece::SvgEnd => b"</svg>\n",
        Piece::TitleBegin => b"<title>",
        Piece::TitleEnd => b"</title>",
    }
}

/// Appends a piece.
pub(crate) fn append_piece(text: &mut Vec<u8>, piece: Piece) -> Result<(), AllocError>
    ensures { OnOk result (text.new.items ≡ text.old.items ++ words_of piece) }
{
    text.extend_from_slice(words_of(piece))?;
    Ok(())
}
