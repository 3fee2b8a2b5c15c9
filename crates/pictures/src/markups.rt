// The markup of the pictures, piece by piece.
ghost use Rattle.std.specs.Prelude.{◌≡◌, OnOk};
ghost use Rattle.std.specs.Io.KnownBytes.{Appends};
ghost use Rattle.pictures.specs.Markups.{attribute_text, markup_text};

use itoa::Buffer;
use messages::{Unwritten, print};
use std::io::Write;

// A piece of markup.
#[derive(Clone, Copy)]
pub enum Markup {
    // A rectangle of a class.
    Rect,
    // A text of a class.
    Label,
    // Where it begins.
    X,
    // On which height.
    Y,
    // How wide it is.
    Width,
    // How high it is.
    Height,
    // The end of a shape.
    End,
    // The end of what is said of a shape that has more in it.
    TagEnd,
    // The end of a text.
    LabelClose,
    // A line across the sheet.
    Lane,
    // Up to where a line goes across.
    Across,
    // A step that can be pointed at, and its title.
    Step,
    // A field that can be pointed at, and its title.
    Field,
    // The end of a title.
    TitleEnd,
    // The end of a field.
    FieldEnd,
    // The path of a bracket.
    Bracket,
    // Up to the bracket's line.
    Up,
    // Down from it.
    Down,
    // The line at the left of a list of files.
    Mark,
    // Its end, and the list's text.
    MarkEnd,
    // A line of that.
    Line,
    // Where it stands.
    LineOpen,
    // Its end.
    LineClose,
    // The end of the list.
    FilesClose,
    // The beginning of a page.
    Page,
    // How shapes look, from here on.
    Style,
    // The page.
    BodyStyle,
    // The texts.
    TextStyle,
    // The boxes.
    BoxStyle,
    // The bands.
    BandStyle,
    // The squares.
    CellStyle,
    // The heading.
    Heading,
    // Its end.
    HeadingEnd,
    // How the drawing of a run is read.
    Intro,
    // The drawing of the names, which stay where the sheet is moved.
    Names,
    // Its end.
    NamesEnd,
    // The sheet.
    Sheet,
    // What it shows.
    SheetLabel,
    // The pattern of what may be kept.
    Hatch,
    // The end of the sheet, and the steps as text.
    ToldOpen,
    // How the drawing of an image's blocks is read.
    CellsIntro,
    // The sheet of that.
    CellsOpen,
    // What it shows.
    CellsLabel,
    // Its end, and the blocks as text.
    CellsTold,
    // How the drawing of a run's stops is read.
    StopsIntro,
    // The sheet of that.
    StopsOpen,
    // What it shows.
    StopsLabel,
    // Its end, and the stops as text.
    StopsTold,
    // The end of a page.
    PageEnd,
}

// Writes a piece of markup.
pub fn print_markup<O: Write>(out: &mut O, markup: Markup) -> Result<(), Unwritten>
    ensures ok { OnOk result (Appends (O.contents out.old) (O.contents out.new)
        (markup_text markup)) }
{
    print(out, text_of(markup))
}

// Writes a piece of markup and a number.
#[tactic(auto, unfolding(crate::specs::Markups::attribute_text))]
pub fn print_attribute<O: Write>(out: &mut O, markup: Markup, number: u64) -> Result<(), Unwritten>
    ensures ok { OnOk result (Appends (O.contents out.old) (O.contents out.new)
        (attribute_text markup number)) }
{
    let mut buffer = Buffer::new();
    print_markup(out, markup)?;
    print(out, buffer.format(number))
}

#[tactic(auto, unfolding(crate::specs::Markups::markup_text))]
fn text_of(markup: Markup) -> &'static str
    ensures { result.now ≡ markup_text markup }
{
    match markup {
        Markup::Rect => "<rect class='",
        Markup::Label => "<text class='",
        Markup::X => "' x='",
        Markup::Y => "' y='",
        Markup::Width => "' width='",
        Markup::Height => "' height='",
        Markup::End => "'/>",
        Markup::TagEnd => "'>",
        Markup::LabelClose => "</text>",
        Markup::Lane => "<path class='l' d='M0 ",
        Markup::Across => "H",
        Markup::Step => "<g class='q' role='img' tabindex='0'><title>",
        Markup::Field => "<g role='img' tabindex='0'><title>",
        Markup::TitleEnd => "</title>",
        Markup::FieldEnd => "</g>\n",
        Markup::Bracket => "<path class='v' d='M",
        Markup::Up => " 50V40H",
        Markup::Down => "V50'/>",
        Markup::Mark => "<path class='j' d='M",
        Markup::MarkEnd => "v96'/><text class='j' y='",
        Markup::Line => "<tspan x='",
        Markup::LineOpen => "' dy='15'>",
        Markup::LineClose => "</tspan>",
        Markup::FilesClose => "</text></g>\n",
        Markup::Page => "<!DOCTYPE html>\n<html lang='en'><head><meta charset='utf-8'><title>",
        Markup::Style => "</title>\n<style>\n",
        Markup::BodyStyle =>
            "body{margin:16px;font:14px/1.45 system-ui,'Segoe UI','Liberation Sans',Arial,sans-serif;color:#111;background:#fff}h1{font-size:20px;margin:0 0 4px}p{margin:4px 0 12px;max-width:75em}.sheet{display:flex;overflow-x:auto;border:1px solid #bbb}svg{display:block;flex:none}.names{position:sticky;left:0;z-index:1;background:#fff;border-right:1px solid #bbb}",
        Markup::TextStyle =>
            "text{font-size:12px;fill:#111}.n,.b,.t,.w,.c,.h,.e,.s,.z,.i,.x,.a,.y,.m,.d{text-anchor:middle}text.n,text.y,text.a,text.d{font-size:11px}text.n{fill:#555}text.c,text.h,text.x{fill:#fff}text.c,text.m,text.v,text.r,text.k{font-weight:700}.tip{visibility:hidden;paint-order:stroke;stroke:#fff3bf;stroke-width:8px;stroke-linejoin:round}",
        Markup::BoxStyle =>
            "rect{rx:3px}rect.b{fill:#dfe8f4;stroke:#6f87a8}rect.t{fill:#f7f3e9;stroke:#bdb49c}rect.w{fill:#a9c8ea;stroke:#4a78ad}rect.c{fill:#0a5c28;stroke:#000;stroke-width:2}rect.h{fill:#2f5f9e;stroke:#1d3d66}rect.e{fill:#c9ced4;stroke:#777}rect.s{fill:#fff;stroke:#5b2d8c;stroke-width:2}rect.z,rect.i{fill:#fff;stroke:#888;stroke-dasharray:4 3}rect.x{fill:#7a1020}rect.a{fill:#ffd861;stroke:#a5821a}rect.q{fill:transparent}",
        Markup::BandStyle =>
            "rect.v{fill:#f1f1f1}path.v{fill:none;stroke:#333;stroke-width:2}path.l{stroke:#ddd}path.j{stroke:#333}.k0,.k1,.k2,.k3,.k4,.k5{stroke:#444}.k0{fill:#fff}.k1{fill:#b9dcb0}.k2{fill:#fbe3a6}.k3{fill:#a8c8e8}.k4{fill:#f3c9b5}.k5{fill:url(#or)}g:focus{outline:none}g:focus>rect{stroke:#c00;stroke-width:3px}g:focus>.tip{visibility:visible}",
        Markup::CellStyle =>
            ".g{fill:#e3c4ec;stroke:#7a3d8c}.k6{fill:#d9d3ee;stroke:#444}.key b{display:inline-block;min-width:1.2em;text-align:center;border:1px solid #555;margin:0 2px 0 8px}",
        Markup::Heading => "</style></head>\n<body><h1>",
        Markup::HeadingEnd => "</h1>\n",
        Markup::Intro =>
            "<p>Each column is a step, each lane a process. A group of operations is written in four parts: its blocks to the log, the header (COMMIT), the blocks to their homes, the empty header (clear). A stop keeps exactly the groups whose header was written: the row of bands changes there. zzz is a step that waits. Point at a field, or go to it with the tab key, to read what it is.</p>\n",
        Markup::Names => "<div class='sheet'><svg class='names' width='136' height='",
        Markup::NamesEnd => "</svg>\n",
        Markup::Sheet => "<svg width='",
        Markup::SheetLabel => "' role='group' aria-label='the steps, from left to right'>",
        Markup::Hatch =>
            "<defs><pattern id='or' width='8' height='8' patternUnits='userSpaceOnUse' patternTransform='rotate(45)'><rect width='8' height='8' fill='#fff'/><rect width='3' height='8' fill='#bbb'/></pattern></defs>\n",
        Markup::ToldOpen => "</svg></div>\n<details><summary>The steps as text</summary><pre>\n",
        Markup::CellsIntro =>
            "<p>Each square is a block, 64 in a row, as the image is once its log is copied home: the number before a row is that of its first block.</p>\n<p class='key'><b>b</b>boot<b>s</b>superblock<b>l</b>log<b>i</b>inodes<b>m</b>bitmap<b>a</b>addresses<b>0</b>to<b>9</b>data, by the last digit of the file's number<b>.</b>free<b>*</b>a block whose newer content is in the log. Point at a square, or go to it with the tab key, to read whose it is.</p>\n",
        Markup::CellsOpen => "<div class='sheet'><svg width='1156' height='",
        Markup::CellsLabel =>
            "' role='group' aria-label='the blocks, 64 in a row'><defs><pattern id='or' width='8' height='8' patternUnits='userSpaceOnUse' patternTransform='rotate(45)'><rect width='8' height='8' fill='#fff'/><rect width='3' height='8' fill='#bbb'/></pattern></defs>\n",
        Markup::CellsTold => "</svg></div>\n<details><summary>The blocks as text</summary><pre>\n",
        Markup::StopsIntro =>
            "<p>Each column is a stop: end for the whole run, the number of the write that isn't made, or s and that of the sync that fails. Each green square is an image that the stop may leave, one for each choice of the writes that are held, and passed: once recovered it has the files of the committed groups. A red square is the first that hasn't. Point at a square, or go to it with the tab key, to read which it is.</p>\n",
        Markup::StopsOpen => "<div class='sheet'><svg width='",
        Markup::StopsLabel => "' role='group' aria-label='the stops, from left to right'>\n",
        Markup::StopsTold => "</svg></div>\n<details><summary>The stops as text</summary><pre>\n",
        Markup::PageEnd => "</pre></details>\n</body></html>\n",
    }
}
