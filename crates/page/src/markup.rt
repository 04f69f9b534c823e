ghost use Rattle.std.specs.Prelude.{◌≡◌};
ghost use Rattle.page.specs.Markups.{markup_bytes};

const PAGE_START: &str = r#"<!doctype html>
<html lang="en">
<head>
<meta charset="utf-8">
<meta name="viewport" content="width=device-width, initial-scale=1">
<title>casbench explain</title>
<style>
"#;

const STYLE: &str =
    r#":root { color-scheme: light dark; --ink: #1b1f24; --soft: #57606a; --edge: #d0d7de; --paper: #ffffff; --bar: #8fb4e8; --bad: #c2410c; --proof: #7c3aed; --lost: #8c959f; }
@media (prefers-color-scheme: dark) { :root { --ink: #e6edf3; --soft: #9da7b3; --edge: #3d444d; --paper: #0d1117; --bar: #3d6fb4; --bad: #fb923c; --proof: #c4a1ff; --lost: #7d8590; } }
body { margin: 0; background: var(--paper); color: var(--ink); font: 16px/1.5 system-ui, sans-serif; }
main { max-width: 1200px; margin: 0 auto; padding: 24px 32px 48px; }
h1 { font-size: 26px; line-height: 1.25; margin: 0 0 12px; overflow-wrap: anywhere; }
h2 { font-size: 19px; margin: 28px 0 8px; break-after: avoid; }
p { margin: 8px 0; max-width: 90ch; overflow-wrap: anywhere; }
code, td.mono, svg text { font-family: ui-monospace, 'DejaVu Sans Mono', monospace; }
p.line { padding: 8px 12px; border: 1px solid var(--edge); border-radius: 6px; max-width: none; font-size: 14px; }
dl { display: grid; grid-template-columns: max-content 1fr; gap: 2px 16px; margin: 12px 0; font-size: 14px; }
dt { color: var(--soft); }
dd { margin: 0; overflow-wrap: anywhere; }
.scroll { overflow-x: auto; }
.when { white-space: nowrap; }
table { border-collapse: collapse; font-size: 14px; }
th, td { text-align: left; vertical-align: top; padding: 4px 14px 4px 8px; border-bottom: 1px solid var(--edge); overflow-wrap: anywhere; }
th { color: var(--soft); font-weight: 600; }
th, td:first-child, td:nth-child(2), td:nth-child(3) { white-space: nowrap; }
tr { break-inside: avoid; }
tr.broken td { border-top: 2px solid var(--bad); border-bottom: 2px solid var(--bad); font-weight: 600; }
tr.broken td:first-child { border-left: 6px solid var(--bad); }
tr.evidence td:first-child { border-left: 6px double var(--proof); }
tr.note td { color: var(--soft); font-style: italic; }
ul { margin: 8px 0; padding-left: 24px; }
li { overflow-wrap: anywhere; }
details { margin: 28px 0 0; border-top: 1px solid var(--edge); }
summary { cursor: pointer; font-size: 19px; font-weight: 600; padding: 12px 0; }
figure { margin: 12px 0; }
figcaption { color: var(--soft); font-size: 14px; }
svg { width: 100%; height: auto; display: block; }
svg text { font-size: 12px; fill: var(--ink); stroke: var(--paper); stroke-width: 3px; paint-order: stroke; }
svg g:focus { outline: 2px solid var(--proof); }
.axis text { fill: var(--soft); }
.axis line { stroke: var(--edge); }
.axis .here { stroke: var(--bad); stroke-width: 2; stroke-dasharray: 2 3; }
.bar rect { fill: var(--bar); }
.lost rect { fill: none; stroke: var(--lost); stroke-width: 2; stroke-dasharray: 6 4; }
.evidence rect { stroke: var(--proof); stroke-width: 3; }
.broken rect { fill: var(--bad); stroke: var(--bad); stroke-width: 3; }
.bar path { fill: none; stroke-width: 3; stroke: var(--lost); }
.evidence path { fill: var(--proof); stroke: none; }
.broken path { stroke: var(--ink); }
.bar .tick { stroke: var(--ink); stroke-width: 3; }
.note line { stroke: var(--soft); stroke-dasharray: 6 3; }
.note path { fill: var(--soft); }
.version rect { fill: none; stroke: var(--edge); stroke-width: 1.5; }
.version path { stroke: var(--soft); fill: none; stroke-width: 1.5; }
@media (max-width: 760px) { main { padding: 16px 16px 32px; } h1 { font-size: 21px; } .scroll table { min-width: 720px; } }
@media print { .scroll { overflow: visible; } body, table, figcaption, p.line { font-size: 11px; } h1 { font-size: 18px; } h2 { font-size: 14px; } th, td { padding: 2px 8px 2px 4px; } main { padding: 0; max-width: none; } }
"#;

const BODY_START: &str = r#"</style>
</head>
<body>
<main>
"#;

const PAGE_END: &str = r#"</main>
</body>
</html>
"#;

const TITLE_START: &str = "<h1>";

const TITLE_END: &str = "</h1>\n";

const LINE_START: &str = r#"<p class="line"><code>"#;

const LINE_END: &str = "</code></p>\n";

const FACTS_START: &str = "<dl>\n";

const FACT_START: &str = "<dt>";

const FACT_BREAK: &str = "</dt><dd>";

const FACT_END: &str = "</dd>\n";

const FACTS_END: &str = "</dl>\n";

const HEADING_START: &str = "<h2>";

const HEADING_END: &str = "</h2>\n";

const PARAGRAPH_START: &str = "<p>";

const PARAGRAPH_END: &str = "</p>\n";

const LIST_START: &str = "<ul>\n";

const ITEM_START: &str = "<li>";

const ITEM_END: &str = "</li>\n";

const LIST_END: &str = "</ul>\n";

const FOLD_START: &str = r#"<details>
<summary>"#;

const FOLD_OPEN: &str = "</summary>\n";

const FOLD_END: &str = "</details>\n";

const CALLS_START: &str = r#"<div class="scroll"><table>
<thead><tr><th></th><th>line</th><th>call</th><th>asked</th><th>answered</th><th>open at the same time</th></tr></thead>
<tbody>
"#;

const CLIENT_CALLS_START: &str = r#"<div class="scroll"><table>
<thead><tr><th></th><th>line</th><th>call</th><th>client</th><th>asked</th><th>answered</th><th>open at the same time</th></tr></thead>
<tbody>
"#;

const ORDER_START: &str = r#"<div class="scroll"><table>
<thead><tr><th>call</th><th>asked</th><th>the document after it</th></tr></thead>
<tbody>
"#;

const ROW_START: &str = "<tr><td>";

const BROKEN_ROW_START: &str = r#"<tr class="broken"><td>"#;

const EVIDENCE_ROW_START: &str = r#"<tr class="evidence"><td>"#;

const NOTE_ROW_START: &str = r#"<tr class="note"><td>"#;

const CELL_BREAK: &str = r#"</td><td class="mono">"#;

const WIDE_CELL: &str = r#"</td><td colspan="4">"#;

const CLIENT_WIDE_CELL: &str = r#"</td><td colspan="5">"#;

const WHEN_START: &str = r#"<span class="when">"#;

const WHEN_END: &str = "</span>";

const ROW_END: &str = "</td></tr>\n";

const TABLE_END: &str = r#"</tbody>
</table></div>
"#;

const DRAWING_START: &str = r#"<figure>
<div class="scroll"><svg role="group" aria-label="The calls from left to right by their events" style="min-width: "#;

const DRAWING_BOX: &str = r#"px" viewBox="0 0 "#;

const DRAWING_OPEN: &str = r#"">
"#;

const DRAWING_END: &str = "</svg></div>\n";

const CAPTION_START: &str = "<figcaption>";

const CAPTION_END: &str = r#"</figcaption>
</figure>
"#;

const AXIS_START: &str = r#"<g class="axis">
"#;

const BAR_START: &str = r#"<g class="bar" tabindex="0"><title>"#;

const LOST_START: &str = r#"<g class="bar lost" tabindex="0"><title>"#;

const EVIDENCE_START: &str = r#"<g class="bar evidence" tabindex="0"><title>"#;

const BROKEN_START: &str = r#"<g class="bar broken" tabindex="0"><title>"#;

const NOTE_START: &str = r#"<g class="note" tabindex="0"><title>"#;

const TIP_END: &str = "</title>";

const VERSION_START: &str = r#"<g class="version">"#;

const GROUP_END: &str = "</g>\n";

const BOX_X: &str = r#"<rect rx="3" x=""#;

const BOX_Y: &str = r#"" y=""#;

const BOX_WIDTH: &str = r#"" width=""#;

const BOX_HEIGHT: &str = r#"" height=""#;

const HERE_X: &str = r#"<line class="here" x1=""#;

const NOTE_X: &str = r#"<line x1=""#;

const TICK_X: &str = r#"<line class="tick" x1=""#;

const LINE_Y: &str = r#"" y1=""#;

const LINE_TO_X: &str = r#"" x2=""#;

const LINE_TO_Y: &str = r#"" y2=""#;

const SHAPE_END: &str = r#""/>"#;

const CROSS_X: &str = r#"<path d="M-6 -6 L6 6 M-6 6 L6 -6" transform="translate("#;

const DIAMOND_X: &str = r#"<path d="M0 -8 L7 0 L0 8 L-7 0 Z" transform="translate("#;

const ARROW_X: &str = r#"<path d="M-8 -6 L0 0 L-8 6" transform="translate("#;

const TRIANGLE_X: &str = r#"<path d="M-6 -10 L6 -10 L0 0 Z" transform="translate("#;

const MARK_Y: &str = " ";

const MARK_END: &str = r#")"/>"#;

const WORDS_X: &str = r#"<text x=""#;

const WORDS_AT: &str = r#"">"#;

const WORDS_END: &str = "</text>";

/// What may be in a page beside numbers and texts. It is written unchanged.
#[derive(Clone, Copy, Debug, PartialEq, Eq)]
pub enum Markup {
    /// The head of the page.
    PageStart,
    /// How the page looks: light, dark and in print.
    Style,
    BodyStart,
    PageEnd,
    TitleStart,
    TitleEnd,
    /// The line of the check.
    LineStart,
    LineEnd,
    /// The list of what the page is about: a name and a value each.
    FactsStart,
    FactStart,
    FactBreak,
    FactEnd,
    FactsEnd,
    HeadingStart,
    HeadingEnd,
    ParagraphStart,
    ParagraphEnd,
    ListStart,
    ItemStart,
    ItemEnd,
    ListEnd,
    /// What is folded away until it is asked for, up to its title.
    FoldStart,
    FoldOpen,
    FoldEnd,
    /// The table of calls, in a box that scrolls by itself.
    CallsStart,
    /// The table of calls, with those who asked.
    ClientCallsStart,
    /// The table of an order.
    OrderStart,
    RowStart,
    BrokenRowStart,
    EvidenceRowStart,
    NoteRowStart,
    CellBreak,
    /// The break before the last cell of a note's row.
    WideCell,
    /// The same in a table with clients.
    ClientWideCell,
    /// Words that are never broken across lines.
    WhenStart,
    WhenEnd,
    RowEnd,
    TableEnd,
    /// A drawing, in a box that scrolls by itself, up to its least width on a screen.
    DrawingStart,
    /// Up to its width and its height.
    DrawingBox,
    DrawingOpen,
    DrawingEnd,
    CaptionStart,
    CaptionEnd,
    AxisStart,
    /// A call, up to the words that are shown if it is pointed at.
    BarStart,
    /// A call without a reply.
    LostStart,
    /// A call that is evidence.
    EvidenceStart,
    /// The call with the broken reply.
    BrokenStart,
    /// A note.
    NoteStart,
    /// The end of the words that are shown if something is pointed at.
    TipEnd,
    /// A version of the document.
    VersionStart,
    GroupEnd,
    BoxX,
    BoxY,
    BoxWidth,
    BoxHeight,
    /// The line at the broken reply.
    HereX,
    /// The line at a note.
    NoteX,
    /// The moment at which a call takes effect.
    TickX,
    LineY,
    LineToX,
    LineToY,
    ShapeEnd,
    /// A cross, up to its position.
    CrossX,
    /// A diamond.
    DiamondX,
    /// An arrow to the right.
    ArrowX,
    /// A triangle that points down.
    TriangleX,
    MarkY,
    MarkEnd,
    WordsX,
    WordsAt,
    WordsEnd,
}

/// Returns the bytes of the markup.
pub fn markup_text(markup: Markup) -> &'static str
    ensures { result.now ≡ markup_bytes markup }
{
    match markup {
        Markup::PageStart => PAGE_START,
        Markup::Style => STYLE,
        Markup::BodyStart => BODY_START,
        Markup::PageEnd => PAGE_END,
        Markup::TitleStart => TITLE_START,
        Markup::TitleEnd => TITLE_END,
        Markup::LineStart => LINE_START,
        Markup::LineEnd => LINE_END,
        Markup::FactsStart => FACTS_START,
        Markup::FactStart => FACT_START,
        Markup::FactBreak => FACT_BREAK,
        Markup::FactEnd => FACT_END,
        Markup::FactsEnd => FACTS_END,
        Markup::HeadingStart => HEADING_START,
        Markup::HeadingEnd => HEADING_END,
        Markup::ParagraphStart => PARAGRAPH_START,
        Markup::ParagraphEnd => PARAGRAPH_END,
        Markup::ListStart => LIST_START,
        Markup::ItemStart => ITEM_START,
        Markup::ItemEnd => ITEM_END,
        Markup::ListEnd => LIST_END,
        Markup::FoldStart => FOLD_START,
        Markup::FoldOpen => FOLD_OPEN,
        Markup::FoldEnd => FOLD_END,
        Markup::CallsStart => CALLS_START,
        Markup::ClientCallsStart => CLIENT_CALLS_START,
        Markup::OrderStart => ORDER_START,
        Markup::RowStart => ROW_START,
        Markup::BrokenRowStart => BROKEN_ROW_START,
        Markup::EvidenceRowStart => EVIDENCE_ROW_START,
        Markup::NoteRowStart => NOTE_ROW_START,
        Markup::CellBreak => CELL_BREAK,
        Markup::WideCell => WIDE_CELL,
        Markup::ClientWideCell => CLIENT_WIDE_CELL,
        Markup::WhenStart => WHEN_START,
        Markup::WhenEnd => WHEN_END,
        Markup::RowEnd => ROW_END,
        Markup::TableEnd => TABLE_END,
        Markup::DrawingStart => DRAWING_START,
        Markup::DrawingBox => DRAWING_BOX,
        Markup::DrawingOpen => DRAWING_OPEN,
        Markup::DrawingEnd => DRAWING_END,
        Markup::CaptionStart => CAPTION_START,
        Markup::CaptionEnd => CAPTION_END,
        Markup::AxisStart => AXIS_START,
        Markup::BarStart => BAR_START,
        Markup::LostStart => LOST_START,
        Markup::EvidenceStart => EVIDENCE_START,
        Markup::BrokenStart => BROKEN_START,
        Markup::NoteStart => NOTE_START,
        Markup::TipEnd => TIP_END,
        Markup::VersionStart => VERSION_START,
        Markup::GroupEnd => GROUP_END,
        Markup::BoxX => BOX_X,
        Markup::BoxY => BOX_Y,
        Markup::BoxWidth => BOX_WIDTH,
        Markup::BoxHeight => BOX_HEIGHT,
        Markup::HereX => HERE_X,
        Markup::NoteX => NOTE_X,
        Markup::TickX => TICK_X,
        Markup::LineY => LINE_Y,
        Markup::LineToX => LINE_TO_X,
        Markup::LineToY => LINE_TO_Y,
        Markup::ShapeEnd => SHAPE_END,
        Markup::CrossX => CROSS_X,
        Markup::DiamondX => DIAMOND_X,
        Markup::ArrowX => ARROW_X,
        Markup::TriangleX => TRIANGLE_X,
        Markup::MarkY => MARK_Y,
        Markup::MarkEnd => MARK_END,
        Markup::WordsX => WORDS_X,
        Markup::WordsAt => WORDS_AT,
        Markup::WordsEnd => WORDS_END,
    }
}
