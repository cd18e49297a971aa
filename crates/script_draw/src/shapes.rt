//! The shapes of a picture, as SVG.

use crate::escape::put_escaped;
use crate::event::Mark;
use op_base::NoMemory;

/// How a text is set.
#[derive(Clone, Copy, Debug, PartialEq, Eq)]
pub enum Style {
    Plain,
    Id,
    Answer,
    Refusal,
    Early,
    /// From its place to the right.
    Left,
    /// The same, for what has to be seen.
    Notice,
}

/// A style's class.
fn class_of(style: Style) -> &'static str {
    match style {
        Style::Plain => "p",
        Style::Id => "i",
        Style::Answer => "a",
        Style::Refusal => "r",
        Style::Early => "e",
        Style::Left => "l",
        Style::Notice => "n",
    }
}

/// The shapes of a picture: its marks, a message of bytes that nobody sent, where an epoch begins, and where a replica
/// leaves.
#[derive(Clone, Copy, Debug, PartialEq, Eq)]
pub enum Shape {
    Mark(Mark),
    Raw,
    Epoch,
    Leaving,
}

/// Puts the opening of a picture, its styles and the heads of its arrows.
pub fn put_opening(width: u32, height: u32, out: &mut String) -> Result<(), NoMemory> {
    write!(
        out,
        "<svg xmlns=\"http://www.w3.org/2000/svg\" width=\"{width}\" height=\"{height}\" viewBox=\"0 0 {width} {height}\">\n"
    )?;
    out.push_str(STYLES)?;
    for (name, colour) in HEADS {
        write!(
            out,
            "<marker id=\"{name}\" markerWidth=\"9\" markerHeight=\"8\" refX=\"12\" refY=\"4\" markerUnits=\"userSpaceOnUse\" orient=\"auto\"><path d=\"M0,0L9,4L0,8z\" fill=\"{colour}\"/></marker>\n"
        )?;
    }
    out.push_str("<rect width=\"100%\" height=\"100%\" fill=\"#fff\"/>\n")?;
    Ok(())
}

/// The styles of texts.
const STYLES: &str =
    "<style>text{font:11px monospace;text-anchor:middle;fill:#234;stroke:#fff;stroke-width:3px;stroke-linejoin:round;paint-order:stroke}.i{fill:#678}.a{fill:#17663a}.r{fill:#b02020}.e{fill:#9a5b00}.l,.n{text-anchor:start}.n{fill:#b02020;font-weight:bold}</style>\n";

/// The heads of arrows, and their colours.
const HEADS: [(&str, &str); 4] = [
    ("d", "#456"),
    ("k", "#c77a00"),
    ("x", "#c22"),
    ("o", "#999"),
];

/// Puts a text.
pub fn put_text(
    x: u32,
    y: u32,
    style: Style,
    text: &str,
    out: &mut String,
) -> Result<(), NoMemory> {
    if text.is_empty() {
        return Ok(());
    }
    let class = class_of(style);
    write!(out, "<text x=\"{x}\" y=\"{y}\" class=\"{class}\">")?;
    put_escaped(text, out)?;
    out.push_str("</text>\n")?;
    Ok(())
}

/// Puts a shape.
pub fn put_shape(x: u32, y: u32, shape: Shape, out: &mut String) -> Result<(), NoMemory> {
    match shape {
        Shape::Mark(Mark::Operation) => write!(
            out,
            "<circle cx=\"{x}\" cy=\"{y}\" r=\"6\" fill=\"#1f6fb2\"/>\n"
        )?,
        Shape::Mark(Mark::NoOp) => write!(
            out,
            "<circle cx=\"{x}\" cy=\"{y}\" r=\"4.5\" fill=\"#fff\" stroke=\"#1f6fb2\" stroke-width=\"1.5\"/>\n"
        )?,
        Shape::Mark(Mark::Delivered) => write!(
            out,
            "<circle cx=\"{x}\" cy=\"{y}\" r=\"3.5\" fill=\"#345\"/>\n"
        )?,
        Shape::Mark(Mark::Early) => {
            let (left, top) = (x.saturating_sub(4), y.saturating_sub(4));
            write!(
                out,
                "<rect x=\"{left}\" y=\"{top}\" width=\"8\" height=\"8\" fill=\"#fff\" stroke=\"#c77a00\" stroke-width=\"1.5\"/>\n"
            )?;
        }
        Shape::Mark(Mark::Dropped) => write!(
            out,
            "<path d=\"M{x},{y}m-5,-5l10,10m0,-10l-10,10\" stroke=\"#c22\" stroke-width=\"2.5\" fill=\"none\"/>\n"
        )?,
        Shape::Mark(Mark::Repeated) => write!(
            out,
            "<circle cx=\"{x}\" cy=\"{y}\" r=\"3.5\" fill=\"#fff\" stroke=\"#999\" stroke-width=\"1.5\"/>\n"
        )?,
        Shape::Mark(Mark::Answer) => write!(
            out,
            "<path d=\"M{x},{y}m0,-6v12\" stroke=\"#2a8a50\" stroke-width=\"3\"/>\n"
        )?,
        Shape::Mark(Mark::Refusal) => write!(
            out,
            "<path d=\"M{x},{y}m0,-6v12\" stroke=\"#c22\" stroke-width=\"3\"/>\n"
        )?,
        Shape::Mark(Mark::Stop) => {
            let (left, top) = (x.saturating_sub(3), y.saturating_sub(7));
            write!(
                out,
                "<rect x=\"{left}\" y=\"{top}\" width=\"6\" height=\"14\" fill=\"#fff\"/>\n<path d=\"M{left},{top}v14m6,0v-14\" stroke=\"#234\" stroke-width=\"2\" fill=\"none\"/>\n"
            )?;
        }
        Shape::Raw => write!(
            out,
            "<path d=\"M{x},{y}m-6,0l6,-6l6,6l-6,6z\" fill=\"#8040a0\"/>\n"
        )?,
        Shape::Epoch => put_rule(x, y.saturating_sub(7), y.saturating_add(7), out)?,
        Shape::Leaving => write!(
            out,
            "<path d=\"M{x},{y}m-9,0h9m0,-5v10\" stroke=\"#678\" stroke-width=\"1.5\" fill=\"none\"/>\n"
        )?,
    }
    Ok(())
}

/// Puts a rule where an epoch begins.
pub fn put_rule(x: u32, top: u32, bottom: u32, out: &mut String) -> Result<(), NoMemory> {
    write!(out, "<path d=\"M{x},{top}V{bottom}\" stroke=\"#88a\"/>\n")?;
    Ok(())
}

/// Puts an arrow of a message to where it came.
pub fn put_arrow(
    from: (u32, u32),
    to: (u32, u32),
    mark: Mark,
    out: &mut String,
) -> Result<(), NoMemory> {
    let (head, colour, dashes) = match mark {
        Mark::Early => ("k", "#c77a00", " stroke-dasharray=\"5 3\""),
        Mark::Dropped => ("x", "#c22", ""),
        Mark::Repeated => ("o", "#999", " stroke-dasharray=\"2 3\""),
        _ => ("d", "#456", ""),
    };
    let (x, y) = from;
    let (far_x, far_y) = to;
    write!(
        out,
        "<path d=\"M{x},{y}L{far_x},{far_y}\" stroke=\"{colour}\"{dashes} marker-end=\"url(#{head})\"/>\n"
    )?;
    Ok(())
}

/// Puts a band from one place to another along a line.
pub fn put_band(
    x: u32,
    to: u32,
    y: u32,
    height: u32,
    colour: &str,
    out: &mut String,
) -> Result<(), NoMemory> {
    let width = to.saturating_sub(x);
    let top = y.saturating_sub(height / 2);
    write!(
        out,
        "<rect x=\"{x}\" y=\"{top}\" width=\"{width}\" height=\"{height}\" fill=\"{colour}\"/>\n"
    )?;
    Ok(())
}
