//! A script's run as a picture.

ghost use Rattle.std.specs.Prelude.{◌≡◌, true, false, Err, IsOk};
ghost use Rattle.script_draw.specs.Opening.{has_header};

use crate::event::{Event, Heading, Labels, Level, Mark, Stretch};
use crate::plan::{LEFT, MOST_MARKS, Plan};
use crate::play::play;
use crate::script::DrawFault;
use crate::shapes::{
    Shape, Style, put_arrow, put_band, put_opening, put_rule, put_shape, put_text,
};
use op_base::NoMemory;
use std::alloc::Global;

/// A picture is at least so wide, for what explains it.
const LEAST_WIDTH: u32 = 720;

/// A band is so high where all is known to be everywhere.
const BAND: u32 = 18;

/// What explains the shapes, in their order.
const EXPLAINED: [(Shape, &str); 12] = [
    (Shape::Mark(Mark::Operation), "sends an operation"),
    (Shape::Mark(Mark::NoOp), "sends a no-op"),
    (Shape::Mark(Mark::Delivered), "delivers a message"),
    (Shape::Mark(Mark::Early), "came early, and waits"),
    (Shape::Mark(Mark::Repeated), "was here already"),
    (Shape::Mark(Mark::Dropped), "doesn't fit, and is dropped"),
    (Shape::Raw, "delivers what raw bytes say"),
    (Shape::Mark(Mark::Answer), "answers"),
    (Shape::Mark(Mark::Refusal), "refuses, or has nothing to do"),
    (Shape::Mark(Mark::Stop), "is stopped, and opened again"),
    (Shape::Epoch, "the next epoch begins"),
    (Shape::Leaving, "is no member any more"),
];

/// The height of the first replica's line.
const TOP: u32 = 76;

/// How far the lines of replicas are apart.
const PITCH: u32 = 76;

/// The height of a replica's line.
fn y(replica: u8) -> u32 {
    TOP + PITCH * u32::from(replica)
}

/// The picture of a script's run, as SVG: a space-time diagram of its first 500 marks. Where there are more, it says so.
/// `BadHeader` comes exactly where the first command line is no header of a script, or there is none, unless there is no
/// memory.
pub fn picture(alloc: Global, script: &[u8]) -> Result<String, DrawFault>
    ensures headless { result ≡ Err DrawFault.BadHeader → has_header script.now ≡ false }
    ensures opens { IsOk result → has_header script.now ≡ true }
{
    let plan = play(alloc, script)?;
    let mut out = String::new(alloc);
    put_picture(alloc, &plan, &mut out)?;
    Ok(out)
}

/// Where the lines of replicas end.
fn end_of(plan: &Plan) -> u32 {
    plan.last.saturating_add(100)
}

/// Puts a picture.
fn put_picture(alloc: Global, plan: &Plan, out: &mut String) -> Result<(), NoMemory> {
    let below = y(plan.most).saturating_sub(18);
    let end = end_of(plan);
    let explained = explained_of(alloc, plan)?;
    let width = end.saturating_add(16).max(LEAST_WIDTH);
    let (_, last) = place_of(explained.len().min(20) as u32 + 2, below);
    put_opening(width, last.saturating_add(38), out)?;
    put_bands(&plan.levels, end, out)?;
    put_rules(&plan.rules, below.saturating_sub(22), out)?;
    put_stretches(&plan.stretches, end, out)?;
    put_waits(&plan.events, out)?;
    put_arrows(&plan.events, out)?;
    for event in plan.events.iter() {
        put_shape(event.at.x, y(event.at.replica), shape_of(event), out)?;
    }
    for event in plan.events.iter() {
        put_labels(event, out)?;
    }
    for heading in plan.headings.iter() {
        put_heading(heading, out)?;
    }
    put_explanation(plan, &explained, below, out)?;
    out.push_str("</svg>\n")?;
    Ok(())
}

/// Puts a rule where an epoch begins, for each but the first.
fn put_rules(rules: &[u32], bottom: u32, out: &mut String) -> Result<(), NoMemory> {
    for x in rules {
        put_rule(*x, 50, bottom, out)?;
    }
    Ok(())
}

/// Puts a replica's name and its line, and a mark at its end where it leaves, for each stretch.
fn put_stretches(stretches: &[Stretch], end: u32, out: &mut String) -> Result<(), NoMemory> {
    for stretch in stretches {
        let (r, x) = (stretch.from.replica, stretch.from.x);
        let (height, name) = (y(r), x.saturating_sub(LEFT - 6));
        let to = stretch.to.unwrap_or(end);
        write!(
            out,
            "<path d=\"M{x},{height}H{to}\" stroke=\"#999\"/>\n<text x=\"{name}\" y=\"{height}\" dy=\"4\" class=\"l\">replica {r}</text>\n"
        )?;
        if stretch.to.is_some() {
            put_shape(to, height, Shape::Leaving, out)?;
        }
    }
    Ok(())
}

/// How high a band is.
fn height_of(level: &Level) -> u32 {
    let stable = level.stable.min(MOST_MARKS) as u32;
    let seen = level.seen.clamp(1, MOST_MARKS) as u32;
    (BAND * stable / seen).min(BAND)
}

/// Puts the shade that follows each replica: how much of what it delivered it knows to be everywhere.
fn put_bands(levels: &[Level], end: u32, out: &mut String) -> Result<(), NoMemory> {
    for (place, level) in levels.iter().enumerate() {
        let mut later = levels.iter().skip(place + 1);
        let next = later.find(|other| other.at.replica == level.at.replica);
        let to = next.map_or(end, |other| other.at.x);
        let height = height_of(level);
        if height > 0 {
            put_band(level.at.x, to, y(level.at.replica), height, "#bfe3c8", out)?;
        }
    }
    Ok(())
}

/// Puts a bar from where a message came early to where it was delivered, for each.
fn put_waits(events: &[Event], out: &mut String) -> Result<(), NoMemory> {
    for event in events {
        if let Some(early) = event.early {
            put_band(early, event.at.x, y(event.at.replica), 4, "#f0b850", out)?;
        }
    }
    Ok(())
}

/// Puts the arrow of each message that came from another replica.
fn put_arrows(events: &[Event], out: &mut String) -> Result<(), NoMemory> {
    for event in events {
        if let Some(sent) = event.sent
            && sent.replica != event.at.replica
        {
            let from = (sent.x, y(sent.replica));
            let to = (event.at.x, y(event.at.replica));
            put_arrow(from, to, event.mark, out)?;
        }
    }
    Ok(())
}

/// An event's shape.
fn shape_of(event: &Event) -> Shape {
    match event.mark {
        Mark::Delivered if event.sent.is_none() && event.early.is_none() => Shape::Raw,
        mark => Shape::Mark(mark),
    }
}

/// The style of an event's labels.
fn style_of(mark: Mark) -> Style {
    match mark {
        Mark::Operation | Mark::NoOp | Mark::Delivered | Mark::Stop => Style::Plain,
        Mark::Repeated => Style::Id,
        Mark::Early => Style::Early,
        Mark::Answer => Style::Answer,
        Mark::Dropped | Mark::Refusal => Style::Refusal,
    }
}

/// Puts an event's labels: the message above, the others below.
fn put_labels(event: &Event, out: &mut String) -> Result<(), NoMemory> {
    let (x, height) = (event.at.x, y(event.at.replica));
    if let Some(id) = event.id {
        let above = height.saturating_sub(12);
        let class = class_of_id(event.mark);
        let (origin, seq) = (id.origin, id.seq);
        write!(
            out,
            "<text x=\"{x}\" y=\"{above}\" class=\"{class}\">{origin}:{seq}</text>\n"
        )?;
    }
    let upper = height.saturating_add(21);
    put_two(x, upper, style_of(event.mark), &event.labels, out)
}

/// The class of an id's label.
fn class_of_id(mark: Mark) -> &'static str {
    match mark {
        Mark::Operation => "p",
        _ => "i",
    }
}

/// Puts two labels, or the lower in the place of an empty upper one.
fn put_two(
    x: u32,
    y: u32,
    style: Style,
    labels: &Labels,
    out: &mut String,
) -> Result<(), NoMemory> {
    put_text(x, y, style, &labels.upper, out)?;
    let lower = if labels.upper.is_empty() { 0 } else { 13 };
    put_text(x, y.saturating_add(lower), style, &labels.lower, out)
}

/// The style of labels above the lines: of a line that is no command, of settling that left replicas apart, and of members
/// that didn't change, as of what is refused.
fn style_above(labels: &Labels) -> Style {
    match labels.lower.as_str() {
        "unsettled" | "last" => Style::Refusal,
        lower if lower.starts_with("bad") => Style::Refusal,
        _ => Style::Plain,
    }
}

/// Puts what stands above the lines.
fn put_heading(heading: &Heading, out: &mut String) -> Result<(), NoMemory> {
    let x = heading.x;
    if let Some(line) = heading.line {
        write!(out, "<text x=\"{x}\" y=\"16\" class=\"i\">{line}</text>\n")?;
    }
    put_two(x, 30, style_above(&heading.labels), &heading.labels, out)
}

/// Whether a picture has a shape.
fn has_shape(plan: &Plan, shape: Shape) -> bool {
    match shape {
        Shape::Epoch => !plan.rules.is_empty(),
        Shape::Leaving => plan.stretches.iter().any(|stretch| stretch.to.is_some()),
        _ => plan.events.iter().any(|event| shape_of(event) == shape),
    }
}

/// What explains the shapes that are there.
fn explained_of(alloc: Global, plan: &Plan) -> Result<Vec<(Shape, &'static str)>, NoMemory> {
    let mut found = Vec::new(alloc);
    for (shape, text) in EXPLAINED {
        if has_shape(plan, shape) {
            found.push((shape, text))?;
        }
    }
    Ok(found)
}

/// The place of what explains a shape: three in a row.
fn place_of(number: u32, top: u32) -> (u32, u32) {
    let (row, column) = (number / 3, number % 3);
    (14 + 230 * column, top.saturating_add(18 * row.min(9)))
}

/// Puts what explains the shapes that are there, and the shade.
fn put_explanation(
    plan: &Plan,
    explained: &[(Shape, &'static str)],
    top: u32,
    out: &mut String,
) -> Result<(), NoMemory> {
    let mut number = 0u32;
    for (shape, text) in explained {
        let (x, y) = place_of(number, top);
        put_shape(x, y, *shape, out)?;
        put_text(
            x.saturating_add(12),
            y.saturating_add(4),
            Style::Left,
            text,
            out,
        )?;
        number = number.saturating_add(1);
    }
    let (_, row) = place_of(number.saturating_add(2), top);
    put_band(6, 22, row, 10, "#bfe3c8", out)?;
    put_text(26, row.saturating_add(4), Style::Left, SHADE, out)?;
    if plan.is_cut {
        put_cut(row.saturating_add(22), out)?;
    }
    Ok(())
}

/// What explains the shade.
const SHADE: &str =
    "shade: the part of the operations it delivered that it was told are everywhere; on top: script lines";

/// Puts the notice of a run that had more marks.
fn put_cut(y: u32, out: &mut String) -> Result<(), NoMemory> {
    write!(
        out,
        "<text x=\"14\" y=\"{y}\" class=\"n\">The run goes on: only its first {MOST_MARKS} marks are drawn.</text>\n"
    )?;
    Ok(())
}
