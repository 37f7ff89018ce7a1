//! The shapes of an image. All text in them is names, numbers and words of this program, which SVG has as they are.

use std::alloc::{AllocError, Global};

/// What every image has: how it looks.
pub(crate) const STYLE: &str = "\
<style>
text { font-family: ui-monospace, Menlo, Consolas, 'DejaVu Sans Mono', monospace; font-size: 13px; fill: #1a1d21; }
.title { font-weight: bold; font-size: 15px; }
.lane-name { font-weight: bold; text-anchor: middle; }
.cycle { text-anchor: end; fill: #59616b; }
.label { text-anchor: middle; }
.note { fill: #59616b; }
.broken-text { fill: #b3261e; font-weight: bold; }
.lane { stroke: #c9ced6; stroke-width: 2; }
.message { stroke: #1a1d21; stroke-width: 1.5; }
.message-head { fill: #1a1d21; }
.earlier { stroke: #0b57d0; stroke-width: 2.5; }
.earlier-head { fill: #0b57d0; }
.earlier-text { fill: #0b57d0; font-weight: bold; }
.broken { stroke: #b3261e; stroke-width: 3; }
.broken-head { fill: #b3261e; }
.why { stroke: #0b57d0; stroke-width: 1.5; stroke-dasharray: 5 4; fill: none; }
</style>
";

/// A point of an image, in pixels from its upper left corner.
#[derive(Clone, Copy)]
pub(crate) struct Point {
    pub(crate) x: usize,
    pub(crate) y: usize,
}

impl Point {
    /// The point so far to the right and down.
    pub(crate) fn plus(self, x: usize, y: usize) -> Point {
        Point {
            x: self.x.saturating_add(x),
            y: self.y.saturating_add(y),
        }
    }

    /// The point so far to the left and up, within the image.
    pub(crate) fn minus(self, x: usize, y: usize) -> Point {
        Point {
            x: self.x.saturating_sub(x),
            y: self.y.saturating_sub(y),
        }
    }

    /// Its numbers, as in a list of points.
    fn text(self, alloc: Global) -> Result<String, AllocError> {
        let x = self.x;
        let y = self.y;
        format!(in alloc; "{x},{y}")
    }
}

/// A text at a point, where its line stands.
pub(crate) fn text_at(
    alloc: Global,
    class: &str,
    at: Point,
    text: &str,
) -> Result<String, AllocError> {
    let x = at.x;
    let y = at.y;
    format!(in alloc; "<text class=\"{class}\" x=\"{x}\" y=\"{y}\">{text}</text>\n")
}

/// A line from one point to another.
pub(crate) fn line_from(
    alloc: Global,
    class: &str,
    from: Point,
    to: Point,
) -> Result<String, AllocError> {
    let from = from.text(alloc)?;
    let to = to.text(alloc)?;
    format!(in alloc; "<polyline class=\"{class}\" points=\"{from} {to}\"/>\n")
}

/// A triangle.
fn triangle(
    alloc: Global,
    class: &str,
    tip: Point,
    one: Point,
    other: Point,
) -> Result<String, AllocError> {
    let tip = tip.text(alloc)?;
    let one = one.text(alloc)?;
    let other = other.text(alloc)?;
    format!(in alloc; "<polygon class=\"{class}\" points=\"{tip} {one} {other}\"/>\n")
}

/// The head of an arrow whose tip is at a point.
pub(crate) fn arrow_head(
    alloc: Global,
    class: &str,
    tip: Point,
    is_leftward: bool,
) -> Result<String, AllocError> {
    let back = if is_leftward {
        tip.plus(12, 0)
    } else {
        tip.minus(12, 0)
    };
    triangle(alloc, class, tip, back.minus(0, 5), back.plus(0, 5))
}

/// A cross at a point.
pub(crate) fn cross_at(alloc: Global, class: &str, at: Point) -> Result<String, AllocError> {
    let one = line_from(alloc, class, at.minus(6, 6), at.plus(6, 6))?;
    let other = line_from(
        alloc,
        class,
        at.plus(0, 6).minus(6, 0),
        at.plus(6, 0).minus(0, 6),
    )?;
    format!(in alloc; "{one}{other}")
}

/// A dashed curve, which goes out to the left, from a point to one below it, with a head.
pub(crate) fn curve_down(
    alloc: Global,
    from: Point,
    to: Point,
    out: usize,
) -> Result<String, AllocError> {
    let begin = from.text(alloc)?;
    let one = from.minus(out, 0).text(alloc)?;
    let other = to.minus(out, 0).text(alloc)?;
    let end = to.minus(12, 0).text(alloc)?;
    let head = arrow_head(alloc, "earlier-head", to.minus(1, 0), false)?;
    format!(in alloc; "<path class=\"why\" d=\"M {begin} C {one} {other} {end}\"/>\n{head}")
}

/// An image of this size around its shapes, with a title for those who can't see it.
pub(crate) fn image_around(
    alloc: Global,
    title: &str,
    size: Point,
    shapes: &str,
) -> Result<String, AllocError> {
    let x = size.x;
    let y = size.y;
    format!(in alloc;
        "<svg xmlns=\"http://www.w3.org/2000/svg\" width=\"{x}\" height=\"{y}\" viewBox=\"0 0 {x} {y}\" role=\"img\">\n\
<title>{title}</title>\n{STYLE}<rect width=\"{x}\" height=\"{y}\" fill=\"#ffffff\"/>\n{shapes}</svg>\n"
    )
}
