//! The signs at the lines of columns (Z.120: condition, timer, stop).

use crate::chart::{Mark, Sign};
use crate::picture::drawing::Drawing;
use crate::picture::pixels::{Pixels, width_of};
use std::alloc::AllocError;

/// Appends the signs.
pub fn push_signs(text: &mut String, drawing: &Drawing) -> Result<(), AllocError> {
    for mark in &drawing.chart.marks {
        let told = &mark.told;
        write!(text, "<g><title>{told}</title>")?;
        push_sign(text, drawing, mark)?;
        text.push_str("</g>\n")?;
    }
    Ok(())
}

fn push_sign(text: &mut String, drawing: &Drawing, mark: &Mark) -> Result<(), AllocError> {
    let x = drawing.x(mark.spot.column);
    let y = drawing.y(mark.spot.row);
    let label = mark.label.as_str();
    match mark.sign {
        Sign::State => push_state(text, x, y, label),
        Sign::Set => {
            push_hourglass(text, x, y)?;
            push_stem(text, x, y, "timer", None)?;
            push_label(text, "timertext halo", x.plus(44), y, label)
        }
        Sign::Timeout => {
            push_hourglass(text, x, y)?;
            push_stem(text, x, y, "timer", Some("c"))?;
            push_label(text, "timertext halo", x.plus(44), y, label)
        }
        Sign::Discard => {
            push_hourglass(text, x, y)?;
            push_stem(text, x, y, "lost", Some("b"))?;
            push_label(text, "losttext halo", x.plus(44), y, label)
        }
        Sign::Reset => {
            push_reset(text, x, y)?;
            push_label(text, "timertext halo", x.plus(44), y, label)
        }
        Sign::Provided | Sign::Create => push_label(text, "small halo", x.plus(11), y, label),
        Sign::Stop => push_stop(text, x, y),
        Sign::Failure => {
            push_stop(text, x, y)?;
            push_label(text, "losttext halo", x.plus(12), y, label)
        }
    }
}

/// Appends a hexagon with the name of a state.
fn push_state(text: &mut String, x: Pixels, y: Pixels, name: &str) -> Result<(), AllocError> {
    let half = Pixels(width_of(name).0 / 2).plus(1);
    let left = x.minus(half.0).minus(8).0;
    let middle = x.0;
    let width = half.times(2).0;
    let line = y.0;
    let below = y.plus(4).0;
    write!(
        text,
        "<path class=\"state\" d=\"M{left} {line}l8 -9h{width}l8 9l-8 9h-{width}z\"/>"
    )?;
    write!(
        text,
        "<text x=\"{middle}\" y=\"{below}\" text-anchor=\"middle\">{name}</text>"
    )
}

/// Appends the hourglass of a timer.
fn push_hourglass(text: &mut String, x: Pixels, y: Pixels) -> Result<(), AllocError> {
    let left = x.plus(26).0;
    let top = y.minus(6).0;
    write!(
        text,
        "<path class=\"timer\" d=\"M{left} {top}h12l-12 12h12z\"/>"
    )
}

/// Appends the line between a bar and an hourglass: an arrow back to the bar, if there is a tip.
fn push_stem(
    text: &mut String,
    x: Pixels,
    y: Pixels,
    class: &str,
    tip: Option<&str>,
) -> Result<(), AllocError> {
    let near = x.plus(5).0;
    let far = x.plus(32).0;
    let line = y.0;
    write!(text, "<line class=\"{class}\"")?;
    let (x1, x2) = match tip {
        Some(tip) => {
            write!(text, " marker-end=\"url(#{tip})\"")?;
            (far, near)
        }
        None => (near, far),
    };
    write!(
        text,
        " x1=\"{x1}\" y1=\"{line}\" x2=\"{x2}\" y2=\"{line}\"/>"
    )
}

/// Appends the cross of a reset, at the end of a line.
fn push_reset(text: &mut String, x: Pixels, y: Pixels) -> Result<(), AllocError> {
    let near = x.plus(5).0;
    let line = y.0;
    write!(
        text,
        "<path class=\"timer\" d=\"M{near} {line}h27m-5 -5l10 10m0 -10l-10 10\"/>"
    )
}

/// Appends the cross of an instance that ends.
fn push_stop(text: &mut String, x: Pixels, y: Pixels) -> Result<(), AllocError> {
    let left = x.minus(7).0;
    let top = y.minus(7).0;
    write!(
        text,
        "<path class=\"stop\" d=\"M{left} {top}l14 14m0 -14l-14 14\"/>"
    )
}

/// Appends a label to the right of a sign.
fn push_label(
    text: &mut String,
    class: &str,
    x: Pixels,
    y: Pixels,
    label: &str,
) -> Result<(), AllocError> {
    let left = x.0;
    let below = y.plus(4).0;
    write!(
        text,
        "<text class=\"{class}\" x=\"{left}\" y=\"{below}\">{label}</text>"
    )
}
