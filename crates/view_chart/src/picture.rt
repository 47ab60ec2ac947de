//! A chart (`view_chart`) as a picture, to look at: SVG, or a page with it.
//!
//! `write_svg` and `write_html` draw a chart. What is drawn isn't promised by contracts, except that a text goes out, or
//! a prefix of one with a fault.
//!
//! Nothing in the words of a chart is markup, so only the title of a picture is escaped.

mod arrows;
mod creations;
mod drawing;
mod ends;
mod heads;
mod html;
mod levels;
mod lines;
mod markup;
mod pages;
mod pixels;
mod room;
mod signs;
mod slopes;
mod spacing;
mod style;
mod svg;

pub use html::write_html;
pub use svg::write_svg;
