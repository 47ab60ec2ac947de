//! A run as a picture.

use crate::relay::{RELAY, SCRIPT};
use crate::runs::{all, chart_of, run_of};
use view_chart::{write_html, write_svg};

static TITLE: &str = "a < \"b\"";

/// What each picture of the run says, in words.
static SAID: [&str; 14] = [
    " role=\"img\" aria-labelledby=\"t d\">",
    "<title id=\"t\">a &lt; &quot;b&quot;: message sequence chart of a run</title>",
    "<desc id=\"d\">Columns: env, Sender #1, Keeper #2, Keeper #3; end 3 whole.",
    "<title>Sender #1 sends note(1) to Keeper #2 at 0, taken at 0</title>",
    "<title>Keeper #2 sends found to Sender #1 at 0, taken</title>",
    "<title>Sender #1 sends note(2) to Keeper #2 at 2, and nobody takes it</title>",
    "<title>Sender #1 sends found to Keeper #3 at 3, and it waits there when the run ends</title>",
    "<title>env sends go to Sender #1 at 3, taken</title>",
    "<title>Sender #1 creates no Keeper</title>",
    "<title>Keeper #2 stops</title>",
    "<title>Keeper #3 lives on when the run ends</title>",
    ">note(2) (gone)</text>",
    ">found (waits)</text>",
    ">Again, due 2</text>",
];

/// The times of the page, as high as what is drawn at them. The first is in the row 0, the second in 10, the last in 13,
/// and there are 21 rows.
static TIMES: &str = concat!(
    "<div style=\"height:14px\"></div>",
    "<div style=\"height:260px\"><b>0</b></div>",
    "<div style=\"height:78px\"><b>2</b></div>",
    "<div style=\"height:226px\"><b>3</b></div></div>",
);

/// Whether a picture says all that is to be said, closes each group, and takes nothing from elsewhere.
fn is_whole(picture: &str) -> bool {
    SAID.iter().all(|words| picture.contains(*words))
        && picture.matches("<g>").count() == picture.matches("</g>").count()
        && !picture.contains("href")
        && !picture.contains("<script")
}

#[test]
fn draws_a_picture(rt: HostRuntime) {
    let run = run_of(&rt, rt.alloc(), RELAY, SCRIPT, 1_000_000);
    let chart = chart_of(&rt, rt.alloc(), &run, &all(rt.alloc()));
    let mut written = Vec::new(rt.alloc());
    let done = write_svg(rt.alloc(), &chart, TITLE, &mut written);
    assert!(rt; done.is_ok());
    let picture = str::from_utf8(written.as_slice()).expect(&rt, "a text");
    assert!(rt; picture.starts_with("<svg xmlns=\"http://www.w3.org/2000/svg\" viewBox=\"0 0 "));
    assert!(rt; picture.ends_with("</svg>\n"));
    assert!(rt; is_whole(picture));
    assert!(rt; picture.matches("class=\"time\"").count() == 3);
    assert!(rt; picture.contains(">end 3 whole</text>\n"));
}

#[test]
fn draws_a_page(rt: HostRuntime) {
    let run = run_of(&rt, rt.alloc(), RELAY, SCRIPT, 1_000_000);
    let chart = chart_of(&rt, rt.alloc(), &run, &all(rt.alloc()));
    let mut written = Vec::new(rt.alloc());
    let done = write_html(rt.alloc(), &chart, TITLE, &mut written);
    assert!(rt; done.is_ok());
    let page = str::from_utf8(written.as_slice()).expect(&rt, "a text");
    assert!(rt; page.starts_with("<!DOCTYPE html>\n<html lang=\"en\">"));
    assert!(rt; page.ends_with("</html>\n"));
    assert!(rt; is_whole(page));
    // Heads and times stay in sight, and the picture beside them has none.
    assert!(rt; page.matches("position:sticky").count() == 3);
    assert!(rt; page.contains(TIMES));
    assert!(rt; !page.contains("class=\"time\""));
    assert!(rt; page.contains("<footer>end 3 whole</footer>"));
}
