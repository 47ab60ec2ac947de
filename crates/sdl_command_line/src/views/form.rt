//! In which form a chart is written.

/// In which form a chart is written.
#[derive(Clone, Copy, PartialEq, Eq)]
pub enum Form {
    /// A picture.
    Svg,
    /// A page with the picture, which scrolls.
    Html,
    /// Text of Z.120.
    Msc,
}

impl Form {
    /// The form that the ending of a file's name chooses.
    pub fn of_file(name: &str) -> Option<Form> {
        if name.ends_with(".svg") {
            Some(Form::Svg)
        } else if name.ends_with(".html") {
            Some(Form::Html)
        } else if name.ends_with(".mpr") {
            Some(Form::Msc)
        } else {
            None
        }
    }

    /// Whether it shows what is chosen of a run, and not all of it.
    pub fn is_picture(self) -> bool {
        self != Form::Msc
    }
}
