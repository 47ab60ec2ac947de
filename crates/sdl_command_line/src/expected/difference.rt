//! The first line in which two texts differ.

ghost use Rattle.std.specs.Prelude.{◌≡◌, ◌↔◌, ◌-◌, ◌≤◌, IfSome, IsNone, drop, length, slice_get, take};
ghost use Rattle.sdl_command_line.specs.Difference.{IsFirstDifference, text_of};
ghost use Rattle.sdl_command_line.specs.Lines.{texts_of};

/// So many lines before a difference are shown with it.
const MOST_SHOWN: usize = 3;

/// The lines with which two texts begin, and the two that follow, which differ. A text that is over has none there.
#[derive(Clone, Copy)]
pub struct Difference<'t> {
    pub same: &'t [&'t [u8]],
    pub wanted: Option<&'t [u8]>,
    pub told: Option<&'t [u8]>,
}

impl<'t> Difference<'t> {
    /// The last of the lines that are the same, three at most.
    pub fn context(&self) -> &[&'t [u8]]
        ensures { result.now ≡ drop (length self.now.same.now - 3) self.now.same.now }
    {
        let (_, shown) = self
            .same
            .split_at(self.same.len().saturating_sub(MOST_SHOWN));
        shown
    }
}

/// The first line in which some lines differ from the wanted ones. There is none just if they are the same.
pub fn first_difference<'t>(wanted: &'t [&'t [u8]], told: &'t [&'t [u8]]) -> Option<Difference<'t>>
    ensures same { IsNone result ↔ (texts_of wanted.now ≡ texts_of told.now) }
    ensures first { IfSome result (IsFirstDifference (texts_of wanted.now) (texts_of told.now)) }
{
    let at = same_lines(wanted, told);
    if at == wanted.len().max(told.len()) {
        return None;
    }
    let (same, wanted_rest) = wanted.split_at(at);
    let (_, told_rest) = told.split_at(at);
    Some(Difference {
        same,
        wanted: first_of(wanted_rest),
        told: first_of(told_rest),
    })
}

/// With how many lines both begin.
fn same_lines(wanted: &[&[u8]], told: &[&[u8]]) -> usize
    ensures within_wanted { result ≤ length wanted.now }
    ensures within_told { result ≤ length told.now }
    ensures same { take result (texts_of wanted.now) ≡ take result (texts_of told.now) }
    ensures next { slice_get (texts_of wanted.now) result ≡ slice_get (texts_of told.now) result
        → (result ≡ length wanted.now) × (result ≡ length told.now) }
{
    let len = wanted.len().min(told.len());
    for at in 0..len {
        if wanted[at] != told[at] {
            return at;
        }
    }
    len
}

/// The first of some lines, if there is one.
fn first_of<'t>(lines: &[&'t [u8]]) -> Option<&'t [u8]>
    ensures { text_of result ≡ slice_get (texts_of lines.now) 0 }
{
    match lines.first() {
        Some(line) => Some(line),
        None => None,
    }
}
