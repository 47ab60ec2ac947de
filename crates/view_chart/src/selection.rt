//! What of a run is drawn.

ghost use Rattle.std.specs.Prelude.{◌≡◌, ◌↔◌, IsTrue};
ghost use Rattle.std.specs.List.{list_any};
ghost use Rattle.view_chart.specs.Selection.{IsBetween, has_instance, is_one};

use port_model::Ticks;

/// What of a run is drawn: all, or a choice of its instances and times.
pub struct Selection {
    /// The instances; none: all of them.
    pub only: Vec<Wanted>,
    /// The first time.
    pub from: Option<Ticks>,
    /// The last time.
    pub until: Option<Ticks>,
}

/// Written out, so that it is proved here, and not anew in each crate that drops one.
impl Drop for Selection {
    fn drop(self) {
        let Selection {
            only: _,
            from: _,
            until: _,
        } = self;
    }
}

/// Instances that are drawn: those of a process, or the one of this number.
#[derive(Drop)]
pub enum Wanted {
    Process(String),
    Instance(u32),
}

impl Selection {
    /// Whether an instance is drawn.
    pub fn has_instance(&self, number: u32, process: &str) -> bool
        ensures { result ≡ has_instance self.now number process.now }
    {
        self.only.is_empty() || is_any(&self.only, number, process)
    }

    /// Whether what is done at this time is drawn.
    pub fn has_time(&self, at: Ticks) -> bool
        ensures { IsTrue result ↔ IsBetween self.now.from self.now.until at }
    {
        self.from.is_none_or(|from| from <= at) && self.until.is_none_or(|until| at <= until)
    }
}

/// Whether an instance is one of those that are wanted.
fn is_any(wanted: &[Wanted], number: u32, process: &str) -> bool
    ensures { result ≡ list_any (is_one number process.now) wanted.now }
{
    wanted.iter().any(|one| one.is(number, process))
}

impl Wanted {
    fn is(&self, number: u32, process: &str) -> bool
        ensures { result ≡ is_one number process.now self.now }
    {
        match self {
            Wanted::Process(name) => name.as_str() == process,
            Wanted::Instance(wanted) => *wanted == number,
        }
    }
}
