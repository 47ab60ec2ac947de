//! Words that choose nobody.

ghost use Rattle.std.specs.Prelude.{◌≡◌, not, option_copied};
ghost use Rattle.std.specs.List.{find};
ghost use Rattle.sdl_command_line.specs.Chosen.{chooses, is_chosen};

use run_record::Record;
use sdl_engine::Run;
use sdl_report::process_name;
use view_chart::{Selection, Wanted};

/// The first choice of instances that no instance of a run meets.
pub fn nobody<'s>(run: &Run, selection: &'s Selection) -> Option<&'s Wanted>
    ensures { option_copied result ≡ find (λ wanted. not (is_chosen run.now wanted)) selection.now.only.items }
{
    selection.only.iter().find(|wanted| !is_chosen(run, wanted))
}

/// Whether an instance of a run is one of those that are wanted.
fn is_chosen(run: &Run, wanted: &Wanted) -> bool
    ensures { result ≡ is_chosen run.now wanted.now }
{
    run.report
        .records
        .iter()
        .any(|record| chooses(run, wanted, record))
}

/// Whether the instance of a record is one of those that are wanted.
fn chooses(run: &Run, wanted: &Wanted, record: &Record) -> bool
    ensures { result ≡ chooses run.now wanted.now record.now }
{
    match wanted {
        Wanted::Process(name) => process_name(&run.system, record.process()) == name.as_str(),
        Wanted::Instance(number) => record.pid() == *number,
    }
}
