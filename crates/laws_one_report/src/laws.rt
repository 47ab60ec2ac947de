//! What holds of any two executions of a system, and of any two of its reports, as functions that do nothing.

ghost use Rattle.laws_one_report.specs.Same.{ExecutionsAgree, OneReport, OneReportOfAll, OneText};

/// Two executions from one state of the whole, of which as much happened in the one as in the other, are the same, and
/// lead to the same state. That is so where nothing in them fails for lack of memory (Z.101: system).
pub fn executions_agree()
    ensures { ExecutionsAgree }
{}

/// A system, what its processes mean, a script and a limit have at most one serial report, as its readers see it: two
/// in which no instance fails for lack of memory are the same, and so are their texts (Z.101: system).
pub fn one_report()
    ensures report { OneReport }
    ensures text { OneText }
{}

/// Where there is a report of a run, as `run_serial` makes it, a system, a script and a limit have at most one serial
/// report and one text, whichever behaviours of the processes are taken for it. That is so where no instance fails
/// for lack of memory (Z.101: system).
pub fn one_report_of_all()
    ensures { OneReportOfAll }
{}
