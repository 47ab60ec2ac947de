//! How the lines of a report are shared among threads.

ghost use Rattle.std.specs.Prelude.{◌≡◌, ◌+◌, ◌-◌, ◌/◌, ◌^◌, ◌<◌, min, IfNone, IfSome};
ghost use Rattle.std.specs.List.{sum_by};
ghost use Rattle.sdl_report.specs.Pieces.{line_count};

use run_record::Record;

/// So many lines at least are worth a thread.
const LEAST_LINES: usize = 1_024;

/// So many lines at most a thread makes before they go out: some 1.6 MB of text. With fewer, the start of the threads
/// would be too much of a round.
const MOST_LINES: usize = 65_536;

/// How many threads make a report's text, and of how many lines at once each.
#[derive(Drop)]
pub struct Shares {
    pub threads: usize,
    pub lines: usize,
}

/// How so many lines are shared: among at most so many workers, with 1,024 lines and more for each, and in pieces of at
/// most 65,536 lines. None if one thread is enough.
pub fn shares_of(workers: usize, lines: usize) -> Option<Shares>
    ensures threads { IfSome result (λ shares. shares.threads ≡ min workers (lines / 1024)) }
    ensures several { IfSome result (λ shares. 1 < shares.threads) }
    ensures lines { IfSome result (λ shares. shares.lines ≡ min (lines / shares.threads) 65535 + 1) }
    ensures one { IfNone result (min workers (lines / 1024) < 2) }
{
    let threads = workers.min(lines / LEAST_LINES);
    if threads < 2 {
        return None;
    }
    Some(Shares {
        threads,
        lines: (lines / threads).min(MOST_LINES - 1) + 1,
    })
}

/// How many lines the records have, or the greatest number if there are more.
pub fn count_of_lines(records: &[Record]) -> usize
    ensures { result ≡ min (sum_by line_count records.now) (2 ^ 64 - 1) }
{
    let mut lines: usize = 0;
    for record in records {
        lines = lines.saturating_add(lines_of(record));
    }
    lines
}

/// How many lines a record has: its heading, and one for each event. The greatest number if there are more.
fn lines_of(record: &Record) -> usize
    ensures { result ≡ min (line_count «record».now) (2 ^ 64 - 1) }
{
    record.len().saturating_add(1)
}
