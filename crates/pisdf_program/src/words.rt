ghost use Rattle.std.specs.Prelude.{◌≡◌, ◌≤◌, IfSome, map, option_map, string_bytes};
ghost use Rattle.pisdf_program.specs.Words.{command_of, run_row, plain_row, unfold_row, job_row, journal_row, audit_row, soak_row, upgrade_row, iterations_of, workers_of, times_of, generated_of, greatest_number, most_times, most_workers};
ghost use Rattle.pisdf_program.specs.WordsSeen.{IsWithin, seen};

use crate::limits;
use crate::number::number_within;
use job_report::JobText;

/// What the words ask for.
#[derive(Clone, Copy)]
pub(crate) enum Command<'w> {
    Run {
        graph: &'w str,
        tokens: &'w str,
        iterations: u32,
        workers: u32,
    },
    Plain {
        graph: &'w str,
        tokens: &'w str,
        iterations: u32,
    },
    /// To run so many iterations as one, where that can be.
    Unfold {
        times: u32,
        graph: &'w str,
        tokens: &'w str,
        iterations: u32,
        workers: u32,
    },
    /// To tell of the compiled job of the top graph.
    Job {
        what: JobText,
        graph: &'w str,
        tokens: &'w str,
        workers: u32,
    },
    Journal {
        graph: &'w str,
        tokens: &'w str,
        iterations: u32,
        workers: u32,
    },
    /// To judge a journal that lies in a file.
    Audit {
        graph: &'w str,
        tokens: &'w str,
        iterations: u32,
        workers: u32,
        journal: &'w str,
    },
    Soak {
        number: u32,
        workers: u32,
    },
    Upgrade {
        graph: &'w str,
    },
}

fn iterations_of(word: &str) -> Option<u32>
    ensures { result ≡ iterations_of word.now }
{
    number_within(limits::ITERATION_DIGITS, 0, limits::ITERATIONS, word)
}

fn workers_of(word: &str) -> Option<u32>
    ensures number { result ≡ workers_of word.now }
    ensures some { IfSome result (λ n. 1 ≤ n) }
    ensures few { IfSome result (λ n. n ≤ most_workers) }
{
    number_within(limits::WORKER_DIGITS, 1, limits::WORKERS, word)
}

fn times_of(word: &str) -> Option<u32>
    ensures number { result ≡ times_of word.now }
    ensures some { IfSome result (λ n. 1 ≤ n) }
    ensures few { IfSome result (λ n. n ≤ most_times) }
{
    number_within(limits::TIMES_DIGITS, 1, limits::TIMES, word)
}

fn generated_of(word: &str) -> Option<u32>
    ensures number { result ≡ generated_of word.now }
    ensures few { IfSome result (λ n. n ≤ greatest_number) }
{
    number_within(limits::GENERATED_DIGITS, 0, limits::GENERATED, word)
}

fn run_row(words: &[String]) -> Option<Command<'_>>
    ensures row { option_map seen result ≡ run_row (map string_bytes words.now) }
    ensures within { IfSome result IsWithin }
{
    match words {
        [graph, tokens, iterations, workers] => Some(Command::Run {
            graph: graph.as_str(),
            tokens: tokens.as_str(),
            iterations: iterations_of(iterations.as_str())?,
            workers: workers_of(workers.as_str())?,
        }),
        _ => None,
    }
}

fn plain_row(words: &[String]) -> Option<Command<'_>>
    ensures row { option_map seen result ≡ plain_row (map string_bytes words.now) }
    ensures within { IfSome result IsWithin }
{
    match words {
        [graph, tokens, iterations] => Some(Command::Plain {
            graph: graph.as_str(),
            tokens: tokens.as_str(),
            iterations: iterations_of(iterations.as_str())?,
        }),
        _ => None,
    }
}

fn unfold_row(words: &[String]) -> Option<Command<'_>>
    ensures row { option_map seen result ≡ unfold_row (map string_bytes words.now) }
    ensures within { IfSome result IsWithin }
{
    match words {
        [times, graph, tokens, iterations, workers] => Some(Command::Unfold {
            times: times_of(times.as_str())?,
            graph: graph.as_str(),
            tokens: tokens.as_str(),
            iterations: iterations_of(iterations.as_str())?,
            workers: workers_of(workers.as_str())?,
        }),
        _ => None,
    }
}

fn job_row(what: JobText, words: &[String]) -> Option<Command<'_>>
    ensures row { option_map seen result ≡ job_row what (map string_bytes words.now) }
    ensures within { IfSome result IsWithin }
{
    match words {
        [graph, tokens, workers] => Some(Command::Job {
            what,
            graph: graph.as_str(),
            tokens: tokens.as_str(),
            workers: workers_of(workers.as_str())?,
        }),
        _ => None,
    }
}

fn journal_row(words: &[String]) -> Option<Command<'_>>
    ensures row { option_map seen result ≡ journal_row (map string_bytes words.now) }
    ensures within { IfSome result IsWithin }
{
    match words {
        [graph, tokens, iterations, workers] => Some(Command::Journal {
            graph: graph.as_str(),
            tokens: tokens.as_str(),
            iterations: iterations_of(iterations.as_str())?,
            workers: workers_of(workers.as_str())?,
        }),
        _ => None,
    }
}

fn audit_row(words: &[String]) -> Option<Command<'_>>
    ensures row { option_map seen result ≡ audit_row (map string_bytes words.now) }
    ensures within { IfSome result IsWithin }
{
    match words {
        [graph, tokens, iterations, workers, journal] => Some(Command::Audit {
            graph: graph.as_str(),
            tokens: tokens.as_str(),
            iterations: iterations_of(iterations.as_str())?,
            workers: workers_of(workers.as_str())?,
            journal: journal.as_str(),
        }),
        _ => None,
    }
}

fn soak_row(words: &[String]) -> Option<Command<'_>>
    ensures row { option_map seen result ≡ soak_row (map string_bytes words.now) }
    ensures within { IfSome result IsWithin }
{
    match words {
        [number, workers] => Some(Command::Soak {
            number: generated_of(number.as_str())?,
            workers: workers_of(workers.as_str())?,
        }),
        _ => None,
    }
}

fn upgrade_row(words: &[String]) -> Option<Command<'_>>
    ensures row { option_map seen result ≡ upgrade_row (map string_bytes words.now) }
    ensures within { IfSome result IsWithin }
{
    match words {
        [graph] => Some(Command::Upgrade {
            graph: graph.as_str(),
        }),
        _ => None,
    }
}

/// What the words ask for, where some row of the table of commands reads them.
pub(crate) fn read_words(words: &[String]) -> Option<Command<'_>>
    ensures command { option_map seen result ≡ command_of (map string_bytes words.now) }
    ensures within { IfSome result IsWithin }
{
    let (name, rest) = words.split_first()?;
    match name.as_str() {
        "run" => run_row(rest),
        "plain" => plain_row(rest),
        "unfold" => unfold_row(rest),
        "plan" => job_row(JobText::Plan, rest),
        "schedule" => job_row(JobText::Schedule, rest),
        "memory" => job_row(JobText::Memory, rest),
        "journal" => journal_row(rest),
        "audit" => audit_row(rest),
        "soak" => soak_row(rest),
        "upgrade" => upgrade_row(rest),
        _ => None,
    }
}
