//! The arguments of the command line.

ghost use Rattle.std.specs.Prelude.{◌≡◌, None, Some, map, MatchOption, IfSome, option_map, true};
ghost use Rattle.std.specs.String.{string_bytes};
ghost use Rattle.command_line.specs.Arguments as named;

use crate::numerals::{count_of, feeders_of, number_of, places_of, workers_of};

/// The files that a run is made from, by the names that the arguments give them.
#[derive(Clone, Copy, Debug, PartialEq, Eq)]
pub struct Inputs<'a> {
    pub rules: &'a str,
    pub script: &'a str,
    pub capture: &'a str,
}

/// The files that `play` reads and writes.
#[derive(Clone, Copy, Debug, PartialEq, Eq)]
pub struct Play<'a> {
    pub inputs: Inputs<'a>,
    pub output: &'a str,
    pub ledger: &'a str,
    pub journal: &'a str,
}

/// How many places, feeders and workers a run with threads has.
#[derive(Clone, Copy, Debug, PartialEq, Eq)]
pub struct RunSize {
    /// How many places the queues have: 1 to 64.
    pub places: u8,
    /// How many feeders share out the frames: 1 to 16.
    pub feeders: u32,
    /// How many workers are behind each port: 1 to 16. One is no pool.
    pub workers: u32,
}

/// The files that `live` reads and writes, and the size of its run.
#[derive(Clone, Copy, Debug, PartialEq, Eq)]
pub struct Live<'a> {
    pub files: Play<'a>,
    pub size: RunSize,
}

/// The word of feeders or workers that are absent.
const ONE: &str = "1";

/// The files that `list` reads and writes.
#[derive(Clone, Copy, Debug, PartialEq, Eq)]
pub struct Listing<'a> {
    pub inputs: Inputs<'a>,
    pub output: &'a str,
}

/// What generated inputs are made of.
#[derive(Clone, Copy, Debug, PartialEq, Eq)]
pub struct Sample {
    /// The number that seeds the generator.
    pub number: u64,
    /// How many records: 1 to 200,000.
    pub count: u32,
}

/// What `gen` makes, and the files that it writes.
#[derive(Clone, Copy, Debug, PartialEq, Eq)]
pub struct Generation<'a> {
    pub sample: Sample,
    pub files: Inputs<'a>,
}

/// The files that `migrate` reads and writes.
#[derive(Clone, Copy, Debug, PartialEq, Eq)]
pub struct Migration<'a> {
    pub source: &'a str,
    pub target: &'a str,
}

/// The files that `audit` reads.
#[derive(Clone, Copy, Debug, PartialEq, Eq)]
pub struct Audit<'a> {
    pub inputs: Inputs<'a>,
    pub journal: &'a str,
}

/// A command, with the names of its files and its numbers.
#[derive(Clone, Copy, Debug, PartialEq, Eq)]
pub enum Command<'a> {
    Play { files: Play<'a> },
    List { files: Listing<'a> },
    Gen { files: Generation<'a> },
    Trial { sample: Sample },
    Migrate { files: Migration<'a> },
    Audit { files: Audit<'a> },
}

/// The command that the arguments are; `None` where they are none.
pub fn command_of(words: &[String]) -> Option<Command<'_>>
    ensures call { MatchOption result (named.call (map string_bytes words.now) ≡ None)
        (λ c. named.call (map string_bytes words.now) ≡ Some (named.call_of c)) }
    ensures allowed { IfSome result (λ c. named.IsAllowed (named.call_of c)) }
{
    if let Some(files) = play_of(words) {
        return Some(Command::Play { files });
    }
    if let Some(files) = list_of(words) {
        return Some(Command::List { files });
    }
    if let Some(files) = gen_of(words) {
        return Some(Command::Gen { files });
    }
    if let Some(sample) = trial_of(words) {
        return Some(Command::Trial { sample });
    }
    if let Some(files) = migrate_of(words) {
        return Some(Command::Migrate { files });
    }
    let files = audit_of(words)?;
    Some(Command::Audit { files })
}

/// The files and the size of a `live` command; `None` where the arguments aren't one.
pub fn live_of(words: &[String]) -> Option<Live<'_>>
    ensures call { MatchOption result (named.live_call (map string_bytes words.now) ≡ None)
        (λ l. named.live_call (map string_bytes words.now)
        ≡ Some (named.Lives (named.live_files_of l))) }
    ensures allowed { IfSome result (λ l. named.IsLiveAllowed (named.live_files_of l)) }
{
    let (verb, words) = words.split_first()?;
    if verb.as_str() == "live" {
        live_files_in(words)
    } else {
        None
    }
}

/// The files of a run and its size that these words are.
fn live_files_in(words: &[String]) -> Option<Live<'_>>
    ensures call { MatchOption result (named.live_files_in (map string_bytes words.now) ≡ None)
        (λ l. named.live_files_in (map string_bytes words.now) ≡ Some (named.live_files_of l)) }
    ensures allowed { IfSome result (λ l. named.IsLiveAllowed (named.live_files_of l)) }
{
    let [rules, script, capture, output, ledger, journal, size @ ..] = words else {
        return None;
    };
    sized(
        run_files_of(rules, script, capture, output, ledger, journal),
        size,
    )
}

/// The files of a run, if they are some, with the size that words give.
fn sized<'a>(files: Option<Play<'a>>, words: &[String]) -> Option<Live<'a>>
    ensures call { MatchOption result
        (named.sized (option_map named.files_of files.entry) (map string_bytes words.now) ≡ None)
        (λ l. named.sized (option_map named.files_of files.entry) (map string_bytes words.now)
        ≡ Some (named.live_files_of l)) }
    ensures allowed { IfSome files.entry (λ p. named.are_outputs_apart (named.files_of p) ≡ true) →
        IfSome result (λ l. named.IsLiveAllowed (named.live_files_of l)) }
{
    let files = files?;
    let size = size_in(words)?;
    Some(Live { files, size })
}

/// The size of a run that the words behind its files give. Those of the feeders and of the workers
/// may be absent.
fn size_in(words: &[String]) -> Option<RunSize>
    ensures size { MatchOption result (named.size_in (map string_bytes words.now) ≡ None)
        (λ z. named.size_in (map string_bytes words.now) ≡ Some (named.size_of z)) }
    ensures allowed { IfSome result (λ z. named.IsSizeAllowed (named.size_of z)) }
{
    match words {
        [places] => size_of(places.as_str(), ONE, ONE),
        [places, feeders] => size_of(places.as_str(), feeders.as_str(), ONE),
        [places, feeders, workers] => {
            size_of(places.as_str(), feeders.as_str(), workers.as_str())
        }
        _ => None,
    }
}

/// The size of a run that three words give.
fn size_of(places: &str, feeders: &str, workers: &str) -> Option<RunSize>
    ensures size { MatchOption result
        (named.size_of_words places.now feeders.now workers.now ≡ None)
        (λ z. named.size_of_words places.now feeders.now workers.now
        ≡ Some (named.size_of z)) }
    ensures allowed { IfSome result (λ z. named.IsSizeAllowed (named.size_of z)) }
{
    let places = places_of(places)?;
    let feeders = feeders_of(feeders)?;
    let workers = workers_of(workers)?;
    Some(RunSize {
        places,
        feeders,
        workers,
    })
}

/// The files of a `play` command; `None` where the arguments aren't one.
fn play_of(words: &[String]) -> Option<Play<'_>>
    ensures files { MatchOption result (named.play_of (map string_bytes words.now) ≡ None)
        (λ p. named.play_of (map string_bytes words.now) ≡ Some (named.files_of p)) }
    ensures apart { IfSome result (λ p. named.are_outputs_apart (named.files_of p) ≡ true) }
{
    let [verb, rules, script, capture, output, ledger, journal] = words else {
        return None;
    };
    if verb.as_str() == "play" {
        run_files_of(rules, script, capture, output, ledger, journal)
    } else {
        None
    }
}

/// The inputs that these words name.
fn inputs_at<'a>(rules: &'a String, script: &'a String, capture: &'a String) -> Inputs<'a>
    ensures { named.inputs_of result ≡ named.inputs_at (string_bytes rules.now)
        (string_bytes script.now) (string_bytes capture.now) }
{
    Inputs {
        rules: rules.as_str(),
        script: script.as_str(),
        capture: capture.as_str(),
    }
}

/// The files of a run that these words name, where each of them may.
fn run_files_of<'a>(
    rules: &'a String,
    script: &'a String,
    capture: &'a String,
    output: &'a String,
    ledger: &'a String,
    journal: &'a String,
) -> Option<Play<'a>>
    ensures files { MatchOption result
        (named.run_files_of (string_bytes rules.now) (string_bytes script.now)
        (string_bytes capture.now) (string_bytes output.now) (string_bytes ledger.now)
        (string_bytes journal.now) ≡ None)
        (λ p. named.run_files_of (string_bytes rules.now) (string_bytes script.now)
        (string_bytes capture.now) (string_bytes output.now) (string_bytes ledger.now)
        (string_bytes journal.now) ≡ Some (named.files_of p)) }
    ensures apart { IfSome result (λ p. named.are_outputs_apart (named.files_of p) ≡ true) }
{
    let files = Play {
        inputs: inputs_at(rules, script, capture),
        output: output.as_str(),
        ledger: ledger.as_str(),
        journal: journal.as_str(),
    };
    if are_files(&files) && are_apart(files.output, files.ledger, files.journal) {
        Some(files)
    } else {
        None
    }
}

/// The files of a `list` command.
fn list_of(words: &[String]) -> Option<Listing<'_>>
    ensures { MatchOption result (named.list_of (map string_bytes words.now) ≡ None)
        (λ l. named.list_of (map string_bytes words.now) ≡ Some (named.list_files_of l)) }
{
    let [verb, rules, script, capture, output] = words else {
        return None;
    };
    let listing = Listing {
        inputs: inputs_at(rules, script, capture),
        output: output.as_str(),
    };
    if verb.as_str() == "list" && are_inputs(&listing.inputs) && is_file(listing.output) {
        Some(listing)
    } else {
        None
    }
}

/// The numbers and files of a `gen` command.
fn gen_of(words: &[String]) -> Option<Generation<'_>>
    ensures files { MatchOption result (named.gen_of (map string_bytes words.now) ≡ None)
        (λ g. named.gen_of (map string_bytes words.now) ≡ Some (named.gen_files_of g)) }
    ensures allowed { IfSome result (λ g. named.IsGenAllowed (named.gen_files_of g)) }
{
    let [verb, number, count, rules, script, capture] = words else {
        return None;
    };
    let files = inputs_at(rules, script, capture);
    if verb.as_str() == "gen"
        && are_inputs(&files)
        && are_apart(files.rules, files.script, files.capture)
    {
        let sample = sample_of(number.as_str(), count.as_str())?;
        Some(Generation { sample, files })
    } else {
        None
    }
}

/// The numbers of a `trial` command.
fn trial_of(words: &[String]) -> Option<Sample>
    ensures sample { MatchOption result (named.trial_of (map string_bytes words.now) ≡ None)
        (λ s. named.trial_of (map string_bytes words.now) ≡ Some (named.sample_of s)) }
    ensures allowed { IfSome result (λ s. named.IsSample (named.sample_of s)) }
{
    let [verb, number, count] = words else {
        return None;
    };
    if verb.as_str() == "trial" {
        sample_of(number.as_str(), count.as_str())
    } else {
        None
    }
}

/// The files of a `migrate` command. They may be one file.
fn migrate_of(words: &[String]) -> Option<Migration<'_>>
    ensures { MatchOption result (named.migrate_of (map string_bytes words.now) ≡ None)
        (λ m. named.migrate_of (map string_bytes words.now) ≡ Some (named.migrate_files_of m)) }
{
    let [verb, source, target] = words else {
        return None;
    };
    let files = Migration {
        source: source.as_str(),
        target: target.as_str(),
    };
    if verb.as_str() == "migrate" && is_file(files.source) && is_file(files.target) {
        Some(files)
    } else {
        None
    }
}

/// The files of an `audit` command.
fn audit_of(words: &[String]) -> Option<Audit<'_>>
    ensures { MatchOption result (named.audit_of (map string_bytes words.now) ≡ None)
        (λ a. named.audit_of (map string_bytes words.now) ≡ Some (named.audit_files_of a)) }
{
    let [verb, rules, script, capture, journal] = words else {
        return None;
    };
    let audit = Audit {
        inputs: inputs_at(rules, script, capture),
        journal: journal.as_str(),
    };
    if verb.as_str() == "audit" && are_inputs(&audit.inputs) && is_file(audit.journal) {
        Some(audit)
    } else {
        None
    }
}

/// The numbers that two words give.
fn sample_of(number: &str, count: &str) -> Option<Sample>
    ensures sample { MatchOption result (named.sample_of_words number.now count.now ≡ None)
        (λ s. named.sample_of_words number.now count.now ≡ Some (named.sample_of s)) }
    ensures allowed { IfSome result (λ s. named.IsSample (named.sample_of s)) }
{
    let number = number_of(number)?;
    let count = count_of(count)?;
    Some(Sample { number, count })
}

/// Whether each argument names a file.
fn are_files(play: &Play<'_>) -> bool
    ensures { result ≡ named.are_files (named.files_of play.now) }
{
    are_inputs(&play.inputs)
        && is_file(play.output)
        && is_file(play.ledger)
        && is_file(play.journal)
}

fn are_inputs(inputs: &Inputs<'_>) -> bool
    ensures { result ≡ named.are_inputs (named.inputs_of inputs.now) }
{
    is_file(inputs.rules) && is_file(inputs.script) && is_file(inputs.capture)
}

/// Whether none of three names is another.
fn are_apart(first: &str, second: &str, third: &str) -> bool
    ensures { result ≡ named.are_apart first.now second.now third.now }
{
    first != second && first != third && second != third
}

/// Whether an argument names a file: it isn't empty, and isn't that of standard output.
fn is_file(word: &str) -> bool
    ensures { result ≡ named.is_file word.now }
{
    !word.is_empty() && word != "-"
}
