//! Commands, and the words that ask for them.
ghost use Rattle.std.specs.Prelude.{◌≡◌, map, Some, None, IfOk, IfSome, OnErr, option_map, string_bytes};
ghost use Rattle.command_words.specs.Commands.{is_plain, count_up_to, with_option, with_options, options_form, AreInRange, run_asked, check_asked, pair_asked, node_asked, sample_asked, audit_asked, asked, command_of, form_of, IsInRange};

use job_limits::{MOST_GATES, MOST_WORKERS};
use text_tokens::number;

/// What a command line asks for. The texts are those of its words.
#[derive(Clone, Copy, Debug, PartialEq, Eq)]
pub enum Command<'w> {
    /// `run DIR [--workers W] [--view GROUP]`: runs the job of the folder by W workers, 1 to 16, and tells what
    /// the group sees, where one is given.
    Run {
        dir: &'w str,
        workers: u32,
        view: Option<&'w str>,
    },
    /// `check DIR`: tells the structure of the job of the folder.
    Check {
        dir: &'w str,
    },
    /// `pair DIR --group GROUP`: runs the job of the folder, and again with the other inputs of the folder and the
    /// tapes that hide them from the group.
    Pair {
        dir: &'w str,
        group: &'w str,
    },
    /// `node DIR NAME`: runs the party of this name, by itself, in the job of the folder.
    Node {
        dir: &'w str,
        name: &'w str,
    },
    /// `sample N`: makes a job of N gates, 1 to 65,536, and runs it.
    Sample {
        count: u32,
    },
    /// `audit DIR`: says whether the written view of the folder is that of its job.
    Audit {
        dir: &'w str,
    },
}

/// The words ask for nothing that there is.
#[derive(Clone, Copy, Debug, PartialEq, Eq)]
pub struct Refused;

/// Whether a word isn't empty and doesn't begin with `-`.
fn is_plain(word: &str) -> bool
    ensures { result ≡ is_plain word.now }
{
    match word.as_bytes().first() {
        Some(first) => *first != b'-',
        None => false,
    }
}

/// The number that a word writes, from 1 to the most that there may be.
fn count_up_to(word: &str, most: u32) -> Option<u32>
    ensures { result ≡ count_up_to most word.now }
{
    match number(word) {
        Some(count) if 1 <= count && count <= u64::from(most) => Some(count as u32),
        _ => None,
    }
}

/// The options that a run is given.
#[derive(Clone, Copy)]
struct RunOptions<'w> {
    workers: Option<u32>,
    view: Option<&'w str>,
}

impl<'w> RunOptions<'w> {
    /// These options and one more, which isn't among them.
    fn with(self, option: &str, word: &'w str) -> Option<RunOptions<'w>>
        ensures form { option_map options_form result ≡ with_option (options_form self.entry) option.now word.now }
        ensures range { AreInRange self.entry → IfSome result AreInRange }
    {
        if option == "--workers" && self.workers.is_none() {
            let count = count_up_to(word, MOST_WORKERS)?;
            Some(RunOptions {
                workers: Some(count),
                view: self.view,
            })
        } else if option == "--view" && self.view.is_none() && is_plain(word) {
            Some(RunOptions {
                workers: self.workers,
                view: Some(word),
            })
        } else {
            None
        }
    }
}

/// The options that these words give.
fn run_options<'w>(words: &'w [String]) -> Option<RunOptions<'w>>
    ensures form { option_map options_form result
        ≡ with_options (record { workers = None; view = None }) (map string_bytes words.now) }
    ensures range { IfSome result AreInRange }
{
    let mut options = RunOptions {
        workers: None,
        view: None,
    };
    let mut rest = words;
    while rest.len() >= 2 {
        options = options.with(rest[0].as_str(), rest[1].as_str())?;
        rest = &rest[2..];
    }
    if rest.is_empty() { Some(options) } else { None }
}

/// A run of a folder, after which these words stand.
fn run_asked<'w>(dir: &'w str, words: &'w [String]) -> Option<Command<'w>>
    ensures form { option_map form_of result ≡ run_asked dir.now (map string_bytes words.now) }
    ensures range { IfSome result IsInRange }
{
    let options = run_options(words)?;
    Some(Command::Run {
        dir,
        workers: options.workers.unwrap_or(1),
        view: options.view,
    })
}

/// A check of a folder, after which these words stand.
fn check_asked<'w>(dir: &'w str, options: &[String]) -> Option<Command<'w>>
    ensures form { option_map form_of result ≡ check_asked dir.now (map string_bytes options.now) }
    ensures range { IfSome result IsInRange }
{
    if options.is_empty() {
        Some(Command::Check { dir })
    } else {
        None
    }
}

/// A pair of runs of a folder, after which these words stand.
fn pair_asked<'w>(dir: &'w str, options: &'w [String]) -> Option<Command<'w>>
    ensures form { option_map form_of result ≡ pair_asked dir.now (map string_bytes options.now) }
    ensures range { IfSome result IsInRange }
{
    if options.len() != 2 {
        return None;
    }
    let group = options[1].as_str();
    if options[0].as_str() == "--group" && is_plain(group) {
        Some(Command::Pair { dir, group })
    } else {
        None
    }
}

/// A node of a folder, after which these words stand.
fn node_asked<'w>(dir: &'w str, options: &'w [String]) -> Option<Command<'w>>
    ensures form { option_map form_of result ≡ node_asked dir.now (map string_bytes options.now) }
    ensures range { IfSome result IsInRange }
{
    if options.len() != 1 {
        return None;
    }
    let name = options[0].as_str();
    if is_plain(name) {
        Some(Command::Node { dir, name })
    } else {
        None
    }
}

/// A sample of as many gates as a word tells, after which these words stand.
fn sample_asked<'w>(word: &str, options: &[String]) -> Option<Command<'w>>
    ensures form { option_map form_of result ≡ sample_asked word.now (map string_bytes options.now) }
    ensures range { IfSome result IsInRange }
{
    if !options.is_empty() {
        return None;
    }
    let count = count_up_to(word, MOST_GATES as u32)?;
    Some(Command::Sample { count })
}

/// An audit of a folder, after which these words stand.
fn audit_asked<'w>(dir: &'w str, options: &[String]) -> Option<Command<'w>>
    ensures form { option_map form_of result ≡ audit_asked dir.now (map string_bytes options.now) }
    ensures range { IfSome result IsInRange }
{
    if !options.is_empty() {
        return None;
    }
    Some(Command::Audit { dir })
}

/// What a verb asks for in a folder, after which these words stand.
fn asked<'w>(verb: &str, dir: &'w str, options: &'w [String]) -> Option<Command<'w>>
    ensures form { option_map form_of result ≡ asked verb.now dir.now (map string_bytes options.now) }
    ensures range { IfSome result IsInRange }
{
    if verb == "run" {
        run_asked(dir, options)
    } else if verb == "check" {
        check_asked(dir, options)
    } else if verb == "pair" {
        pair_asked(dir, options)
    } else if verb == "node" {
        node_asked(dir, options)
    } else if verb == "sample" {
        sample_asked(dir, options)
    } else if verb == "audit" {
        audit_asked(dir, options)
    } else {
        None
    }
}

fn command_of(words: &[String]) -> Option<Command<'_>>
    ensures form { option_map form_of result ≡ command_of (map string_bytes words.now) }
    ensures range { IfSome result IsInRange }
{
    if words.len() < 3 {
        return None;
    }
    let dir = words[2].as_str();
    if is_plain(dir) {
        asked(words[1].as_str(), dir, &words[3..])
    } else {
        None
    }
}

/// The command of these words, of which the first is the program's name.
///
/// # Errors
///
/// `Refused` where the words, after the first, are none of the forms `run DIR [--workers W] [--view GROUP]`,
/// `check DIR`, `pair DIR --group GROUP`, `node DIR NAME`, `sample N` and `audit DIR`. The two options of `run`
/// stand in either order, each at most once. DIR, GROUP and NAME aren't empty and don't begin with `-`. W is one or
/// more digits with a value from 1 to 16, and N with one from 1 to 65,536.
pub fn read_command(words: &[String]) -> Result<Command<'_>, Refused>
    ensures taken { IfOk result (λ command. command_of (map string_bytes words.now) ≡ Some (form_of command)) }
    ensures range { IfOk result IsInRange }
    ensures refused { OnErr result (command_of (map string_bytes words.now) ≡ None) }
{
    match command_of(words) {
        Some(command) => Ok(command),
        None => Err(Refused),
    }
}
