//! All that the program does, over any desk.
ghost use Rattle.std.specs.Prelude.{◌≡◌, ◌⊎◌, false, [], ◌∷◌, List, map, string_bytes, MatchResult, OnErr};
ghost use Rattle.ac_words.specs.Asked.{texts_of};
ghost use Rattle.ac_status.specs.Lines.{status_line};
ghost use Rattle.ac3.specs.Codes.{open_fault_line, status_of_words};
ghost use Rattle.ac3.specs.Deeds.{Deed, Did, asked, said, unsaid, refused, report_file, told_report, is_dash, input_of, output_of, report_given, all_given, all_compared, means_one as is_one_of, is_shared as is_shared_by, AllGiven, Refused, Stopped};
ghost use Rattle.ac3.specs.Ends.{code_of_end, IfRan, IfOpenFault, IfNoWords, IfUnsaid, Leaves, world_of, RunsOn, StopsAt, HasNoWords, HasUnsaid};

use crate::desk::{Desk, Sharing};
use ac_app::{Failed, Names, NullSink, Sink, Source, Status, WordsFault, names, run};
use std::alloc::Global;

/// What was opened. There is no report where none is asked for.
#[derive(Drop)]
pub struct Things<S, O, N> {
    /// What is read.
    pub input: S,
    /// What takes the output.
    pub output: O,
    /// What takes the report.
    pub report: Option<N>,
}

/// How each two of the three stand to each other, as the desk says.
#[derive(Clone, Copy)]
pub struct Answers {
    /// The input and the output.
    pub input_output: Sharing,
    /// The input and the report.
    pub input_report: Sharing,
    /// The output and the report.
    pub output_report: Sharing,
}

/// How the program ended.
#[derive(Drop)]
pub enum Ended<S, O, N> {
    /// The command was run on these things.
    Ran(Status, Things<S, O, N>),
    /// Two of the three names mean one file, or a thing couldn't be opened or created.
    OpenFault,
    /// There were no words to follow.
    NoWords(WordsFault),
    /// The program's own line couldn't be printed.
    Unsaid,
}

impl<S, O, N> Ended<S, O, N> {
    /// The program's exit code.
    pub fn code(&self) -> u8
        ensures { result ≡ code_of_end self.now }
    {
        match self {
            Ended::Ran(status, _) => status.code(),
            Ended::OpenFault => 8,
            Ended::NoWords(WordsFault::Usage) => Status::Usage.code(),
            Ended::NoWords(WordsFault::NoMemory) => Status::NoMemory.code(),
            Ended::Unsaid => Status::WriteFault.code(),
        }
    }
}

/// The input: standard input for `-`.
fn open_input<D: Desk>(desk: &mut D, name: &str) -> Result<D::Input, Failed>
    ensures { Did (D.done desk.old) (D.done desk.new) (asked (input_of name.now) D.Input.left D.Input.faults result ∷ []) }
{
    if name == "-" {
        return Ok(desk.standard_input());
    }
    desk.open(name)
}

/// The output: standard output for `-`.
fn open_output<D: Desk>(desk: &mut D, name: &str) -> Result<D::Output, Failed>
    ensures { Did (D.done desk.old) (D.done desk.new) (asked (output_of name.now) D.Output.held D.Output.faults result ∷ []) }
{
    if name == "-" {
        return Ok(desk.standard_output());
    }
    desk.create_output(name)
}

/// The report: none for `-`.
#[tactic(auto, using(crate::proofs::Deeds::did_nothing))]
fn open_report<D: Desk>(desk: &mut D, name: &str) -> Result<Option<D::Report>, Failed>
    ensures told { MatchResult result
        (λ report. Did (D.done desk.old) (D.done desk.new)
        (report_given name.now (told_report D.Report.held D.Report.faults report)))
        (λ _. Did (D.done desk.old) (D.done desk.new) (refused (report_file name.now) ∷ [])) }
    ensures cause { OnErr result (is_dash name.now ≡ false) }
{
    if name == "-" {
        return Ok(None);
    }
    match desk.create_report(name) {
        Ok(report) => Ok(Some(report)),
        Err(fault) => Err(fault),
    }
}

/// The three things, in the order of their names. The first that fails is the last that is asked for.
fn open_all<D: Desk>(
    desk: &mut D,
    named: Names<'_>,
) -> Result<Things<D::Input, D::Output, D::Report>, Failed>
    ensures { MatchResult result
        (λ t. Did (D.done desk.old) (D.done desk.new) (all_given (texts_of named.entry)
        (world_of D.Input.left D.Input.faults D.Output.held D.Output.faults D.Report.held D.Report.faults t)))
        (λ _. (deeds : List Deed) × Refused (texts_of named.entry) deeds × Did (D.done desk.old) (D.done desk.new) deeds) }
{
    let Ok(input) = open_input(desk, named.from) else {
        return Err(Failed);
    };
    let Ok(output) = open_output(desk, named.to) else {
        return Err(Failed);
    };
    let Ok(report) = open_report(desk, named.report) else {
        return Err(Failed);
    };
    Ok(Things {
        input,
        output,
        report,
    })
}

/// Whether two words mean one file: as the desk says, or where they are the same name and no use of it is free. `-`
/// names no file.
fn means_one(one: &str, other: &str, sharing: Sharing) -> bool
    ensures { result ≡ is_one_of one.now other.now sharing }
{
    match sharing {
        Sharing::Free => false,
        Sharing::OneFile => true,
        Sharing::Apart => one != "-" && one == other,
    }
}

/// Asks the desk how each two of the three stand to each other.
#[tactic(auto, using(crate::proofs::Deeds::did_then))]
fn compare<D: Desk>(desk: &mut D, named: Names<'_>) -> Answers
    ensures { Did (D.done desk.old) (D.done desk.new) (all_compared (texts_of named.entry) result) }
{
    let input_output = desk.input_output(named.from, named.to);
    if named.report == "-" {
        return Answers {
            input_output,
            input_report: Sharing::Apart,
            output_report: Sharing::Apart,
        };
    }
    let input_report = desk.input_report(named.from, named.report);
    let output_report = desk.output_report(named.to, named.report);
    Answers {
        input_output,
        input_report,
        output_report,
    }
}

/// Whether two of the three names mean one file.
fn is_shared(named: Names<'_>, answers: Answers) -> bool
    ensures { result ≡ is_shared_by (texts_of named.entry) answers }
{
    let read = means_one(named.from, named.to, answers.input_output);
    let reported = means_one(named.from, named.report, answers.input_report);
    let written = means_one(named.to, named.report, answers.output_report);
    read || (named.report != "-" && (reported || written))
}

/// The three things in the order of their names, where no two of them are one file.
fn open_apart<D: Desk>(
    desk: &mut D,
    named: Names<'_>,
) -> Result<Things<D::Input, D::Output, D::Report>, Failed>
    ensures { (deeds : List Deed) × Did (D.done desk.old) (D.done desk.new) deeds × MatchResult result
        (λ t. AllGiven (texts_of named.entry)
        (world_of D.Input.left D.Input.faults D.Output.held D.Output.faults D.Report.held D.Report.faults t) deeds)
        (λ _. Stopped (texts_of named.entry) deeds) }
{
    let answers = compare(desk, named);
    if is_shared(named, answers) {
        return Err(Failed);
    }
    open_all(desk, named)
}

/// Runs the words on the things.
fn work<S: Source, O: Sink, N: Sink>(
    alloc: Global,
    words: &[String],
    things: &mut Things<S, O, N>,
) -> Status
    ensures { Leaves (map string_bytes words.now) result
        (world_of S.left S.faults O.held O.faults N.held N.faults things.old)
        (world_of S.left S.faults O.held O.faults N.held N.faults things.new) }
{
    let Things {
        input,
        output,
        report,
    } = things;
    match report {
        Some(report) => run(alloc, words, input, output, report),
        None => run(alloc, words, input, output, &mut NullSink),
    }
}

/// The end of a program that prints a line of its own: another one where it couldn't be printed.
fn end_with<D: Desk>(
    desk: &mut D,
    line: &str,
    end: Ended<D::Input, D::Output, D::Report>,
) -> Ended<D::Input, D::Output, D::Report>
    ensures { ((result ≡ end) × Did (D.done desk.old) (D.done desk.new) (said line.now ∷ []))
        ⊎ ((result ≡ Ended.Unsaid) × Did (D.done desk.old) (D.done desk.new) (unsaid line.now ∷ [])) }
{
    match desk.say(line) {
        Ok(()) => end,
        Err(_) => Ended::Unsaid,
    }
}

/// Ends where there are no words to follow, and says why.
pub fn refuse<D: Desk>(desk: &mut D, fault: WordsFault) -> Ended<D::Input, D::Output, D::Report>
    ensures { ((result ≡ Ended.NoWords fault)
        × Did (D.done desk.old) (D.done desk.new) (said (status_line (status_of_words fault)) ∷ []))
        ⊎ ((result ≡ Ended.Unsaid)
        × Did (D.done desk.old) (D.done desk.new) (unsaid (status_line (status_of_words fault)) ∷ [])) }
{
    let line = match fault {
        WordsFault::Usage => "status 1 usage\n",
        WordsFault::NoMemory => "status 9 no memory\n",
    };
    end_with(desk, line, Ended::NoWords(fault))
}

/// Opens the three named things in order, runs the words on them, and gives the things back; or says why not. Where
/// two of the names mean one file nothing is opened, created or emptied.
pub fn perform<D: Desk>(
    alloc: Global,
    words: &[String],
    desk: &mut D,
) -> Ended<D::Input, D::Output, D::Report>
    ensures ran { IfRan result (λ status t. RunsOn (map string_bytes words.now) status (D.done desk.old) (D.done desk.new)
        (world_of D.Input.left D.Input.faults D.Output.held D.Output.faults D.Report.held D.Report.faults t)) }
    ensures stopped { IfOpenFault result
        (StopsAt (map string_bytes words.now) (said open_fault_line) (D.done desk.old) (D.done desk.new)) }
    ensures no_words { IfNoWords result (λ fault. HasNoWords (map string_bytes words.now) fault
        (said (status_line (status_of_words fault))) (D.done desk.old) (D.done desk.new)) }
    ensures unsaid { IfUnsaid result (HasUnsaid (map string_bytes words.now) (D.done desk.old) (D.done desk.new)) }
{
    let named = match names(alloc, words) {
        Ok(named) => named,
        Err(fault) => return refuse(desk, fault),
    };
    let Ok(mut things) = open_apart(desk, named) else {
        return end_with(desk, "status 8 open fault\n", Ended::OpenFault);
    };
    let status = work(alloc, words, &mut things);
    Ended::Ran(status, things)
}
