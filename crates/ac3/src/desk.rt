ghost use Rattle.std.specs.Prelude.{[], ◌∷◌, List, Option};
ghost use Rattle.ac_world.specs.World.{told};
ghost use Rattle.ac3.specs.Deeds.{Deed, Did, asked, given, compared, printed, standard_input, file_to_read, standard_output, output_file, report_file, input_of, output_of};

use ac_app::{Failed, Sink, Source};

/// How two things stand to each other, as far as the system tells.
#[derive(Clone, Copy, Debug, PartialEq, Eq)]
pub enum Sharing {
    /// One of them is a terminal, a pipe or a device such as the null device, which any number may use at once.
    Free,
    /// They are one file.
    OneFile,
    /// They aren't known to be one file.
    Apart,
}

/// Where the program asks for what it reads and writes, and prints its own lines. It creates and empties nothing
/// that it isn't asked to.
pub trait Desk {
    /// What is read.
    type Input: Source + Drop;

    /// What takes the output.
    type Output: Sink + Drop;

    /// What takes the report.
    type Report: Sink + Drop;

    /// What was asked for and printed so far, where it is told. A desk may cease to tell.
    ghost done: { Self → Option (List Deed) };

    /// How the input and the output of these names stand to each other; `-` stands for the standard streams.
    fn input_output(&mut self, from: &str, to: &str) -> Sharing
        ensures { Did (done self.old) (done self.new) (compared (input_of from.now) (output_of to.now) result ∷ []) };

    /// How the input of this name and the report's file stand to each other.
    fn input_report(&mut self, from: &str, report: &str) -> Sharing
        ensures { Did (done self.old) (done self.new) (compared (input_of from.now) (report_file report.now) result ∷ []) };

    /// How the output of this name and the report's file stand to each other.
    fn output_report(&mut self, to: &str, report: &str) -> Sharing
        ensures { Did (done self.old) (done self.new) (compared (output_of to.now) (report_file report.now) result ∷ []) };

    /// Standard input.
    fn standard_input(&mut self) -> Self::Input
        ensures { Did (done self.old) (done self.new)
            (given standard_input (told Self.Input.left Self.Input.faults result) ∷ []) };

    /// Opens a file that is there.
    ///
    /// # Errors
    ///
    /// `Failed` where it couldn't be opened.
    fn open(&mut self, name: &str) -> Result<Self::Input, Failed>
        ensures { Did (done self.old) (done self.new)
            (asked (file_to_read name.now) Self.Input.left Self.Input.faults result ∷ []) };

    /// Standard output.
    fn standard_output(&mut self) -> Self::Output
        ensures { Did (done self.old) (done self.new)
            (given standard_output (told Self.Output.held Self.Output.faults result) ∷ []) };

    /// Creates the output's file, or empties it.
    ///
    /// # Errors
    ///
    /// `Failed` where it couldn't be created.
    fn create_output(&mut self, name: &str) -> Result<Self::Output, Failed>
        ensures { Did (done self.old) (done self.new)
            (asked (output_file name.now) Self.Output.held Self.Output.faults result ∷ []) };

    /// Creates the report's file, or empties it.
    ///
    /// # Errors
    ///
    /// `Failed` where it couldn't be created.
    fn create_report(&mut self, name: &str) -> Result<Self::Report, Failed>
        ensures { Did (done self.old) (done self.new)
            (asked (report_file name.now) Self.Report.held Self.Report.faults result ∷ []) };

    /// Prints a text on standard output.
    ///
    /// # Errors
    ///
    /// `Failed` where it couldn't be printed whole.
    fn say(&mut self, text: &str) -> Result<(), Failed>
        ensures { Did (done self.old) (done self.new) (printed text.now result ∷ []) };
}
