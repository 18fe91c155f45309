//! What a call may ask for.

/// What the words of a call ask for. Names are those of files.
#[derive(Clone, Copy, PartialEq, Eq)]
pub enum Request<'a> {
    /// To show a program.
    Show {
        /// The program's file.
        program: &'a str,
    },
    /// To run a script of commands on a program.
    Session {
        /// The program's file.
        program: &'a str,
        /// The script's file.
        script: &'a str,
        /// The file of the data that the program reads; without one they are empty.
        data: Option<&'a str>,
    },
    /// To make a program and a script of this size, 1 to 300, and to run them.
    Generate(u32),
}
