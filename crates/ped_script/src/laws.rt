//! Laws of the table of commands. Each function here does nothing; its contract is the law.

ghost use Rattle.std.specs.Prelude.{◌≡◌, ◌↔◌, List, Some};
ghost use Rattle.ped_script.specs.Words.{Text, words_of};
ghost use Rattle.ped_script.specs.Rows.{AreCommand, command_of};
ghost use Rattle.ped_script.specs.CommandTexts.{command_text, IsWritable};
ghost use Rattle.ped_script.specs.declared.items.Command.{Command};

/// Words are one command at most, whatever row says so; and it is the command that is found, where there is one.
pub fn one_command()
    ensures one { (words : List Text) (a b : Command) → AreCommand words a → AreCommand words b → a ≡ b }
    ensures found { (words : List Text) (c : Command) → AreCommand words c ↔ (command_of words ≡ Some c) }
{}

/// The text of a command that a script can say in one line is read as that command.
pub fn rows_are_commands()
    ensures { (c : Command) → IsWritable c → command_of (words_of (command_text c)) ≡ Some c }
{}
