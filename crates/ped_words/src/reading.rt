//! The words of a call, read by the mode's command.

ghost use Rattle.std.specs.Prelude.{◌≡◌, None, Some, codes, map, string_bytes, IfOk};
ghost use Rattle.ped_base.specs.Lists.{is_same_text};
ghost use Rattle.ped_words.specs.Requests.{request_of, show_request, session_request, generate_request};
ghost use Rattle.ped_words.specs.Views.{request_view, Answers, IsSized};

use crate::commands::{generate_command, session_command, show_command};
use crate::errors::WordsError;
use crate::requests::Request;
use std::alloc::Global;

/// What the words ask for, which are those after the program's name. The first is the mode, and the mode's
/// command reads those after it. `Bad` comes exactly where there is no word, the first is no mode, or the
/// mode's command doesn't take the rest.
pub fn request<'a>(alloc: Global, words: &'a [String]) -> Result<Request<'a>, WordsError>
    ensures ok { IfOk result (λ r. request_of (map string_bytes words.now) ≡ Some (request_view r)) }
    ensures size { IfOk result IsSized }
    ensures bad { result ≡ Err WordsError.Bad → request_of (map string_bytes words.now) ≡ None }
{
    let Some(mode) = words.first() else {
        return Err(WordsError::Bad);
    };
    if is_mode(mode, b"show") {
        return show(alloc, words);
    }
    if is_mode(mode, b"session") {
        return session(alloc, words);
    }
    if is_mode(mode, b"generate") {
        return generate(alloc, words);
    }
    Err(WordsError::Bad)
}

fn is_mode(word: &String, mode: &[u8]) -> bool
    ensures { result ≡ is_same_text (string_bytes word.now) mode.now }
{
    word.as_bytes() == mode
}

/// `show PROGRAM`
fn show<'a>(alloc: Global, words: &'a [String]) -> Result<Request<'a>, WordsError>
    ensures { Answers (show_request (map string_bytes words.now)) result }
{
    let matches = show_command(alloc)?.try_get_matches_from(words)?;
    Ok(Request::Show {
        program: matches.get_str("program").unwrap(),
    })
}

/// `session PROGRAM SCRIPT [--data FILE]`
fn session<'a>(alloc: Global, words: &'a [String]) -> Result<Request<'a>, WordsError>
    ensures { Answers (session_request (map string_bytes words.now)) result }
{
    let matches = session_command(alloc)?.try_get_matches_from(words)?;
    Ok(Request::Session {
        program: matches.get_str("program").unwrap(),
        script: matches.get_str("script").unwrap(),
        data: matches.get_str("data"),
    })
}

/// `generate N`
fn generate<'a>(alloc: Global, words: &'a [String]) -> Result<Request<'a>, WordsError>
    ensures answer { Answers (generate_request (map string_bytes words.now)) result }
    ensures size { IfOk result IsSized }
{
    let matches = generate_command(alloc)?.try_get_matches_from(words)?;
    Ok(Request::Generate(matches.get_one::<u32>("number").unwrap()))
}
