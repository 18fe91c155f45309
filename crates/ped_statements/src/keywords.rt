//! The words that begin statements other than simple ones. They identify a statement that is neither an
//! assignment nor another simple statement, since blanks mean nothing and no word is reserved
//! (ANSI X3.9-1978, sections 3.1.6 and 18.1).

ghost use Rattle.std.specs.Prelude.{◌≡◌, option_map};
ghost use Rattle.ped_statements.specs.StatementReading.{keyword_at, keyword_text};
ghost use Rattle.ped_statements.specs.StatementViews.{value_and_rest};

use ped_expressions::after;

/// A word that begins a statement, with what always follows it.
#[derive(Clone, Copy)]
pub enum Keyword {
    /// `PROGRAM`
    Program,
    /// `IMPLICIT INTEGER (A-Z)`, the whole statement.
    Implicit,
    /// `INTEGER`
    Integer,
    /// `DIMENSION`
    Dimension,
    /// `PARAMETER (`
    Parameter,
    /// `SAVE`
    Save,
    /// `IF (`
    If,
    /// `ELSE IF (`
    ElseIf,
    /// `ELSE`
    Else,
    /// `END IF`
    EndIf,
    /// `END DO`
    EndDo,
    /// `DO`
    Do,
    /// `PARALLEL DO`
    ParallelDo,
    /// `PRIVATE`
    Private,
    /// `END`
    End,
}

/// The keywords, each before those that begin it.
const KEYWORDS: [Keyword; 15] = [
    Keyword::Program,
    Keyword::Implicit,
    Keyword::Integer,
    Keyword::Dimension,
    Keyword::Parameter,
    Keyword::Save,
    Keyword::If,
    Keyword::ElseIf,
    Keyword::Else,
    Keyword::EndIf,
    Keyword::EndDo,
    Keyword::Do,
    Keyword::ParallelDo,
    Keyword::Private,
    Keyword::End,
];

/// The keyword at the front, and what follows it.
pub fn take_keyword(text: &[u8]) -> Option<(Keyword, &[u8])>
    ensures { option_map value_and_rest result ≡ keyword_at text.now }
{
    for keyword in &KEYWORDS {
        if let Some(rest) = after(text, word(*keyword)) {
            return Some((*keyword, rest));
        }
    }
    None
}

/// The characters of a keyword.
fn word(keyword: Keyword) -> &'static [u8]
    ensures { result.now ≡ keyword_text keyword }
{
    match keyword {
        Keyword::Program => b"PROGRAM",
        Keyword::Implicit => b"IMPLICITINTEGER(A-Z)",
        Keyword::Integer => b"INTEGER",
        Keyword::Dimension => b"DIMENSION",
        Keyword::Parameter => b"PARAMETER(",
        Keyword::Save => b"SAVE",
        Keyword::If => b"IF(",
        Keyword::ElseIf => b"ELSEIF(",
        Keyword::Else => b"ELSE",
        Keyword::EndIf => b"ENDIF",
        Keyword::EndDo => b"ENDDO",
        Keyword::Do => b"DO",
        Keyword::ParallelDo => b"PARALLELDO",
        Keyword::Private => b"PRIVATE",
        Keyword::End => b"END",
    }
}
