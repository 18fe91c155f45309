//! Lines of fixed form by their columns (ANSI X3.9-1978, section 3.2): comments in full lines, labels in
//! columns 1 to 5, the mark of a continuation in column 6, a statement's characters in columns 7 to 72.

ghost use Rattle.std.specs.Prelude.{◌≡◌, ◌+◌, ◌*◌, ◌<◌, ◌≤◌, ◌==◌, ◌||◌, ◌-◌, ◌++◌, not, take, drop, length, replicate, slice_index_or};
ghost use Rattle.std.specs.List.{list_all, list_any};
ghost use Rattle.ped_base.specs.Letters.{is_digit};
ghost use Rattle.ped_tree.specs.Grammar.Columns as Spec;

/// Whether the line is a comment or a directive: C, c or * in column 1, or blanks alone to column 72.
#[tactic(auto, unfolding(ped_tree::specs::Grammar::Columns::is_comment))]
pub fn is_comment(line: &[u8]) -> bool
    ensures { result ≡ Spec.is_comment line.now }
{
    has_comment_mark(line) || is_blank(front(line, 72))
}

fn has_comment_mark(line: &[u8]) -> bool
    ensures { result ≡ Spec.has_comment_mark line.now }
{
    let mark = column(line, 1);
    mark == b'C' || mark == b'c' || mark == b'*'
}

/// Whether a comment is a directive: $PED in columns 2 to 5, in any case.
#[tactic(auto, unfolding(ped_tree::specs::Grammar::Columns::is_directive))]
pub fn is_directive(line: &[u8]) -> bool
    ensures { result ≡ Spec.is_directive line.now }
{
    column(line, 2) == b'$'
        && column(line, 3).to_ascii_uppercase() == b'P'
        && column(line, 4).to_ascii_uppercase() == b'E'
        && column(line, 5).to_ascii_uppercase() == b'D'
}

/// Whether a line that is no comment continues a statement: column 6 is neither blank, 0 nor a tab.
#[tactic(auto, unfolding(ped_tree::specs::Grammar::Columns::is_continuation))]
pub fn is_continuation(line: &[u8]) -> bool
    ensures { result ≡ Spec.is_continuation line.now }
{
    let mark = column(line, 6);
    !(mark == b' ' || mark == b'0' || mark == b'\t')
}

/// The label of an initial line, none where it has no digit but 0.
#[tactic(auto, unfolding(ped_tree::specs::Grammar::Columns::label_of))]
pub fn label_of(line: &[u8]) -> Option<u32>
    ensures { result ≡ Spec.label_of line.now }
{
    let number = label_number(line);
    if number == 0 { None } else { Some(number) }
}

#[tactic(auto, unfolding(ped_tree::specs::Grammar::Columns::label_number))]
fn label_number(line: &[u8]) -> u32
    ensures { result ≡ Spec.label_number line.now }
{
    let one = with_digit(0, column(line, 1));
    let two = with_digit(one, column(line, 2));
    let three = with_digit(two, column(line, 3));
    let four = with_digit(three, column(line, 4));
    with_digit(four, column(line, 5))
}

#[tactic(auto, unfolding(ped_tree::specs::Grammar::Columns::with_digit))]
fn with_digit(number: u32, c: u8) -> u32
    requires { number < 10000 }
    ensures value { result ≡ Spec.with_digit number c }
    ensures small { result < number * 10 + 10 }
{
    if c.is_ascii_digit() {
        number * 10 + (c - b'0') as u32
    } else {
        number
    }
}

/// Whether an initial line's columns 1 to 5 are neither blank nor a label.
#[tactic(auto, unfolding(ped_tree::specs::Grammar::Columns::has_bad_label))]
pub fn has_bad_label(line: &[u8]) -> bool
    ensures { result ≡ Spec.has_bad_label line.now }
{
    let field = front(line, 5);
    !is_digits_and_blanks(field) || (has_digit(field) && label_number(line) == 0)
}

fn is_digits_and_blanks(columns: &[u8]) -> bool
    ensures { result ≡ list_all (λ c. Spec.is_blank c || is_digit c) columns.now }
{
    columns.iter().all(|c| *c == b' ' || c.is_ascii_digit())
}

fn has_digit(columns: &[u8]) -> bool
    ensures { result ≡ list_any is_digit columns.now }
{
    columns.iter().any(|c| c.is_ascii_digit())
}

/// Whether a continuation line's columns 1 to 5 are not blank.
#[tactic(auto, unfolding(ped_tree::specs::Grammar::Columns::has_label_field))]
pub fn has_label_field(line: &[u8]) -> bool
    ensures { result ≡ Spec.has_label_field line.now }
{
    !is_blank(front(line, 5))
}

/// Whether there is a tab in columns 1 to 72.
#[tactic(auto, unfolding(ped_tree::specs::Grammar::Columns::has_tab))]
pub fn has_tab(line: &[u8]) -> bool
    ensures { result ≡ Spec.has_tab line.now }
{
    front(line, 72).iter().any(|c| *c == b'\t')
}

/// Columns 7 to 72.
#[tactic(auto, unfolding(ped_tree::specs::Grammar::Columns::statement_columns))]
pub fn statement_columns(line: &[u8]) -> [u8; 66]
    ensures { result ≡ Spec.statement_columns line.now }
{
    filled(front(behind(line, 6), 66))
}

/// The bytes with blanks after them.
fn filled(text: &[u8]) -> [u8; 66]
    requires { length text.now ≤ 66 }
    ensures { result ≡ text.now ++ replicate (66 - length text.now) 32 }
{
    let mut columns = [b' '; 66];
    columns[..text.len()].copy_from_slice(text);
    columns
}

/// The first `count` columns, or all that the line has.
pub fn front(line: &[u8], count: usize) -> &[u8]
    ensures columns { result.now ≡ take count line.now }
    ensures short { length result.now ≤ count }
{
    line.split_at(line.len().min(count)).0
}

/// The columns after the first `count`.
pub fn behind(line: &[u8], count: usize) -> &[u8]
    ensures { result.now ≡ drop count line.now }
{
    line.split_at(line.len().min(count)).1
}

/// The byte in column `number`, a blank where the line is shorter.
fn column(line: &[u8], number: usize) -> u8
    requires { 0 < number }
    ensures { result ≡ Spec.column number line.now }
{
    if number <= line.len() {
        line[number - 1]
    } else {
        b' '
    }
}

fn is_blank(columns: &[u8]) -> bool
    ensures { result ≡ list_all Spec.is_blank columns.now }
{
    columns.iter().all(|c| *c == b' ')
}
