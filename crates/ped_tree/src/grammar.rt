//! The grammar: what each statement of a text says, why a text is refused, and in `specs/` what each text reads as and
//! which refusal is its first.

mod items;
mod laws;
mod refusals;
mod statements;

pub use items::{DoStatement, Entry, Item, StatementReading};
pub use laws::{first_finding_is_least, former_texts_read, one_refusal, tree_or_refusal};
pub use refusals::{Refusal, RefusalKind, standing};
pub use statements::{NoteLine, Statement, Statements};
