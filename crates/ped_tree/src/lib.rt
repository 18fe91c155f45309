//! Trees of programs. Contracts see each tree as a plain tree of `specs/Tree.antt`, whatever the capacity of its lists.
//! The definitions there say how statements are numbered, what each reads and writes, and how a tree is printed.
#![tactic(auto)]

mod conditions;
pub mod constants;
mod copying;
mod declarations;
mod expressions;
pub mod grammar;
mod laws;
pub mod names;
mod numbering;
mod statements;

pub use conditions::{Cond, Relation};
pub use copying::{copy_decls, copy_names};
pub use declarations::{Bound, Consts, Decl, Declarator, Program};
pub use expressions::{Expr, Intrinsic};
pub use laws::numbers_end_at_count;
pub use numbering::{count_statement, count_statements};
pub use statements::{Do, PrintItem, Stmt};
