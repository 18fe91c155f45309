//! Why a step is refused, and the words for it.

ghost use Rattle.std.specs.Prelude.{◌≡◌, IfOk};
ghost use Rattle.ped_edges.specs.CodeEdges.{edge_of, HasAtMostSixLoops};
ghost use Rattle.ped_steps.specs.CauseWords as shown;
ghost use Rattle.ped_steps.specs.CodeCauses.{cause_of, IsShort};

use crate::rules::Rule;
use ped_base::{Bytes, NoMemory, push_number};
use ped_edges::Edge;
use std::alloc::Global;

/// Why a step is refused.
#[derive(Drop)]
pub enum Refused {
    /// A rule forbids it.
    Rule {
        /// The rule.
        rule: Rule,
        /// The number of the statement that it names.
        statement: u32,
    },
    /// A dependence forbids it.
    Dependence(Edge),
}

/// The words of a refusal: `rule n Name at s`, or `edge` and the row of the dependence.
pub fn cause_words(alloc: Global, refused: &Refused) -> Result<Bytes, NoMemory>
    requires { IsShort refused.now }
    ensures { IfOk result (λ words. words ≡ shown.cause_words (cause_of refused.now)) }
{
    match refused {
        Refused::Rule { rule, statement } => rule_words(alloc, *rule, *statement),
        Refused::Dependence(edge) => edge_words(alloc, edge),
    }
}

/// The words of a rule with the statement that it names.
fn rule_words(alloc: Global, rule: Rule, statement: u32) -> Result<Bytes, NoMemory>
    ensures { IfOk result (λ words. words ≡ shown.rule_words rule statement) }
{
    let mut words = Bytes::new(alloc);
    words.extend_from_slice(b"rule ")?;
    push_number(&mut words, u64::from(rule.number()))?;
    words.push(b' ')?;
    words.extend_from_slice(rule.name())?;
    words.extend_from_slice(b" at ")?;
    push_number(&mut words, u64::from(statement))?;
    Ok(words)
}

/// The words of a dependence.
fn edge_words(alloc: Global, edge: &Edge) -> Result<Bytes, NoMemory>
    requires { HasAtMostSixLoops edge.now }
    ensures { IfOk result (λ words. words ≡ shown.edge_words (edge_of edge.now)) }
{
    let mut words = Bytes::new(alloc);
    words.extend_from_slice(b"edge ")?;
    edge.push_row(&mut words)?;
    Ok(words)
}
