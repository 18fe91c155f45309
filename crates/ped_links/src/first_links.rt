//! The first refusal due to a CALL, by line and then by number.

ghost use Rattle.std.specs.Prelude.{◌≡◌};
ghost use Rattle.ped_links.specs.FirstLinks as Spec;

use ped_units::{UnitFinding, UnitRule};

/// The earlier one of what was found and this rule at its line, where it is broken.
pub fn standing(
    found: Option<UnitFinding>,
    test: bool,
    rule: UnitRule,
    line: u64,
) -> Option<UnitFinding>
    ensures { result ≡ Spec.standing_link found test rule line }
{
    if !test {
        return found;
    }
    earlier(found, UnitFinding { rule, line })
}

/// The earlier one of two findings, where there are some.
pub fn first_of_two(found: Option<UnitFinding>, other: Option<UnitFinding>) -> Option<UnitFinding>
    ensures { result ≡ Spec.first_link_of found other }
{
    match other {
        Some(finding) => earlier(found, finding),
        None => found,
    }
}

/// The earlier one of what was found and another finding.
fn earlier(found: Option<UnitFinding>, finding: UnitFinding) -> Option<UnitFinding>
    ensures { result ≡ Spec.earlier_link found finding }
{
    if comes_first(finding, found) {
        Some(finding)
    } else {
        found
    }
}

/// Whether a finding comes before what was found: by line, and then by number.
pub fn comes_first(finding: UnitFinding, found: Option<UnitFinding>) -> bool
    ensures { result ≡ Spec.comes_first finding found }
{
    match found {
        Some(other) => is_before(finding, other),
        None => true,
    }
}

fn is_before(finding: UnitFinding, other: UnitFinding) -> bool
    ensures { result ≡ Spec.is_before_finding finding other }
{
    let number = finding.rule.number();
    let other_number = other.rule.number();
    finding.line < other.line || (finding.line == other.line && number < other_number)
}
