//! Rows as a JUnit report.

ghost use Rattle.std.specs.Prelude.{◌<◌, length};
ghost use Rattle.std.specs.List.{All};
ghost use Rattle.tl_show.specs.Lines.{IsSoundTold};

use crate::Pick;
use std::alloc::{AllocError, Global};
use tl_beats::Row;
use tl_capture::Present;
use tl_rows::Told;
use tl_show::{shown_row, survey_beats};
use tl_tables::{Level, RULES, Rule, rule_level, rule_line, rule_number, rule_text};
use tl_topology::Topo;

/// How many rows have their lines at most, as with `--show`.
const MOST_TOLD: usize = 1_000;

/// Whether a link of the level can break the rule whatever a script does.
fn is_of_level(rule: Rule, level: Level) -> bool {
    match rule_level(rule) {
        None => false,
        Some(Level::Ul) => true,
        Some(Level::Uh) => level != Level::Ul,
        Some(Level::C) => level == Level::C,
    }
}

/// Whether a row is of this link and rule.
fn is_of(row: &Row, link: u16, rule: Rule) -> bool {
    row.link == link && rule_number(row.rule) == rule_number(rule)
}

/// Whether one of the rows is of this link and rule.
fn has_rows(rows: &[Row], link: u16, rule: Rule) -> bool {
    rows.iter().any(|row| is_of(row, link, rule))
}

/// A test case of a suite: a rule of a link.
#[derive(Clone, Copy)]
struct Case {
    link: u16,
    level: Level,
    rule: Rule,
}

/// Whether the suite of a link has a case of the rule: it is wanted, and of the link's level or broken.
fn is_case(pick: &Pick, rows: &[Row], case: Case) -> bool {
    pick.has_rule(case.rule)
        && (is_of_level(case.rule, case.level) || has_rows(rows, case.link, case.rule))
}

/// The rows of a case, each with its lines.
fn case_rows(
    alloc: Global,
    topo: &Topo,
    told: &[Told],
    rows: &[Row],
    case: Case,
) -> Result<String, AllocError>
    requires links { All (λ row. row.link < length topo.now.links) rows.now }
    requires told { All (IsSoundTold topo.now) told.now }
{
    let mut text = String::new(alloc);
    for row in rows {
        if is_of(row, case.link, case.rule) {
            let lines = shown_row(alloc, topo, told, row)?;
            text.push_str(lines.as_str())?;
        }
    }
    Ok(text)
}

/// A test case in XML. No text of rows has a character that XML reads as its own.
fn case_text(alloc: Global, link: &str, rule: Rule, rows: &str) -> Result<String, AllocError> {
    let name = rule_text(rule);
    let meaning = rule_line(rule);
    if rows.is_empty() {
        return format!(in alloc; "<testcase classname=\"{link}\" name=\"{name}: {meaning}\"/>\n");
    }
    format!(in alloc;
        "<testcase classname=\"{link}\" name=\"{name}: {meaning}\">\n<failure type=\"{name}\" message=\"{meaning}\">\n{rows}</failure>\n</testcase>\n"
    )
}

/// The cases of a link.
fn cases_text(
    alloc: Global,
    topo: &Topo,
    told: &[Told],
    rows: &[Row],
    pick: &Pick,
    link: u16,
) -> Result<String, AllocError>
    requires links { All (λ row. row.link < length topo.now.links) rows.now }
    requires told { All (IsSoundTold topo.now) told.now }
    requires link { link < length topo.now.links }
{
    let decl = topo.link(link).unwrap();
    let level = decl.level;
    let mut text = String::new(alloc);
    for rule in &RULES {
        let case = Case {
            link,
            level,
            rule: *rule,
        };
        if is_case(pick, rows, case) {
            let own = case_rows(alloc, topo, told, rows, case)?;
            let more = case_text(alloc, decl.name.as_str(), *rule, own.as_str())?;
            text.push_str(more.as_str())?;
        }
    }
    Ok(text)
}

/// How many cases a link has, and how many of them fail.
fn counts_of(pick: &Pick, rows: &[Row], link: u16, level: Level) -> (usize, usize) {
    let tests = RULES
        .iter()
        .filter(|rule| {
            is_case(
                pick,
                rows,
                Case {
                    link,
                    level,
                    rule: **rule,
                },
            )
        })
        .count();
    let failures = RULES
        .iter()
        .filter(|rule| has_rows(rows, link, **rule))
        .count();
    (tests, failures)
}

/// The suite of a link.
fn suite_text(
    alloc: Global,
    topo: &Topo,
    told: &[Told],
    rows: &[Row],
    pick: &Pick,
    link: u16,
) -> Result<String, AllocError>
    requires links { All (λ row. row.link < length topo.now.links) rows.now }
    requires told { All (IsSoundTold topo.now) told.now }
    requires link { link < length topo.now.links }
{
    let decl = topo.link(link).unwrap();
    let name = decl.name;
    let (tests, failures) = counts_of(pick, rows, link, decl.level);
    let cases = cases_text(alloc, topo, told, rows, pick, link)?;
    format!(in alloc;
        "<testsuite name=\"{name}\" tests=\"{tests}\" failures=\"{failures}\" errors=\"0\">\n{cases}</testsuite>\n"
    )
}

/// The suites of the links that are wanted.
fn suites_text(
    alloc: Global,
    topo: &Topo,
    told: &[Told],
    rows: &[Row],
    pick: &Pick,
) -> Result<String, AllocError>
    requires links { All (λ row. row.link < length topo.now.links) rows.now }
    requires told { All (IsSoundTold topo.now) told.now }
{
    let mut text = String::new(alloc);
    for link in 0..topo.link_count() {
        if pick.has_link(link as u16) {
            let suite = suite_text(alloc, topo, told, rows, pick, link as u16)?;
            text.push_str(suite.as_str())?;
        }
    }
    Ok(text)
}

/// Rows as a JUnit report: a suite for each link that is wanted, in it a case for each rule that is wanted and of the link's level, or
/// of which there are rows; those of a case are its failure. F10 and X1 have a case where they have rows. The first 1,000 rows have
/// their lines, as with `--show`. AllocError where memory is refused.
pub fn junit_text(
    alloc: Global,
    topo: &Topo,
    present: &Present,
    rows: &[Row],
    pick: &Pick,
) -> Result<String, AllocError>
    requires { All (λ row. row.link < length topo.now.links) rows.now }
{
    let count = rows.len().min(MOST_TOLD);
    let survey = survey_beats(alloc, topo, present, &rows[..count])?;
    let suites = suites_text(alloc, topo, &survey.told, rows, pick)?;
    format!(in alloc;
        "<?xml version=\"1.0\" encoding=\"UTF-8\"?>\n<testsuites name=\"tlcheck\">\n{suites}</testsuites>\n"
    )
}
