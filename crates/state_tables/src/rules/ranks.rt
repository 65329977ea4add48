//! `plain`: whether a plain form ranks the rules of the case, by a rank step of it. `stepwise`: whether a stepwise form does, where a
//! step is made too. `linear`: whether such a form does, or one over several places, by a rank step. Two more are made by hand:
//! `plain-form` and `stepwise-form` write the form that is found. `read-rules`, which is for measuring alone, reads a case and tests its
//! limits.
ghost use Rattle.rank_forms.specs.Graphs.{ArePlainRules};
ghost use Rattle.descent.specs.Conditions.{AreRules};

use anyhow::{Context, Result, bail};
use descent::{PathRule, Place};
use json_view::View;
use rank_search::{
    PlainForm, StepwiseForm, are_plain_rules, linear, plain, plain_form, stepwise_form,
};
use std::alloc::{AllocError, Global};
use table_cases::json_cases::value;
use table_cases::rule_cases::{are_rules, rules};
use table_cases::{Case, put_numbered, said};

/// The answer to a case.
pub fn answer(alloc: Global, case: &Case<'_>) -> Result<String> {
    let value = value(alloc, case.text(0)?)?;
    let rules = rules(alloc, &View::root(&value))?;
    told(alloc, case.table(), rules.as_slice())
}

/// What a case asks of its rules.
#[derive(Clone, Copy)]
enum Question {
    /// Whether a plain form ranks them.
    Plain,
    /// Whether a stepwise form does.
    Stepwise,
    /// Whether a stepwise form does, or one over several places.
    Linear,
    /// Whether they are within their limits.
    Read,
    /// The plain form that is found.
    Form,
    /// The stepwise form that is found.
    Steps,
}

fn asked_by(table: &str) -> Option<Question> {
    match table {
        "plain" => Some(Question::Plain),
        "stepwise" => Some(Question::Stepwise),
        "linear" => Some(Question::Linear),
        "read-rules" => Some(Question::Read),
        "plain-form" => Some(Question::Form),
        "stepwise-form" => Some(Question::Steps),
        _ => None,
    }
}

/// The answer to a table about rules.
fn told(alloc: Global, table: &str, rules: &[PathRule]) -> Result<String> {
    if !are_rules(rules) {
        bail!("a number is past its limit");
    }
    of_rules(
        alloc,
        asked_by(table).context("the table is not known")?,
        rules,
    )
}

fn of_rules(alloc: Global, question: Question, rules: &[PathRule]) -> Result<String>
    requires { AreRules rules.now }
{
    if !are_plain_rules(rules) {
        bail!("the rules are not those of paths");
    }
    answered(alloc, question, rules)
}

fn answered(alloc: Global, question: Question, rules: &[PathRule]) -> Result<String>
    requires { ArePlainRules rules.now }
{
    match question {
        Question::Plain => is_plain(alloc, rules),
        Question::Stepwise => stepwise(alloc, rules),
        Question::Linear => is_linear(alloc, rules),
        Question::Read => said(alloc, "OK"),
        Question::Form => plain_text(alloc, &plain_form(alloc, rules)?),
        Question::Steps => stepwise_text(alloc, &stepwise_form(alloc, rules)?),
    }
}

fn is_plain(alloc: Global, rules: &[PathRule]) -> Result<String>
    requires { ArePlainRules rules.now }
{
    found(alloc, plain(alloc, rules)?.is_some())
}

fn is_linear(alloc: Global, rules: &[PathRule]) -> Result<String>
    requires { ArePlainRules rules.now }
{
    found(alloc, linear(alloc, rules)?.is_some())
}

/// Whether a stepwise form ranks the rules; where one does, a step is made.
fn stepwise(alloc: Global, rules: &[PathRule]) -> Result<String>
    requires { ArePlainRules rules.now }
{
    let is_found = stepwise_form(alloc, rules)?.is_some();
    if is_found && linear(alloc, rules)?.is_none() {
        bail!("no step is made");
    }
    found(alloc, is_found)
}

fn found(alloc: Global, is_found: bool) -> Result<String> {
    said(alloc, if is_found { "Some" } else { "None" })
}

/// Writes a place as its frame, the kind of position and its number.
fn put_place(text: &mut String, place: &Place) -> Result<(), AllocError> {
    put_numbered(text, " ", i64::from(place.frame))?;
    let kind = if place.stack { " stack " } else { " local " };
    put_numbered(text, kind, i64::from(place.index))
}

fn plain_text(alloc: Global, found: &Option<PlainForm>) -> Result<String> {
    let mut text = String::new(alloc);
    match found {
        Some(PlainForm::Ints(terms)) => put_terms(&mut text, terms.as_slice())?,
        Some(PlainForm::Size(place)) => put_word(&mut text, "size", place)?,
        None => text.push_str("None")?,
    }
    Ok(text)
}

fn put_terms(text: &mut String, terms: &[(Place, i64)]) -> Result<(), AllocError> {
    text.push_str("ints")?;
    for (place, times) in terms {
        put_numbered(text, " ", *times)?;
        put_place(text, place)?;
    }
    Ok(())
}

fn put_word(text: &mut String, word: &str, place: &Place) -> Result<(), AllocError> {
    text.push_str(word)?;
    put_place(text, place)
}

fn stepwise_text(alloc: Global, found: &Option<StepwiseForm>) -> Result<String> {
    let mut text = String::new(alloc);
    match found {
        Some(form) => put_word(
            &mut text,
            if form.negative { "less" } else { "int" },
            &form.place,
        )?,
        None => text.push_str("None")?,
    }
    Ok(text)
}
