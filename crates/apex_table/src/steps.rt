//! A step by its text.
ghost use Rattle.std.specs.Prelude.{◌≡◌, map};
ghost use Rattle.apex_calls.specs.Catalogue.{IsRow, view};
ghost use Rattle.apex_words.specs.Outcome.{Gives};
ghost use Rattle.apex_table.specs.Steps.{step_place, of_step, of_word, has_form, have_forms, ill_formed, misfit, nothing, row_step, step_of, step, with_words};

mod given;

use crate::names::Names;
use apex_calls::{Row, Shape, call_of, row_of_word};
use apex_machine::Step;
use apex_types::Origin;
use apex_words::{
    Place, Subject, TableFault, is_message, is_number, is_timeout, requested_mode, words,
};
use given::{Given, with_word};
use std::alloc::Global;

/// The place of the step of this origin in its script, or in the init list, counted from 0.
fn step_place(origin: &Origin) -> usize
    ensures { result ≡ step_place origin.now }
{
    match origin {
        Origin::Script(_, place) => usize::from(*place),
        Origin::Init(place) => usize::from(*place),
    }
}

/// The step of this origin as a whole.
fn of_step(at: Place, origin: &Origin) -> Subject
    ensures { result ≡ of_step at origin.now }
{
    at.step(step_place(origin))
}

/// A word of the step of this origin, by its place, counted from 0: the service is word 0.
pub fn of_word(at: Place, origin: &Origin, word: usize) -> Subject
    ensures { result ≡ of_word at origin.now word }
{
    at.word(step_place(origin), word)
}

/// Whether a word has the form of this shape, which may be out of range.
fn has_form(shape: &Shape, word: &str) -> bool
    ensures { result ≡ has_form shape.now word.now }
{
    match shape {
        Shape::Entry(_) | Shape::Named(_) => !word.is_empty(),
        Shape::Number(_, _) => is_number(word),
        Shape::Timeout => is_timeout(word),
        Shape::Message => !word.is_empty() && is_message(word),
        Shape::Mode => requested_mode(word).is_some(),
    }
}

/// Whether the words are as many as the shapes, and each has the form of its shape.
fn have_forms(shapes: &[Shape], words: &[&str]) -> bool
    ensures { result ≡ have_forms shapes.now (map (λ w. w.now) words.now) }
{
    let mut shapes_left = shapes;
    let mut words_left = words;
    while let [shape, shapes @ ..] = shapes_left {
        let [word, words @ ..] = words_left else {
            return false;
        };
        if !has_form(shape, word) {
            return false;
        }
        shapes_left = shapes;
        words_left = words;
    }
    match words_left {
        [] => true,
        [_, ..] => false,
    }
}

/// The first word that does not have the form of its shape, or else the whole step.
fn ill_formed(at: Place, origin: &Origin, shapes: &[Shape], words: &[&str]) -> Subject
    ensures { result ≡ ill_formed at origin.now 1 shapes.now (map (λ w. w.now) words.now) }
{
    let mut place = 1;
    let mut shapes_left = shapes;
    let mut words_left = words;
    while let [shape, shapes @ ..] = shapes_left {
        let [word, words @ ..] = words_left else {
            return of_step(at, origin);
        };
        if !has_form(shape, word) {
            return of_word(at, origin, place);
        }
        place += 1;
        shapes_left = shapes;
        words_left = words;
    }
    of_step(at, origin)
}

/// What is at fault in a step whose words do not have their forms: the whole step if the words are
/// more or fewer than the shapes, else the first word without the form of its shape.
fn misfit(at: Place, origin: &Origin, shapes: &[Shape], words: &[&str]) -> Subject
    ensures { result ≡ misfit at origin.now shapes.now (map (λ w. w.now) words.now) }
{
    if shapes.len() == words.len() {
        ill_formed(at, origin, shapes, words)
    } else {
        of_step(at, origin)
    }
}

/// The values with those of all words, from left to right.
fn with_words(
    at: Place,
    origin: &Origin,
    names: &Names,
    shapes: &[Shape],
    words: &[&str],
) -> Result<Given, TableFault>
    ensures { Gives (λ g. g) result
        (with_words at 1 origin.now names.now nothing shapes.now (map (λ w. w.now) words.now)) }
{
    let mut given = Given::nothing();
    let mut place = 1;
    let mut shapes_left = shapes;
    let mut words_left = words;
    while let [shape, shapes @ ..] = shapes_left {
        let [word, words @ ..] = words_left else {
            return Ok(given);
        };
        given = with_word(
            of_word(at, origin, place),
            origin,
            names,
            given,
            shape,
            word,
        )?;
        place += 1;
        shapes_left = shapes;
        words_left = words;
    }
    Ok(given)
}

/// The step of a row's service, by the words behind the service: first their forms are tested, then
/// they are read from left to right.
#[tactic(auto, unfolding(crate::specs::Steps::row_step))]
fn row_step(
    at: Place,
    origin: &Origin,
    names: &Names,
    row: &'static Row,
    words: &[&str],
) -> Result<Step, TableFault>
    requires { IsRow (view row.now) }
    ensures { Gives (λ s. s) result
        (row_step at origin.now names.now (view row.now) (map (λ w. w.now) words.now)) }
{
    if !have_forms(row.shapes, words) {
        return Err(TableFault::BadStep(misfit(at, origin, row.shapes, words)));
    }
    let given = with_words(at, origin, names, row.shapes, words)?;
    Ok(Step::new(call_of(row.service, &given.arguments), given.literal))
}

/// The step of these words, of which the first one asks for the service.
fn step_of(at: Place, origin: &Origin, names: &Names, words: &[&str]) -> Result<Step, TableFault>
    ensures { Gives (λ s. s) result (step_of at origin.now names.now (map (λ w. w.now) words.now)) }
{
    let [service, words @ ..] = words else {
        return Err(TableFault::BadStep(of_step(at, origin)));
    };
    match row_of_word(service) {
        Some(row) => row_step(at, origin, names, row, words),
        None => Err(TableFault::BadStep(of_word(at, origin, 0))),
    }
}

/// The step of this origin, by its text.
#[tactic(auto, unfolding(crate::specs::Steps::step))]
pub fn step(
    alloc: Global,
    at: Place,
    origin: Origin,
    names: &Names,
    text: &str,
) -> Result<Step, TableFault>
    ensures { Gives (λ s. s) result (step at origin names.now text.now) }
{
    let words = words(alloc, text)?;
    step_of(at, &origin, names, &words)
}
